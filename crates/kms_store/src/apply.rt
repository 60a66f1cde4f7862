// Changes applied to rows.
ghost use Rattle.std.specs.Prelude.{◌≡◌, ◌<◌, ◌≤◌, ◌+◌, ◌^◌, false};
ghost use Rattle.kms_world.specs.Effect.{after_effect, ids_with};
ghost use Rattle.kms_world.specs.Effect as effects;
ghost use Rattle.kms_world.specs.Id.{id_number};
ghost use Rattle.kms_record.specs.Grammar.{IsChange, IsChangeInRange};
ghost use Rattle.kms_store.specs.Prepared.{change_of, IsRowOf};
ghost use Rattle.kms_record.specs.Order.{IsOrderPutInRange};
ghost use Rattle.kms_record.specs.Acl.{IsAclPutInRange};
ghost use Rattle.kms_record.specs.Consumer.{IsConsumerAddedInRange};
ghost use Rattle.kms_kept.specs.Kept.{changed};
ghost use Rattle.kms_store.specs.Ready.{puts_container};
ghost use Rattle.kms_store.specs.Rows.{kept_in, with_state, AreOrdered, HasSpace, LeavesSpace};

use crate::ready::Prepared;
use crate::rows::Rows;
use crate::{KeptSecret, edits, keys};
use kms_record::{
    AclPut, Change, ConsumerAdded, ConsumerDropped, KeyDropped, MetadataPut, OrderPut, PayloadPut,
    QuotaPut, SecretPut, TokenReplaced, WrappedKey,
};
use kms_world::{ContainerRow, Id, Payload};
use std::alloc::Global;

impl Rows {
    // Where the tables have their memory from.
    fn allocator(&self) -> Global {
        *self.keys.allocator()
    }

    // How many ids are given where a row has this id.
    fn ids_with(&self, id: Id) -> u64
        requires ordered { AreOrdered self.now }
        requires below { id.0 < id_number self.now.tag (2 ^ 62) }
        ensures ids { result ≡ ids_with id (kept_in self.now).state }
        ensures most { result ≤ 2 ^ 62 }
    {
        if self.ids < 1 << 62 && self.id(self.ids).0 == id.0 {
            self.ids + 1
        } else {
            self.ids
        }
    }

    fn put_secret(&mut self, put: SecretPut)
        requires ordered { AreOrdered self.old }
        requires space { HasSpace 1 self.old }
        requires range { put.id < 2 ^ 62 }
        ensures kept { kept_in self.new ≡ changed (Change.SecretPut put) (kept_in self.old) }
        ensures space { LeavesSpace self.old self.new }
    {
        let row = put.into_row(self.allocator(), self.tag);
        self.ids = self.ids_with(row.id);
        self.secrets.push(KeptSecret::new(row));
    }

    fn put_payload(&mut self, put: PayloadPut)
        requires ordered { AreOrdered self.old }
        requires range { put.secret < 2 ^ 62 }
        ensures kept { kept_in self.new ≡ changed (Change.PayloadPut put) (kept_in self.old) }
        ensures space { LeavesSpace self.old self.new }
    {
        let id = self.id(put.secret);
        let payload = Payload {
            media: put.media,
            bytes: put.token,
        };
        edits::set_payload(&mut self.secrets, id, put.updated, put.number, payload);
    }

    fn put_metadata(&mut self, put: MetadataPut)
        requires ordered { AreOrdered self.old }
        requires range { put.secret < 2 ^ 62 }
        ensures kept { kept_in self.new ≡ changed (Change.MetadataPut put) (kept_in self.old) }
        ensures space { LeavesSpace self.old self.new }
    {
        let id = self.id(put.secret);
        edits::set_metadata(&mut self.secrets, id, put.updated, put.pairs);
    }

    fn replace_token(&mut self, put: TokenReplaced)
        requires ordered { AreOrdered self.old }
        requires range { put.secret < 2 ^ 62 }
        ensures kept { kept_in self.new ≡ changed (Change.TokenReplaced put) (kept_in self.old) }
        ensures space { LeavesSpace self.old self.new }
    {
        let id = self.id(put.secret);
        edits::replace_token(&mut self.secrets, id, put.number, put.token);
    }

    fn put_container(&mut self, row: ContainerRow)
        requires ordered { AreOrdered self.old }
        requires space { HasSpace 1 self.old }
        requires below { row.id.0 < id_number self.old.tag (2 ^ 62) }
        ensures kept { kept_in self.new ≡ with_state (after_effect (effects.ContainerPut row) (kept_in self.old).state) (kept_in self.old) }
        ensures space { LeavesSpace self.old self.new }
    {
        self.ids = self.ids_with(row.id);
        self.containers.put(row);
    }

    fn add_consumer(&mut self, put: ConsumerAdded)
        requires ordered { AreOrdered self.old }
        requires space { HasSpace 1 self.old }
        requires range { IsConsumerAddedInRange put }
        ensures kept { kept_in self.new ≡ changed (Change.ConsumerAdded put) (kept_in self.old) }
        ensures space { LeavesSpace self.old self.new }
    {
        self.consumers.push(put.into_row(self.tag));
    }

    fn drop_consumer(&mut self, put: ConsumerDropped)
        requires ordered { AreOrdered self.old }
        requires range { put.container < 2 ^ 62 }
        ensures kept { kept_in self.new ≡ changed (Change.ConsumerDropped put) (kept_in self.old) }
        ensures space { LeavesSpace self.old self.new }
    {
        let id = self.id(put.container);
        self.consumers.drop_like(id, &put.name, &put.url);
    }

    fn put_acl(&mut self, put: AclPut)
        requires ordered { AreOrdered self.old }
        requires space { HasSpace 1 self.old }
        requires range { IsAclPutInRange put }
        ensures kept { kept_in self.new ≡ changed (Change.AclPut put) (kept_in self.old) }
        ensures space { LeavesSpace self.old self.new }
    {
        self.acls.put(put.into_row(self.tag));
    }

    fn drop_acl(&mut self, target: u64)
        requires ordered { AreOrdered self.old }
        requires range { target < 2 ^ 62 }
        ensures kept { kept_in self.new ≡ changed (Change.AclDropped target) (kept_in self.old) }
        ensures space { LeavesSpace self.old self.new }
    {
        let id = self.id(target);
        self.acls.drop_key(&id);
    }

    fn put_order(&mut self, put: OrderPut)
        requires ordered { AreOrdered self.old }
        requires space { HasSpace 1 self.old }
        requires range { IsOrderPutInRange put }
        ensures kept { kept_in self.new ≡ changed (Change.OrderPut put) (kept_in self.old) }
        ensures space { LeavesSpace self.old self.new }
    {
        let row = put.into_row(self.tag);
        self.ids = self.ids_with(row.id);
        self.orders.put(row);
    }

    fn put_quota(&mut self, put: QuotaPut)
        requires ordered { AreOrdered self.old }
        requires space { HasSpace 1 self.old }
        ensures kept { kept_in self.new ≡ changed (Change.QuotaPut put) (kept_in self.old) }
        ensures space { LeavesSpace self.old self.new }
    {
        match put.limits {
            Some(limits) => self.quotas.put(limits.into_row(put.project)),
            None => self.quotas.drop_key(&put.project),
        }
    }

    fn delete(&mut self, count: u64)
        requires ordered { AreOrdered self.old }
        requires range { count < 2 ^ 62 }
        ensures kept { kept_in self.new ≡ changed (Change.Deleted count) (kept_in self.old) }
        ensures space { LeavesSpace self.old self.new }
    {
        let id = self.id(count);
        self.secrets.drop_id(id);
        self.containers.drop_id(id);
        self.consumers.drop_on(id);
        self.orders.drop_id(id);
        self.acls.drop_key(&id);
    }

    fn add_key(&mut self, key: WrappedKey)
        requires ordered { AreOrdered self.old }
        requires space { HasSpace 1 self.old }
        ensures kept { kept_in self.new ≡ changed (Change.KeyAdded key) (kept_in self.old) }
        ensures space { LeavesSpace self.old self.new }
    {
        keys::insert_key(&mut self.keys, key);
    }

    fn rewrap_key(&mut self, key: WrappedKey)
        ensures kept { kept_in self.new ≡ changed (Change.KeyRewrapped key) (kept_in self.old) }
        ensures space { LeavesSpace self.old self.new }
    {
        keys::rewrap_key(&mut self.keys, &key);
    }

    fn drop_key(&mut self, put: KeyDropped)
        ensures kept { kept_in self.new ≡ changed (Change.KeyDropped put) (kept_in self.old) }
        ensures space { LeavesSpace self.old self.new }
    {
        keys::drop_key(&mut self.keys, &put.project, put.number);
    }

    // Applies a change, but for one that puts a container.
    fn apply(&mut self, change: Change)
        requires ordered { AreOrdered self.old }
        requires space { HasSpace 1 self.old }
        requires range { IsChangeInRange change }
        requires other { puts_container change ≡ false }
        ensures kept { kept_in self.new ≡ changed change (kept_in self.old) }
        ensures space { LeavesSpace self.old self.new }
    {
        match change {
            Change::KeyAdded(key) => self.add_key(key),
            Change::KeyRewrapped(key) => self.rewrap_key(key),
            Change::TokenReplaced(put) => self.replace_token(put),
            Change::KeyDropped(put) => self.drop_key(put),
            Change::SecretPut(put) => self.put_secret(put),
            Change::PayloadPut(put) => self.put_payload(put),
            Change::MetadataPut(put) => self.put_metadata(put),
            Change::ContainerPut(_) => {}
            Change::ConsumerAdded(put) => self.add_consumer(put),
            Change::ConsumerDropped(put) => self.drop_consumer(put),
            Change::AclPut(put) => self.put_acl(put),
            Change::AclDropped(target) => self.drop_acl(target),
            Change::OrderPut(put) => self.put_order(put),
            Change::QuotaPut(put) => self.put_quota(put),
            Change::Deleted(count) => self.delete(count),
        }
    }

    /// Applies a change that is ready. It takes no memory.
    pub(crate) fn apply_prepared(&mut self, prepared: Prepared)
        requires ordered { AreOrdered self.old }
        requires space { HasSpace 1 self.old }
        requires row { IsRowOf self.old.tag prepared }
        requires change { IsChange (change_of prepared) }
        ensures kept { kept_in self.new ≡ changed (change_of prepared) (kept_in self.old) }
        ensures space { LeavesSpace self.old self.new }
    {
        match prepared {
            Prepared::Container(row) => self.put_container(row),
            Prepared::Other(change) => self.apply(change),
        }
    }
}
