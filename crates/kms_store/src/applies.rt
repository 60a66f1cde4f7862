// Whether a change applies to rows.
ghost use Rattle.std.specs.Prelude.{◌≡◌, ◌<◌, ◌^◌, ◌&&◌, ◌||◌, ◌==◌, not, map, nat_lt, is_some};
ghost use Rattle.std.specs.List.{list_any, list_all};
ghost use Rattle.std.specs.Str.{bytes_eq};
ghost use Rattle.kms_world.specs.Effect.{is_consumer};
ghost use Rattle.kms_world.specs.Id.{id_at, is_id};
ghost use Rattle.kms_world.specs.LookUp.{order_of};
ghost use Rattle.kms_record.specs.Grammar.{IsChangeInRange};
ghost use Rattle.kms_kept.specs.Kept.{Records, applies, has, is_taken, is_new, is_named_once, is_pending, is_under, may_replace_container, may_replace_order, names_id, quota_applies, same_text, same_number, secret_ids, container_ids, order_ids};
ghost use Rattle.kms_record.specs.Order.{IsOrderPutInRange, IsStateInRange};
ghost use Rattle.kms_store.specs.Part.{part_of};
ghost use Rattle.kms_store.specs.Rows.{kept_in, AreOrdered};
ghost use Rattle.kms_store.specs.Table.{Rises};

use crate::keys::{has_another, is_latest};
use crate::row::Row;
use crate::rows::Rows;
use crate::table::{Table, are_below};
use crate::{KeptSecret, Part};
use kms_record::{
    AclPut, Change, ConsumerAdded, ConsumerDropped, ContainerPut, KeyDropped, OrderPut,
    OrderPutState, PayloadPut, QuotaPut, TokenReplaced, WrappedKey,
};
use kms_world::{
    AclRow, ConsumerRow, ContainerRow, Id, Name, OrderRow, OrderState, QuotaRow, Text, id_of,
};

fn are_apart(secrets: &[KeptSecret], project: &Name, number: u32) -> bool
    ensures { result ≡ list_all (λ row. not (is_under project.now number row)) secrets.now }
{
    secrets
        .iter()
        .all(|secret| !secret.is_under(project, number))
}

pub(crate) fn is_consumer(row: &ConsumerRow, container: Id, name: &Text, url: &Text) -> bool
    ensures { result ≡ is_consumer container name.now url.now row.now }
{
    row.container.0 == container.0
        && name.as_str().as_bytes() == row.name.as_str().as_bytes()
        && url.as_str().as_bytes() == row.url.as_str().as_bytes()
}

fn may_replace_container(put: &ContainerPut, row: &ContainerRow) -> bool
    ensures { result ≡ may_replace_container put.now row.now }
{
    put.project.as_bytes() == row.project.as_bytes()
        && put.creator.as_bytes() == row.creator.as_bytes()
        && put.created == row.created
}

fn same_text(a: &Option<Text>, b: &Option<Text>) -> bool
    ensures { result ≡ same_text a.now b.now }
{
    match (a, b) {
        (None, None) => true,
        (Some(a), Some(b)) => a.as_str().as_bytes() == b.as_str().as_bytes(),
        _ => false,
    }
}

fn same_number(a: Option<u64>, b: Option<u64>) -> bool
    ensures { result ≡ same_number a b }
{
    match (a, b) {
        (None, None) => true,
        (Some(a), Some(b)) => a == b,
        _ => false,
    }
}

fn is_pending(state: OrderState) -> bool
    ensures { result ≡ is_pending state }
{
    match state {
        OrderState::Pending => true,
        OrderState::Active(_) => false,
        OrderState::Error(_) => false,
    }
}

fn may_replace_order(put: &OrderPut, row: &OrderRow) -> bool
    ensures { result ≡ may_replace_order put.now row.now }
{
    is_pending(row.state)
        && put.project.as_bytes() == row.project.as_bytes()
        && put.creator.as_bytes() == row.creator.as_bytes()
        && put.created == row.created
        && put.algorithm.as_str().as_bytes() == row.algorithm.as_str().as_bytes()
        && put.bit_length == row.bit_length
        && same_text(&put.mode, &row.mode)
        && same_text(&put.name, &row.name)
        && same_number(put.expiration, row.expiration)
}

fn names_id(id: Id, state: OrderState) -> bool
    ensures { result ≡ names_id id state }
{
    match state {
        OrderState::Pending => false,
        OrderState::Active(other) => other.0 == id.0,
        OrderState::Error(_) => false,
    }
}

// No order but this one names the id.
fn is_named_here(orders: &[OrderRow], id: Id, order: Id) -> bool
    ensures { result ≡ list_all (λ r. not (names_id id r.state) || is_id order r.id) orders.now }
{
    orders
        .iter()
        .all(|row| !names_id(id, row.state) || row.id.0 == order.0)
}

impl Rows {
    /// The id of this count under the store's tag.
    pub(crate) fn id(&self, count: u64) -> Id
        requires tag { self.now.tag < 2 ^ 60 }
        requires count { count < 2 ^ 62 }
        ensures { result ≡ id_at self.now.tag count }
    {
        id_of(self.tag, count)
    }

    // The id is above all these rows' ids, and no row of another kind has it.
    fn is_free<R: Row>(&self, own: &Table<R>, id: Id) -> bool
        requires ordered { AreOrdered self.now }
        requires rises { Rises (map R.id_of own.now.items) }
        ensures { result ≡ (list_all (λ i. nat_lt i.0 id.0) (map R.id_of own.now.items) && not (is_taken (kept_in self.now).state id)) }
    {
        are_below(own.as_slice(), id) && !self.is_taken(id)
    }

    fn is_new<R: Row>(&self, part: Part, own: &Table<R>, count: u64) -> bool
        requires ordered { AreOrdered self.now }
        requires rises { Rises (map R.id_of own.now.items) }
        requires count { count < 2 ^ 62 }
        ensures { result ≡ is_new (part_of part) (kept_in self.now).state (map R.id_of own.now.items) count }
    {
        match part {
            Part::Records => count == self.ids && count < 1 << 62,
            Part::Snapshot => count < self.ids && self.is_free(own, self.id(count)),
        }
    }

    fn may_put_container(&self, part: Part, put: &ContainerPut) -> bool
        requires ordered { AreOrdered self.now }
        requires range { put.now.id < 2 ^ 62 }
        ensures { result ≡ applies (part_of part) (Change.ContainerPut put.now) (kept_in self.now) }
    {
        self.is_new(part, &self.containers, put.id)
            || match self.container(self.id(put.id)) {
                Some(row) => may_replace_container(put, row),
                None => false,
            }
    }

    fn is_named_once(&self, order: u64, state: OrderPutState) -> bool
        requires tag { self.now.tag < 2 ^ 60 }
        requires order { order < 2 ^ 62 }
        requires state { IsStateInRange state }
        ensures { result ≡ is_named_once (kept_in self.now).state order state }
    {
        match state {
            OrderPutState::Pending => true,
            OrderPutState::Active(id) => {
                (id < self.ids || id == order)
                    && is_named_here(self.orders.as_slice(), self.id(id), self.id(order))
            }
            OrderPutState::Error(_) => true,
        }
    }

    // The order is new, or takes the place of another.
    fn has_place(&self, part: Part, put: &OrderPut) -> bool
        requires ordered { AreOrdered self.now }
        requires id { put.now.id < 2 ^ 62 }
        ensures { result ≡ (is_new (part_of part) (kept_in self.now).state (order_ids (kept_in self.now).state) put.now.id
            || has (order_of (id_at self.now.tag put.now.id) self.now.orders.items) (may_replace_order put.now)) }
    {
        self.is_new(part, &self.orders, put.id)
            || match self.order(self.id(put.id)) {
                Some(row) => may_replace_order(put, row),
                None => false,
            }
    }

    fn may_put_order(&self, part: Part, put: &OrderPut) -> bool
        requires ordered { AreOrdered self.now }
        requires range { IsOrderPutInRange put.now }
        ensures { result ≡ applies (part_of part) (Change.OrderPut put.now) (kept_in self.now) }
    {
        self.has_place(part, put) && self.is_named_once(put.id, put.state)
    }

    fn may_put_payload(&self, put: &PayloadPut) -> bool
        requires ordered { AreOrdered self.now }
        requires range { put.now.secret < 2 ^ 62 }
        ensures { result ≡ applies Records (Change.PayloadPut put.now) (kept_in self.now) }
    {
        match self.secret(self.id(put.secret)) {
            Some(secret) => {
                let row = secret.row();
                row.payload.is_none() && self.key(&row.project, put.number).is_some()
            }
            None => false,
        }
    }

    fn may_replace_token(&self, put: &TokenReplaced) -> bool
        requires ordered { AreOrdered self.now }
        requires range { put.now.secret < 2 ^ 62 }
        ensures { result ≡ applies Records (Change.TokenReplaced put.now) (kept_in self.now) }
    {
        match self.secret(self.id(put.secret)) {
            Some(secret) => {
                let row = secret.row();
                row.payload.is_some() && self.key(&row.project, put.number).is_some()
            }
            None => false,
        }
    }

    fn may_drop_key(&self, put: &KeyDropped) -> bool
        requires ordered { AreOrdered self.now }
        ensures { result ≡ applies Records (Change.KeyDropped put.now) (kept_in self.now) }
    {
        self.key(&put.project, put.number).is_some()
            && has_another(&self.keys, &put.project, put.number)
            && are_apart(self.secrets.as_slice(), &put.project, put.number)
    }

    fn may_add_consumer(&self, put: &ConsumerAdded) -> bool
        requires ordered { AreOrdered self.now }
        requires range { put.now.container < 2 ^ 62 }
        ensures { result ≡ applies Records (Change.ConsumerAdded put.now) (kept_in self.now) }
    {
        let id = self.id(put.container);
        self.container(id).is_some() && !self.consumers.has(id, &put.name, &put.url)
    }

    fn may_drop_consumer(&self, put: &ConsumerDropped) -> bool
        requires tag { self.now.tag < 2 ^ 60 }
        requires range { put.now.container < 2 ^ 62 }
        ensures { result ≡ applies Records (Change.ConsumerDropped put.now) (kept_in self.now) }
    {
        let id = self.id(put.container);
        self.consumers.has(id, &put.name, &put.url)
    }

    fn may_put_acl(&self, put: &AclPut) -> bool
        requires ordered { AreOrdered self.now }
        requires range { put.now.target < 2 ^ 62 }
        ensures { result ≡ applies Records (Change.AclPut put.now) (kept_in self.now) }
    {
        let id = self.id(put.target);
        self.secret(id).is_some() || self.container(id).is_some()
    }

    fn may_put_quota(&self, put: &QuotaPut) -> bool
        ensures { result ≡ applies Records (Change.QuotaPut put.now) (kept_in self.now) }
    {
        match put.limits {
            Some(_) => true,
            None => self.quotas.has(&put.project),
        }
    }

    /// The change applies.
    pub(crate) fn applies(&self, part: Part, change: &Change) -> bool
        requires ordered { AreOrdered self.now }
        requires range { IsChangeInRange change.now }
        ensures { result ≡ applies (part_of part) change.now (kept_in self.now) }
    {
        match change {
            Change::KeyAdded(key) => 0 < key.number && is_latest(&self.keys, key),
            Change::KeyRewrapped(key) => self.key(&key.project, key.number).is_some(),
            Change::TokenReplaced(put) => self.may_replace_token(put),
            Change::KeyDropped(put) => self.may_drop_key(put),
            Change::SecretPut(put) => self.is_new(part, &self.secrets, put.id),
            Change::PayloadPut(put) => self.may_put_payload(put),
            Change::MetadataPut(put) => self.secret(self.id(put.secret)).is_some(),
            Change::ContainerPut(put) => self.may_put_container(part, put),
            Change::ConsumerAdded(put) => self.may_add_consumer(put),
            Change::ConsumerDropped(put) => self.may_drop_consumer(put),
            Change::AclPut(put) => self.may_put_acl(put),
            Change::AclDropped(id) => self.acls.has(&self.id(*id)),
            Change::OrderPut(put) => self.may_put_order(part, put),
            Change::QuotaPut(put) => self.may_put_quota(put),
            Change::Deleted(id) => self.is_taken(self.id(*id)),
        }
    }
}
