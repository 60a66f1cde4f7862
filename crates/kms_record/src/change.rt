// Changes of what is kept, and the changes of a snapshot.
ghost use Rattle.std.specs.Prelude.{◌≡◌, ◌++◌, [], ◌∷◌, OnOk, OnErr};

use crate::window::Window;
use crate::{
    AclPut, ConsumerAdded, ConsumerDropped, ContainerPut, KeyDropped, MetadataPut, OrderPut,
    PayloadPut, QuotaPut, SecretPut, TokenReplaced, WrappedKey, range, spell,
};
use kms_world::NoMemory;
use std::alloc::Global;
use std::marker::Model;

/// One change of what is kept.
#[derive(Drop, Debug)]
pub enum Change {
    /// A project gets a key.
    KeyAdded(WrappedKey),
    /// A project's key is wrapped under another master key.
    KeyRewrapped(WrappedKey),
    /// A secret's token gets another in its place.
    TokenReplaced(TokenReplaced),
    /// A project's key goes.
    KeyDropped(KeyDropped),
    /// A secret comes, without payload and metadata.
    SecretPut(SecretPut),
    /// A secret gets its payload.
    PayloadPut(PayloadPut),
    /// A secret gets metadata.
    MetadataPut(MetadataPut),
    /// A container comes, or is replaced.
    ContainerPut(ContainerPut),
    /// A container gets a consumer.
    ConsumerAdded(ConsumerAdded),
    /// A consumer goes.
    ConsumerDropped(ConsumerDropped),
    /// A secret or container gets an access list.
    AclPut(AclPut),
    /// The access list of the secret or container whose id has this count goes.
    AclDropped(u64),
    /// An order comes, or is replaced.
    OrderPut(OrderPut),
    /// A project's quotas are set, or go.
    QuotaPut(QuotaPut),
    /// The secret, container or order whose id has this count goes, with all that hangs on it.
    Deleted(u64),
}

impl Change {
    ghost use Rattle.std.specs.Prelude.{◌≡◌, ◌↔◌, IsTrue};
    ghost use Rattle.kms_record.specs.Grammar.{change_bytes, IsChange, IsChangeInRange};
    ghost use Rattle.kms_record.specs.Window.{shown};

    /// Its numbers and lengths are in their ranges.
    pub fn is_in_range(&self) -> bool
        ensures { IsTrue result ↔ IsChangeInRange self.now }
    {
        match self {
            Change::KeyAdded(put) => put.is_in_range(),
            Change::KeyRewrapped(put) => put.is_in_range(),
            Change::TokenReplaced(put) => put.is_in_range(),
            Change::KeyDropped(put) => put.is_in_range(),
            Change::SecretPut(put) => put.is_in_range(),
            Change::PayloadPut(put) => put.is_in_range(),
            Change::MetadataPut(put) => put.is_in_range(),
            Change::ContainerPut(put) => put.is_in_range(),
            Change::ConsumerAdded(put) => put.is_in_range(),
            Change::ConsumerDropped(put) => put.is_in_range(),
            Change::AclPut(put) => put.is_in_range(),
            Change::AclDropped(id) => range::is_id(*id),
            Change::OrderPut(put) => put.is_in_range(),
            Change::QuotaPut(put) => put.is_in_range(),
            Change::Deleted(id) => range::is_id(*id),
        }
    }

    /// Writes the byte of its kind, and its fields.
    #[tactic(auto, using(crate::proofs::WindowLaws::shown_twice), unfolding(crate::specs::Fields::u8_bytes))]
    pub(crate) fn write(&self, out: &mut Window)
        requires { IsChangeInRange self.now }
        ensures spelled { out.new ≡ shown out.old (change_bytes self.now) }
        ensures admitted { IsChange self.now }
    {
        match self {
            Change::KeyAdded(put) => {
                spell::byte(out, 1);
                put.write(out);
            }
            Change::KeyRewrapped(put) => {
                spell::byte(out, 2);
                put.write(out);
            }
            Change::TokenReplaced(put) => {
                spell::byte(out, 3);
                put.write(out);
            }
            Change::KeyDropped(put) => {
                spell::byte(out, 4);
                put.write(out);
            }
            Change::SecretPut(put) => {
                spell::byte(out, 5);
                put.write(out);
            }
            Change::PayloadPut(put) => {
                spell::byte(out, 6);
                put.write(out);
            }
            Change::MetadataPut(put) => {
                spell::byte(out, 7);
                put.write(out);
            }
            Change::ContainerPut(put) => {
                spell::byte(out, 8);
                put.write(out);
            }
            Change::ConsumerAdded(put) => {
                spell::byte(out, 9);
                put.write(out);
            }
            Change::ConsumerDropped(put) => {
                spell::byte(out, 10);
                put.write(out);
            }
            Change::AclPut(put) => {
                spell::byte(out, 11);
                put.write(out);
            }
            Change::AclDropped(id) => {
                spell::byte(out, 12);
                spell::number(out, *id);
            }
            Change::OrderPut(put) => {
                spell::byte(out, 13);
                put.write(out);
            }
            Change::QuotaPut(put) => {
                spell::byte(out, 14);
                put.write(out);
            }
            Change::Deleted(id) => {
                spell::byte(out, 15);
                spell::number(out, *id);
            }
        }
    }
}

/// The changes of a snapshot, in the order in which they apply. Contracts see the list.
#[derive(Drop, Debug)]
pub struct Changes {
    changes: Vec<Change>,
}

impl Model for Changes {
    ghost use Rattle.std.specs.Prelude.{List};
    ghost use Rattle.kms_record.specs.declared.change.Change.{Change};

    ghost Value = { List Change };

    ghost view = { λ c. c.changes.items };
}

impl Changes {
    /// No changes; takes no memory.
    pub fn new(alloc: Global) -> Changes
        ensures { result ≡ [] }
    {
        Changes {
            changes: Vec::new(alloc),
        }
    }

    /// Puts a change after the others. After `NoMemory` they are as before.
    pub fn push(&mut self, change: Change) -> Result<(), NoMemory>
        ensures ok { OnOk result (self.new ≡ self.old ++ change ∷ []) }
        ensures err { OnErr result (self.new ≡ self.old) }
    {
        self.changes.push(change)?;
        Ok(())
    }

    /// The changes in their order.
    pub fn as_slice(&self) -> &[Change]
        ensures { result.now ≡ self.now }
    {
        &self.changes
    }
    /// The changes, with the memory that they have.
    pub fn into_vec(self) -> Vec<Change>
        ensures { result.items ≡ self }
    {
        self.changes
    }
}
