// Project keys in memory.
ghost use Rattle.std.specs.Prelude.{◌≡◌, ◌<◌, ◌≤◌, ◌+◌, length, vec_len, vec_capacity, IfOk, IfErr, OnOk};
ghost use Rattle.std.specs.List.{AllByRecursion, insert};
ghost use Rattle.kms_aes.specs.Cipher.{IsBytes};
ghost use Rattle.kms_kept.specs.Kept.{insert_key};
ghost use Rattle.kms_kept.specs.Sound.{IsSound};
ghost use Rattle.kms_ring.specs.KeyFile.{AreKeys};
ghost use Rattle.kms_ring.specs.Ring.{IsUnwrapped};
ghost use Rattle.kms_sealing.specs.Opening.{IsOpen, IsRefusal};
ghost use Rattle.kms_sealing.specs.ProjectKeys.{AreOf};
ghost use Rattle.kms_sealing.specs.Sealed.{wrapped_row};

use crate::opening::unwrapped;
use crate::places::place_for;
use crate::{NewKey, OpeningFault};
use kms_fernet::FernetKey;
use kms_ring::Ring;
use kms_store::Tables;
use kms_world::{Id, NoMemory};
use std::alloc::Global;
use std::marker::Model;

/// Master keys, and the project keys that they open: each at the place that its wrapped key has in the tables of a store,
/// by project and number. Contracts see both, and for how many project keys more there is memory.
#[derive(Drop)]
pub struct ProjectKeys {
    pub(crate) ring: Ring,
    pub(crate) keys: Vec<FernetKey>,
}

impl Model for ProjectKeys {
    ghost use Rattle.kms_sealing.specs.ProjectKeys.{Unwrapped};

    ghost Value = { Unwrapped };

    ghost use Rattle.kms_sealing.specs.ProjectKeysFields.{unwrapped, HasMasters};

    ghost view = { unwrapped };

    ghost invariant = { HasMasters };
}

/// What tables keep is sound: each look-up says so.
pub(crate) fn look_up(tables: &Tables)
    ensures { IsSound tables.now.kept }
{
    let _ = tables.secret(Id(0));
}

/// Master keys are 1 to 16 keys, as their count says.
fn count(ring: &Ring)
    ensures { AreKeys ring.now }
{
    let _ = ring.count();
}

// Puts a key at a place. It takes no memory.
fn insert_reserved(keys: &mut Vec<FernetKey>, at: usize, key: FernetKey)
    requires place { at ≤ length keys.old.items }
    requires space { vec_len keys.old < vec_capacity keys.old }
    ensures items { keys.new.items ≡ insert keys.old.items at key }
    ensures len { vec_len keys.new ≡ vec_len keys.old + 1 }
    ensures capacity { vec_capacity keys.old ≤ vec_capacity keys.new }
{
    let inserted = keys.insert(at, key);
    prove!(inserted.is_ok());
}

impl ProjectKeys {
    /// Opens all that tables keep: unwraps each project key, by project and number, and then opens the payload of each secret,
    /// in order of creation. The first that doesn't open is named. A project key is what the first master key gives that
    /// opens it.
    pub fn open(alloc: Global, ring: Ring, tables: &Tables) -> Result<ProjectKeys, OpeningFault>
        ensures masters { IfOk result (λ keys. keys.masters ≡ ring) }
        ensures keys { IfOk result (λ keys. AreOf keys tables.now.kept.keys) }
        ensures open { IfOk result (λ keys. IsOpen ring tables.now.kept) }
        ensures err { IfErr result (IsRefusal ring tables.now.kept) }
    {
        count(&ring);
        let keys = match unwrapped(alloc, &ring, tables.keys()) {
            Ok(keys) => keys,
            Err(fault) => return Err(fault),
        };
        let keys = ProjectKeys { ring, keys };
        match keys.open_each(alloc, tables) {
            Ok(()) => Ok(keys),
            Err(fault) => Err(fault),
        }
    }

    /// The project keys, in the order of their wrapped keys.
    pub(crate) fn as_slice(&self) -> &[FernetKey]
        ensures { result.now ≡ self.now.keys }
    {
        &self.keys
    }

    /// The master keys are bytes.
    pub(crate) fn fit(&self)
        ensures { AllByRecursion (IsBytes 32) self.now.masters }
    {
        let _ = self.ring.count();
    }

    /// Takes memory for so many keys more. The keys stay as they are.
    pub fn reserve(&mut self, keys: usize) -> Result<(), NoMemory>
        ensures masters { self.new.masters ≡ self.old.masters }
        ensures keys { self.new.keys ≡ self.old.keys }
        ensures ok { OnOk result (keys ≤ self.new.spare) }
    {
        self.keys.reserve(keys)?;
        Ok(())
    }

    /// Puts the new key of a project among the others, before it is put into these tables. It takes no memory.
    pub fn add(&mut self, tables: &Tables, new: &NewKey)
        requires keys { AreOf self.old tables.now.kept.keys }
        requires spare { 0 < self.old.spare }
        requires opens { IsUnwrapped self.old.masters new.now.wrapped new.now.key }
        ensures masters { self.new.masters ≡ self.old.masters }
        ensures keys { AreOf self.new (insert_key (wrapped_row new.now) tables.now.kept.keys) }
    {
        look_up(tables);
        let at = place_for(tables.keys(), new);
        insert_reserved(&mut self.keys, at, new.key);
    }
}
