// What a store stands for, as it is answered.
ghost use Rattle.std.specs.Prelude.{◌≡◌, ◌++◌, [], ◌∷◌, OnOk, OnErr};

use kms_host::{Bytes, NoMemory};
use std::alloc::Global;
use std::marker::Model;

/// A list of records, each with the place of the commit mark before it.
#[derive(Drop)]
pub struct Bodies {
    items: Vec<(u64, Bytes)>,
}

impl Model for Bodies {
    ghost use Rattle.std.specs.Prelude.{List, ℕ};

    ghost Value = { List (ℕ × List ℕ) };

    ghost view = { λ b. b.items.items };
}

impl Bodies {
    /// No records.
    pub fn new(alloc: Global) -> Bodies
        ensures { result ≡ [] }
    {
        Bodies {
            items: Vec::new(alloc),
        }
    }

    /// Adds a record at the end, with its place. Out of memory leaves the list as it was.
    pub fn push(&mut self, item: (u64, Bytes)) -> Result<(), NoMemory>
        ensures ok { OnOk result (self.new ≡ self.old ++ item ∷ []) }
        ensures err { OnErr result (self.new ≡ self.old) }
    {
        self.items.push(item)?;
        Ok(())
    }

    /// The records, in the order of their places.
    pub fn as_slice(&self) -> &[(u64, Bytes)]
        ensures { result.now ≡ self.now }
    {
        &self.items
    }
}

/// What a store stands for: the current file's header and snapshot, and its records up to the first commit mark that
/// isn't set.
#[derive(Drop)]
pub struct Chain {
    /// The current file, 0 or 1.
    pub file: u8,
    /// The tag of the store's ids, below 2^60.
    pub tag: u64,
    /// How many ids were given when the snapshot was taken, at most 2^62.
    pub ids: u64,
    /// How many steps the snapshot stands for.
    pub steps: u64,
    /// The snapshot.
    pub base: Bytes,
    /// The records after it.
    pub bodies: Bodies,
}
