// Tables with at most one row a key.
ghost use Rattle.std.specs.Prelude.{◌≡◌, ◌<◌, ◌≤◌, ◌+◌, ◌-◌, ◌++◌, ◌∷◌, [], find, set, OnOk, option_copied};
ghost use Rattle.std.specs.List.{list_any};
ghost use Rattle.kms_world.specs.Effect.{put_row, drop_rows};
ghost use Rattle.kms_store.specs.Keyed.{nth, StandApart};

use crate::index_key::IndexKey;
use crate::places::drop_place;
use crate::table::push_reserved;
use crate::tally::{Entry, add, number_in};
use kms_world::{AclRow, Id, Name, NoMemory, QuotaRow};
use std::alloc::Global;
use std::marker::Model;

/// A row with a key.
pub(crate) trait Keyed {
    type Key: IndexKey + Copy;

    /// its key
    ghost key_of: { Self → Self.Key };

    fn key(&self) -> Self::Key
        ensures { result ≡ key_of self.now };
}

impl Keyed for AclRow {
    type Key = Id;

    ghost key_of = { λ r. r.target };

    fn key(&self) -> Id {
        self.target
    }
}

impl Keyed for QuotaRow {
    type Key = Name;

    ghost key_of = { λ r. r.project };

    fn key(&self) -> Name {
        self.project
    }
}

/// Rows with keys, at most one a key, in order of creation, and an index by key, which says where each key's row stands.
/// Contracts see the rows, and for how many more there is memory.
#[derive(Drop)]
pub(crate) struct KeyedTable<R: Keyed> {
    places: Vec<Entry<R::Key>>,
    rows: Vec<R>,
    spare: usize,
}

impl<R: Keyed> Model for KeyedTable<R> {
    ghost use Rattle.kms_store.specs.Keyed.{IsPlaced};
    ghost use Rattle.kms_store.specs.Table.{Tabular};

    ghost Value = { Tabular R };

    ghost view = { λ t. record { items = t.rows.items; spare = t.spare } };

    ghost invariant = { λ t. IsPlaced R.Key.is R.Key.below R.key_of t.places t.rows t.spare };
}

impl<R: Keyed> KeyedTable<R> {
    /// No rows. It takes no memory.
    pub(crate) fn new(alloc: Global) -> KeyedTable<R>
        ensures { result ≡ record { items = []; spare = 0 } }
    {
        KeyedTable {
            places: Vec::new(alloc),
            rows: Vec::new(alloc),
            spare: 0,
        }
    }

    /// The rows in order of creation.
    pub(crate) fn as_slice(&self) -> &[R]
        ensures { result.now ≡ self.now.items }
    {
        &self.rows
    }

    /// Memory for so many rows more. The rows are as before.
    pub(crate) fn reserve(&mut self, rows: usize) -> Result<(), NoMemory>
        ensures items { self.new.items ≡ self.old.items }
        ensures ok { OnOk result (rows ≤ self.new.spare) }
        ensures spare { self.old.spare ≤ self.new.spare }
    {
        if self.spare < rows {
            self.places.reserve(rows)?;
            self.rows.reserve(rows)?;
            self.spare = rows;
        }
        Ok(())
    }

    // The number of the row with this key, counted from 1, or 0 where there is none; by halves.
    fn number_of(&self, key: &R::Key) -> usize
        ensures { result ≡ nth (λ r. R.Key.is key.now (R.key_of r)) self.now.items }
    {
        number_in(&self.places, key)
    }

    /// The row with this key.
    pub(crate) fn found(&self, key: &R::Key) -> Option<&R>
        ensures { option_copied result ≡ find (λ r. R.Key.is key.now (R.key_of r)) self.now.items }
    {
        let number = self.number_of(key);
        if number == 0 {
            None
        } else {
            Some(&self.rows[number - 1])
        }
    }

    /// A row has this key.
    pub(crate) fn has(&self, key: &R::Key) -> bool
        ensures { result ≡ list_any (λ r. R.Key.is key.now (R.key_of r)) self.now.items }
    {
        0 < self.number_of(key)
    }
}

impl<R: Keyed + Drop> KeyedTable<R> {
    // Puts a row last whose key no other has. It takes no memory.
    fn push(&mut self, row: R)
        requires new { nth (λ r. R.Key.is (R.key_of row) (R.key_of r)) self.old.items ≡ 0 }
        requires space { 0 < self.old.spare }
        ensures items { self.new.items ≡ self.old.items ++ row ∷ [] }
        ensures spare { self.new.spare + 1 ≡ self.old.spare }
    {
        let number = self.rows.len() + 1;
        self.spare -= 1;
        add(&mut self.places, &row.key(), number);
        push_reserved(&mut self.rows, row);
    }

    // Puts a row in the place of the one with its key.
    fn set(&mut self, number: usize, row: R)
        requires there { 0 < number }
        requires number { nth (λ r. R.Key.is (R.key_of row) (R.key_of r)) self.old.items ≡ number }
        ensures items { self.new.items ≡ set self.old.items (number - 1) row }
        ensures spare { self.new.spare ≡ self.old.spare }
    {
        self.rows[number - 1] = row;
    }

    /// Puts a row in the place of the one with its key, or else last. It takes no memory.
    pub(crate) fn put(&mut self, row: R)
        requires { 0 < self.old.spare }
        ensures items { self.new.items ≡ put_row (λ r. R.Key.is (R.key_of row) (R.key_of r)) row self.old.items }
        ensures spare { self.old.spare ≤ self.new.spare + 1 }
    {
        let number = self.number_of(&row.key());
        if number == 0 {
            self.push(row);
        } else {
            self.set(number, row);
        }
    }

    /// Drops the row with this key.
    pub(crate) fn drop_key(&mut self, key: &R::Key)
        requires apart { StandApart R.Key.is R.key_of self.old.items }
        ensures items { self.new.items ≡ drop_rows (λ r. R.Key.is key.now (R.key_of r)) self.old.items }
        ensures spare { self.new.spare ≡ self.old.spare }
    {
        let number = self.number_of(key);
        if 0 < number {
            drop_place(&mut self.places, key, number);
            self.rows.remove(number - 1);
        }
    }
}
