// Tables whose rows have ids that rise, and rows that are put into a list.
ghost use Rattle.std.specs.Prelude.{◌≡◌, ◌<◌, ◌≤◌, ◌+◌, ◌-◌, ◌^◌, ◌++◌, ◌∷◌, [], map, find, set, IfSome, Some, OnOk, option_copied, vec_len, vec_capacity, length, nat_lt, nat_le};
ghost use Rattle.std.specs.List.{position, list_all};
ghost use Rattle.kms_world.specs.Effect.{put_row, drop_rows};
ghost use Rattle.kms_world.specs.Id.{is_id};
ghost use Rattle.kms_store.specs.Table.{Rises};

use crate::row::Row;
use kms_world::{Id, NoMemory};
use std::alloc::Global;
use std::marker::Model;

/// Rows with ids, in order of creation. The ids stand beside them once more, close together, so that a look-up by halves
/// reads few lines of memory. Contracts see the rows, and for how many more there is memory.
#[derive(Drop)]
pub(crate) struct Table<R: Row> {
    pub(crate) ids: Vec<Id>,
    pub(crate) rows: Vec<R>,
    pub(crate) spare: usize,
}

impl<R: Row> Model for Table<R> {
    ghost use Rattle.kms_store.specs.Table.{Tabular, IsIndexed};

    ghost Value = { Tabular R };

    ghost view = { λ t. record { items = t.rows.items; spare = t.spare } };

    ghost invariant = { λ t. IsIndexed R.id_of t.ids t.rows t.spare };
}

// The place of an id, by halves.
fn place_of(ids: &[Id], id: Id) -> Option<usize>
    requires { Rises ids.now }
    ensures { result ≡ position (is_id id) ids.now }
{
    let at = ids.partition_point(
        |other: &Id| -> bool
            ensures { result ≡ nat_lt other.now.0 id.0 }
        { other.0 < id.0 },
    );
    if at < ids.len() && ids[at].0 == id.0 {
        Some(at)
    } else {
        None
    }
}

impl<R: Row> Table<R> {
    /// No rows. It takes no memory.
    pub(crate) fn new(alloc: Global) -> Table<R>
        ensures { result ≡ record { items = []; spare = 0 } }
    {
        Table {
            ids: Vec::new(alloc),
            rows: Vec::new(alloc),
            spare: 0,
        }
    }

    /// The rows in order of creation.
    pub(crate) fn as_slice(&self) -> &[R]
        ensures { result.now ≡ self.now.items }
    {
        &self.rows
    }

    /// Memory for so many rows more. The rows are as before.
    pub(crate) fn reserve(&mut self, rows: usize) -> Result<(), NoMemory>
        ensures items { self.new.items ≡ self.old.items }
        ensures ok { OnOk result (rows ≤ self.new.spare) }
        ensures spare { self.old.spare ≤ self.new.spare }
    {
        if self.spare < rows {
            self.ids.reserve(rows)?;
            self.rows.reserve(rows)?;
            self.spare = rows;
        }
        Ok(())
    }

    /// A table with memory for one row more doesn't have all rows that can be counted.
    pub(crate) fn few(&self)
        requires { 0 < self.now.spare }
        ensures { length self.now.items < 2 ^ 64 - 1 }
    {
        prove!(self.rows.len() < self.rows.capacity());
    }

    /// The place of the row with this id, by halves.
    pub(crate) fn find_at(&self, id: Id) -> Option<usize>
        requires { Rises (map R.id_of self.now.items) }
        ensures { result ≡ position (λ r. is_id id (R.id_of r)) self.now.items }
    {
        place_of(&self.ids, id)
    }

    /// The row with this id.
    pub(crate) fn found(&self, id: Id) -> Option<&R>
        requires { Rises (map R.id_of self.now.items) }
        ensures { option_copied result ≡ find (λ r. is_id id (R.id_of r)) self.now.items }
    {
        match self.find_at(id) {
            Some(at) => Some(&self.rows[at]),
            None => None,
        }
    }
}

impl<R: Row + Drop> Table<R> {
    /// Puts a row last. It takes no memory.
    pub(crate) fn push(&mut self, row: R)
        requires space { 0 < self.old.spare }
        ensures items { self.new.items ≡ self.old.items ++ row ∷ [] }
        ensures spare { self.new.spare + 1 ≡ self.old.spare }
    {
        self.spare -= 1;
        push_reserved(&mut self.ids, row.id());
        push_reserved(&mut self.rows, row);
    }

    // Puts a row in the place of the one with its id.
    fn set(&mut self, at: usize, row: R)
        requires place { position (λ r. is_id (R.id_of row) (R.id_of r)) self.old.items ≡ Some at }
        ensures items { self.new.items ≡ set self.old.items at row }
        ensures spare { self.new.spare ≡ self.old.spare }
    {
        self.rows[at] = row;
    }

    /// Puts a row in the place of the one with its id, or else last. It takes no memory.
    pub(crate) fn put(&mut self, row: R)
        requires rises { Rises (map R.id_of self.old.items) }
        requires space { 0 < self.old.spare }
        ensures items { self.new.items ≡ put_row (λ r. is_id (R.id_of row) (R.id_of r)) row self.old.items }
        ensures spare { self.old.spare ≤ self.new.spare + 1 }
    {
        match self.find_at(row.id()) {
            Some(at) => self.set(at, row),
            None => self.push(row),
        }
    }

    /// Drops the row with this id.
    pub(crate) fn drop_id(&mut self, id: Id)
        requires rises { Rises (map R.id_of self.old.items) }
        ensures items { self.new.items ≡ drop_rows (λ r. is_id id (R.id_of r)) self.old.items }
        ensures spare { self.new.spare ≡ self.old.spare }
    {
        if let Some(at) = self.find_at(id) {
            self.ids.remove(at);
            self.rows.remove(at);
        }
    }
}

/// All ids are below this one.
pub(crate) fn are_below<R: Row>(rows: &[R], id: Id) -> bool
    requires { Rises (map R.id_of rows.now) }
    ensures { result ≡ list_all (λ i. nat_lt i.0 id.0) (map R.id_of rows.now) }
{
    match rows.last() {
        Some(row) => row.id().0 < id.0,
        None => true,
    }
}

/// Puts a row last. It takes no memory.
pub(crate) fn push_reserved<R: Drop>(rows: &mut Vec<R>, row: R)
    requires space { vec_len rows.old < vec_capacity rows.old }
    ensures items { rows.new.items ≡ rows.old.items ++ row ∷ [] }
    ensures len { vec_len rows.new ≤ vec_len rows.old + 1 }
    ensures capacity { vec_capacity rows.old ≤ vec_capacity rows.new }
{
    let pushed = rows.push(row);
    prove!(pushed.is_ok());
}
