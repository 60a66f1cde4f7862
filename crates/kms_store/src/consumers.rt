// Consumers of containers.
ghost use Rattle.std.specs.Prelude.{◌≡◌, ◌<◌, ◌≤◌, ◌+◌, ◌-◌, ◌^◌, ◌++◌, ◌∷◌, [], length, filter, OnOk};
ghost use Rattle.std.specs.List.{list_any};
ghost use Rattle.kms_world.specs.Effect.{drop_rows, is_consumer};
ghost use Rattle.kms_world.specs.Id.{is_id};
ghost use Rattle.kms_store.specs.Consumers.{count_on};

use crate::applies::is_consumer;
use crate::edits::{drop_consumer, drop_consumers};
use crate::table::push_reserved;
use crate::tally::{Entry, add, number_in, take};
use kms_world::{ConsumerRow, Id, NoMemory, Text};
use std::alloc::Global;
use std::marker::Model;

/// Consumers in order of creation, and how many each container has, so that nothing is looked for where there is none.
/// Contracts see the rows, and for how many more there is memory.
#[derive(Drop)]
pub(crate) struct Consumers {
    on: Vec<Entry<Id>>,
    rows: Vec<ConsumerRow>,
    spare: usize,
}

impl Model for Consumers {
    ghost use Rattle.kms_world.specs.declared.container.ConsumerRow.{ConsumerRow};
    ghost use Rattle.kms_store.specs.Consumers.{AreCountedOn};
    ghost use Rattle.kms_store.specs.Table.{Tabular};

    ghost Value = { Tabular ConsumerRow };

    ghost view = { λ t. record { items = t.rows.items; spare = t.spare } };

    ghost invariant = { λ t. AreCountedOn t.on t.rows t.spare };
}

fn has_consumer(rows: &[ConsumerRow], container: Id, name: &Text, url: &Text) -> bool
    ensures { result ≡ list_any (is_consumer container name.now url.now) rows.now }
{
    rows.iter()
        .any(|row| is_consumer(row, container, name, url))
}

fn consumers_like(consumers: &[ConsumerRow], container: Id, name: &Text, url: &Text) -> usize
    ensures { result ≡ length (filter (is_consumer container name.now url.now) consumers.now) }
{
    consumers
        .iter()
        .filter(|row| is_consumer(row, container, name, url))
        .count()
}

impl Consumers {
    /// No rows. It takes no memory.
    pub(crate) fn new(alloc: Global) -> Consumers
        ensures { result ≡ record { items = []; spare = 0 } }
    {
        Consumers {
            on: Vec::new(alloc),
            rows: Vec::new(alloc),
            spare: 0,
        }
    }

    /// The rows in order of creation.
    pub(crate) fn as_slice(&self) -> &[ConsumerRow]
        ensures { result.now ≡ self.now.items }
    {
        &self.rows
    }

    /// Memory for so many rows more. The rows are as before.
    pub(crate) fn reserve(&mut self, rows: usize) -> Result<(), NoMemory>
        ensures items { self.new.items ≡ self.old.items }
        ensures ok { OnOk result (rows ≤ self.new.spare) }
        ensures spare { self.old.spare ≤ self.new.spare }
    {
        if self.spare < rows {
            self.on.reserve(rows)?;
            self.rows.reserve(rows)?;
            self.spare = rows;
        }
        Ok(())
    }

    /// With memory for one row more there are fewer than can be counted.
    pub(crate) fn few(&self)
        requires { 0 < self.now.spare }
        ensures { length self.now.items < 2 ^ 64 - 1 }
    {
        prove!(self.rows.len() < self.rows.capacity());
    }

    /// How many consumers a container has. It walks no table.
    pub(crate) fn count_on(&self, container: Id) -> usize
        ensures { result ≡ count_on container self.now.items }
    {
        number_in(&self.on, &container)
    }

    /// A container has this consumer.
    pub(crate) fn has(&self, container: Id, name: &Text, url: &Text) -> bool
        ensures { result ≡ list_any (is_consumer container name.now url.now) self.now.items }
    {
        if self.count_on(container) == 0 {
            return false;
        }
        has_consumer(&self.rows, container, name, url)
    }

    /// How many rows there are of this consumer of a container.
    pub(crate) fn count_like(&self, container: Id, name: &Text, url: &Text) -> usize
        ensures { result ≡ length (filter (is_consumer container name.now url.now) self.now.items) }
    {
        if self.count_on(container) == 0 {
            return 0;
        }
        consumers_like(&self.rows, container, name, url)
    }

    /// Puts a row last. It takes no memory.
    pub(crate) fn push(&mut self, row: ConsumerRow)
        requires space { 0 < self.old.spare }
        ensures items { self.new.items ≡ self.old.items ++ row ∷ [] }
        ensures spare { self.new.spare + 1 ≡ self.old.spare }
    {
        self.few();
        self.spare -= 1;
        add(&mut self.on, &row.container, 1);
        push_reserved(&mut self.rows, row);
    }

    /// Drops a consumer of a container.
    pub(crate) fn drop_like(&mut self, container: Id, name: &Text, url: &Text)
        ensures items { self.new.items ≡ drop_rows (is_consumer container name.now url.now) self.old.items }
        ensures spare { self.new.spare ≡ self.old.spare }
    {
        let gone = self.count_like(container, name, url);
        if 0 < gone {
            take(&mut self.on, &container, gone);
            drop_consumer(&mut self.rows, container, name, url);
        }
    }

    /// Drops the consumers of a container. Where it has none, it walks no table.
    pub(crate) fn drop_on(&mut self, container: Id)
        ensures items { self.new.items ≡ drop_rows (λ r. is_id container r.container) self.old.items }
        ensures spare { self.new.spare ≡ self.old.spare }
    {
        let gone = self.count_on(container);
        if 0 < gone {
            take(&mut self.on, &container, gone);
            drop_consumers(&mut self.rows, container);
        }
    }
}
