// How many rows of each kind a project has, kept as they change.
ghost use Rattle.std.specs.Prelude.{◌≡◌, ◌<◌, ◌≤◌, ◌+◌, ◌-◌, ◌^◌, ◌++◌, ◌∷◌, [], ℕ, List, false, map, filter, length, if◌then◌else◌, Some, OnOk, vec_len, vec_capacity};
ghost use Rattle.std.specs.Str.{bytes_eq};
ghost use Rattle.kms_world.specs.Effect.{after_effect, put_row, drop_rows, is_consumer};
ghost use Rattle.kms_world.specs.Effect as effects;
ghost use Rattle.kms_world.specs.Id.{is_id};
ghost use Rattle.kms_world.specs.LookUp.{container_of};
ghost use Rattle.kms_world.specs.State.{State};
ghost use Rattle.kms_world.specs.declared.quota.QuotaKind.TheVariants.{Consumers};
ghost use Rattle.kms_world.specs.declared.container.ContainerRow.{ContainerRow};
ghost use Rattle.kms_record.specs.Grammar.{IsChange, IsChangeInRange};
ghost use Rattle.kms_kept.specs.Kept.{changed, has, kept_first};
ghost use Rattle.kms_kept.specs.Joined.{IsJoined};
ghost use Rattle.kms_kept.specs.Sound.{IsSound};
ghost use Rattle.kms_store.specs.Part.{IsFit};
ghost use Rattle.kms_store.specs.Tally.{rows_in, ProjectsAscend};
ghost use Rattle.kms_store.specs.Counts.{count_of, rows_of, Tallies, AreCounted, HasEntries, LeavesEntries};
ghost use Rattle.kms_store.specs.Prepared.{change_of, IsRowOf};
ghost use Rattle.kms_store.specs.Ready.{puts_container};
ghost use Rattle.kms_store.specs.Rows.{kept_in, AreOrdered, HasSpace};
ghost use Rattle.kms_store.specs.Table.{Rises};

use crate::ready::Prepared;
use crate::row::Row;
use crate::rows::Rows;
use crate::table::Table;
use crate::tally::{ProjectRows, add, number_in, take};
use kms_record::{Change, ConsumerAdded, ConsumerDropped, OrderPut, SecretPut};
use kms_world::{ContainerRow, Id, Name, NoMemory, QuotaKind};
use std::alloc::Global;

/// The rows of each project, of each kind.
#[derive(Drop)]
pub(crate) struct Counts {
    secrets: Vec<ProjectRows>,
    containers: Vec<ProjectRows>,
    orders: Vec<ProjectRows>,
    /// of a container's project
    consumers: Vec<ProjectRows>,
}

// A row of this project is put last.
fn count_new<R: Row>(entries: &mut Vec<ProjectRows>, rows: &Table<R>, project: &Name)
    requires tally { Tallies (λ p. rows_of R.project_of p rows.now.items) entries.old.items }
    requires space { vec_len entries.old < vec_capacity entries.old }
    requires few { 0 < rows.now.spare }
    ensures tally { (row : R) → R.project_of row ≡ project.now → Tallies (λ p. rows_of R.project_of p (rows.now.items ++ row ∷ [])) entries.new.items }
    ensures len { vec_len entries.new ≤ vec_len entries.old + 1 }
    ensures capacity { vec_capacity entries.old ≤ vec_capacity entries.new }
{
    rows.few();
    add(entries, project, 1);
}

// The row with this id goes.
fn count_drop<R: Row>(entries: &mut Vec<ProjectRows>, rows: &Table<R>, id: Id)
    requires rises { Rises (map R.id_of rows.now.items) }
    requires tally { Tallies (λ p. rows_of R.project_of p rows.now.items) entries.old.items }
    ensures tally { Tallies (λ p. rows_of R.project_of p (drop_rows (λ r. is_id id (R.id_of r)) rows.now.items)) entries.new.items }
    ensures len { vec_len entries.new ≤ vec_len entries.old }
    ensures capacity { vec_capacity entries.old ≤ vec_capacity entries.new }
{
    if let Some(old) = rows.found(id) {
        take(entries, &old.project(), 1);
    }
}

// A row of this id and project is put in the place of the one with its id, or else last.
fn count_put<R: Row>(entries: &mut Vec<ProjectRows>, rows: &Table<R>, id: Id, project: &Name)
    requires rises { Rises (map R.id_of rows.now.items) }
    requires tally { Tallies (λ p. rows_of R.project_of p rows.now.items) entries.old.items }
    requires space { vec_len entries.old < vec_capacity entries.old }
    requires few { 0 < rows.now.spare }
    ensures tally { (row : R) → R.id_of row ≡ id → R.project_of row ≡ project.now → Tallies (λ p. rows_of R.project_of p (put_row (λ r. is_id (R.id_of row) (R.id_of r)) row rows.now.items)) entries.new.items }
    ensures len { vec_len entries.new ≤ vec_len entries.old + 1 }
    ensures capacity { vec_capacity entries.old ≤ vec_capacity entries.new }
{
    rows.few();
    count_drop(entries, rows, id);
    add(entries, project, 1);
}

// So many consumers of a container go.
fn take_consumers(entries: &mut Vec<ProjectRows>, rows: &Rows, container: Id, gone: usize)
    requires ordered { AreOrdered rows.now }
    requires tally { Tallies (λ p. count_of Consumers p (kept_in rows.now).state) entries.old.items }
    requires gone { gone ≤ length (filter (λ r. is_id container r.container) rows.now.consumers.items) }
    ensures ascend { ProjectsAscend entries.new.items }
    ensures rows { (p : List ℕ) → rows_in p entries.new.items + (if has (container_of container rows.now.containers.items) (λ (c : ContainerRow). bytes_eq p c.project) then gone else 0) ≡ rows_in p entries.old.items }
    ensures len { vec_len entries.new ≤ vec_len entries.old }
    ensures capacity { vec_capacity entries.old ≤ vec_capacity entries.new }
{
    if let Some(row) = rows.container(container) {
        take(entries, &row.project, gone);
    }
}

impl Counts {
    /// No rows.
    pub(crate) fn first(alloc: Global) -> Counts
        ensures counted { (tag ids : ℕ) → AreCounted result (kept_first tag ids).state }
        ensures space { HasEntries 0 result }
    {
        Counts {
            secrets: Vec::new(alloc),
            containers: Vec::new(alloc),
            orders: Vec::new(alloc),
            consumers: Vec::new(alloc),
        }
    }

    /// Memory for the entries of so many projects more. The counts are as before.
    pub(crate) fn reserve(&mut self, projects: usize) -> Result<(), NoMemory>
        ensures counted { (s : State) → AreCounted self.old s → AreCounted self.new s }
        ensures ok { OnOk result (HasEntries projects self.new) }
        ensures space { (n : ℕ) → HasEntries n self.old → HasEntries n self.new }
    {
        self.secrets.reserve(projects)?;
        self.containers.reserve(projects)?;
        self.orders.reserve(projects)?;
        self.consumers.reserve(projects)?;
        Ok(())
    }

    fn put_secret(&mut self, rows: &Rows, put: &SecretPut)
        requires counted { AreCounted self.old (kept_in rows.now).state }
        requires entries { HasEntries 1 self.old }
        requires space { HasSpace 1 rows.now }
        ensures counted { AreCounted self.new (changed (Change.SecretPut put.now) (kept_in rows.now)).state }
        ensures entries { LeavesEntries self.old self.new }
    {
        count_new(&mut self.secrets, &rows.secrets, &put.project);
    }

    fn put_container(&mut self, rows: &Rows, row: &ContainerRow)
        requires ordered { AreOrdered rows.now }
        requires joined { IsJoined (kept_in rows.now).state }
        requires alike { (old : ContainerRow) → container_of row.now.id rows.now.containers.items ≡ Some old → row.now.project ≡ old.project }
        requires counted { AreCounted self.old (kept_in rows.now).state }
        requires entries { HasEntries 1 self.old }
        requires space { HasSpace 1 rows.now }
        ensures counted { AreCounted self.new (after_effect (effects.ContainerPut row.now) (kept_in rows.now).state) }
        ensures entries { LeavesEntries self.old self.new }
    {
        count_put(&mut self.containers, &rows.containers, row.id, &row.project);
    }

    fn put_order(&mut self, rows: &Rows, put: &OrderPut)
        requires ordered { AreOrdered rows.now }
        requires counted { AreCounted self.old (kept_in rows.now).state }
        requires entries { HasEntries 1 self.old }
        requires space { HasSpace 1 rows.now }
        requires range { put.now.id < 2 ^ 62 }
        ensures counted { AreCounted self.new (changed (Change.OrderPut put.now) (kept_in rows.now)).state }
        ensures entries { LeavesEntries self.old self.new }
    {
        count_put(
            &mut self.orders,
            &rows.orders,
            rows.id(put.id),
            &put.project,
        );
    }

    fn delete(&mut self, rows: &Rows, count: u64)
        requires ordered { AreOrdered rows.now }
        requires counted { AreCounted self.old (kept_in rows.now).state }
        requires range { count < 2 ^ 62 }
        ensures counted { AreCounted self.new (changed (Change.Deleted count) (kept_in rows.now)).state }
        ensures entries { LeavesEntries self.old self.new }
    {
        let id = rows.id(count);
        let gone = rows.consumers.count_on(id);
        take_consumers(&mut self.consumers, rows, id, gone);
        count_drop(&mut self.secrets, &rows.secrets, id);
        count_drop(&mut self.containers, &rows.containers, id);
        count_drop(&mut self.orders, &rows.orders, id);
    }

    fn add_consumer(&mut self, rows: &Rows, put: &ConsumerAdded)
        requires ordered { AreOrdered rows.now }
        requires counted { AreCounted self.old (kept_in rows.now).state }
        requires entries { HasEntries 1 self.old }
        requires space { HasSpace 1 rows.now }
        requires range { put.now.container < 2 ^ 62 }
        ensures counted { AreCounted self.new (changed (Change.ConsumerAdded put.now) (kept_in rows.now)).state }
        ensures entries { LeavesEntries self.old self.new }
    {
        rows.consumers.few();
        if let Some(row) = rows.container(rows.id(put.container)) {
            add(&mut self.consumers, &row.project, 1);
        }
    }

    fn drop_consumer(&mut self, rows: &Rows, put: &ConsumerDropped)
        requires ordered { AreOrdered rows.now }
        requires counted { AreCounted self.old (kept_in rows.now).state }
        requires range { put.now.container < 2 ^ 62 }
        ensures counted { AreCounted self.new (changed (Change.ConsumerDropped put.now) (kept_in rows.now)).state }
        ensures entries { LeavesEntries self.old self.new }
    {
        let id = rows.id(put.container);
        let gone = rows.consumers.count_like(id, &put.name, &put.url);
        take_consumers(&mut self.consumers, rows, id, gone);
    }

    // Counts a change, but for one that puts a container.
    fn count(&mut self, rows: &Rows, change: &Change)
        requires ordered { AreOrdered rows.now }
        requires counted { AreCounted self.old (kept_in rows.now).state }
        requires entries { HasEntries 1 self.old }
        requires space { HasSpace 1 rows.now }
        requires range { IsChangeInRange change.now }
        requires other { puts_container change.now ≡ false }
        ensures counted { AreCounted self.new (changed change.now (kept_in rows.now)).state }
        ensures entries { LeavesEntries self.old self.new }
    {
        match change {
            Change::SecretPut(put) => self.put_secret(rows, put),
            Change::OrderPut(put) => self.put_order(rows, put),
            Change::Deleted(count) => self.delete(rows, *count),
            Change::KeyAdded(_) => {}
            Change::KeyRewrapped(_) => {}
            Change::TokenReplaced(_) => {}
            Change::KeyDropped(_) => {}
            Change::PayloadPut(_) => {}
            Change::MetadataPut(_) => {}
            Change::ContainerPut(_) => {}
            Change::ConsumerAdded(put) => self.add_consumer(rows, put),
            Change::ConsumerDropped(put) => self.drop_consumer(rows, put),
            Change::AclPut(_) => {}
            Change::AclDropped(_) => {}
            Change::QuotaPut(_) => {}
        }
    }

    /// Counts a change that is ready, and that is about to be applied to these rows. It takes no memory.
    pub(crate) fn count_prepared(&mut self, rows: &Rows, prepared: &Prepared)
        requires ordered { AreOrdered rows.now }
        requires counted { AreCounted self.old (kept_in rows.now).state }
        requires entries { HasEntries 1 self.old }
        requires space { HasSpace 1 rows.now }
        requires row { IsRowOf rows.now.tag prepared.now }
        requires change { IsChange (change_of prepared.now) }
        requires sound { IsSound (kept_in rows.now) }
        requires fits { IsFit (change_of prepared.now) (kept_in rows.now) }
        ensures counted { AreCounted self.new (changed (change_of prepared.now) (kept_in rows.now)).state }
        ensures entries { LeavesEntries self.old self.new }
    {
        match prepared {
            Prepared::Container(row) => self.put_container(rows, row),
            Prepared::Other(change) => self.count(rows, change),
        }
    }

    /// How many rows of this kind a project has.
    pub(crate) fn of(&self, rows: &Rows, project: &Name, kind: QuotaKind) -> usize
        requires { AreCounted self.now (kept_in rows.now).state }
        ensures { result ≡ count_of kind project.now (kept_in rows.now).state }
    {
        match kind {
            QuotaKind::Secrets => number_in(&self.secrets, project),
            QuotaKind::Orders => number_in(&self.orders, project),
            QuotaKind::Containers => number_in(&self.containers, project),
            QuotaKind::Consumers => number_in(&self.consumers, project),
        }
    }
}
