// What a store keeps, in tables.
ghost use Rattle.std.specs.Prelude.{◌≡◌, ◌<◌, ◌≤◌, ◌+◌, ◌^◌, true, length, is_some, Some, option_copied, IfOk, OnOk};
ghost use Rattle.std.specs.List.{AllByRecursion};
ghost use Rattle.kms_world.specs.LookUp.{secret_of, container_of, order_of, acl_of, quota_of};
ghost use Rattle.kms_record.specs.Grammar.{IsChange, IsChangeInRange};
ghost use Rattle.kms_kept.specs.Kept.{after_step, applies, changed, key_of, kept_first};
ghost use Rattle.kms_kept.specs.Sound.{IsSound};
ghost use Rattle.kms_store.specs.Counts.{count_of};
ghost use Rattle.kms_kept.specs.Snapshot.{snapshot_of};
ghost use Rattle.kms_store.specs.Part.{part_of, IsFit};
ghost use Rattle.kms_store.specs.RowsLeft.{changes_left};

use crate::counts::Counts;
use crate::rows::Rows;
use crate::rows_left::RowsLeft;
use crate::{KeptSecret, Part, Ready, ReadyStep};
use kms_record::{Change, Step, WrappedKey};
use kms_world::{
    AclRow, ConsumerRow, ContainerRow, Id, Name, NoMemory, OrderRow, QuotaKind, QuotaRow,
};
use std::alloc::Global;
use std::marker::Model;

/// What a store keeps, in tables: each in order of creation, and the keys by project and number. Contracts see what is
/// kept, and for how many changes there is memory.
#[derive(Drop)]
pub struct Tables {
    alloc: Global,
    rows: Rows,
    counts: Counts,
    spare: usize,
}

impl Model for Tables {
    ghost use Rattle.kms_store.specs.Tables.{Tabled};

    ghost Value = { Tabled };

    ghost use Rattle.kms_store.specs.TablesFields.{tabled, AreTables};

    ghost view = { tabled };

    ghost invariant = { AreTables };
}

impl Tables {
    /// Nothing is kept, under this tag and where so many ids were given. It takes no memory.
    pub fn first(alloc: Global, tag: u64, ids: u64) -> Tables
        requires tag { tag < 2 ^ 60 }
        requires ids { ids ≤ 2 ^ 62 }
        ensures { result ≡ record { kept = kept_first tag ids; spare = 0 } }
    {
        Tables {
            alloc,
            rows: Rows::first(alloc, tag, ids),
            counts: Counts::first(alloc),
            spare: 0,
        }
    }

    /// Whether the change applies to what is kept.
    pub fn applies(&self, part: Part, change: &Change) -> bool
        requires { IsChangeInRange change.now }
        ensures { result ≡ applies (part_of part) change.now self.now.kept }
    {
        self.rows.applies(part, change)
    }

    /// Takes memory for so many changes. What is kept stays as it is.
    pub(crate) fn reserve(&mut self, changes: usize) -> Result<(), NoMemory>
        ensures kept { self.new.kept ≡ self.old.kept }
        ensures ok { OnOk result (changes ≤ self.new.spare) }
    {
        if self.spare < changes {
            self.rows.reserve(changes)?;
            self.counts.reserve(changes)?;
            self.spare = changes;
        }
        Ok(())
    }

    /// Makes a change ready, with all the memory that it needs. What is kept stays as it is.
    pub fn ready(&mut self, change: Change) -> Result<Ready, NoMemory>
        requires { IsChange change }
        ensures kept { self.new.kept ≡ self.old.kept }
        ensures spare { OnOk result (0 < self.new.spare) }
        ensures ready { IfOk result (λ r. r ≡ record { tag = self.old.kept.state.tag; change = change }) }
    {
        self.reserve(1)?;
        Ready::of(self.alloc, self.rows.tag, change)
    }

    /// Applies a change that is ready, and that applies to what is kept. It takes no memory.
    pub fn apply(&mut self, ready: Ready)
        requires tag { ready.tag ≡ self.old.kept.state.tag }
        requires spare { 0 < self.old.spare }
        requires fits { IsFit ready.change self.old.kept }
        ensures kept { self.new.kept ≡ changed ready.change self.old.kept }
        ensures spare { self.new.spare + 1 ≡ self.old.spare }
    {
        self.spare -= 1;
        self.counts.count_prepared(&self.rows, &ready.prepared);
        self.rows.apply_prepared(ready.prepared);
    }

    /// Makes the changes of a step ready, with all the memory that they need. What is kept stays as it is.
    pub fn ready_step(&mut self, step: Step) -> Result<ReadyStep, NoMemory>
        requires { AllByRecursion IsChange step }
        ensures kept { self.new.kept ≡ self.old.kept }
        ensures spare { OnOk result (length step ≤ self.new.spare) }
        ensures ready { IfOk result (λ r. r ≡ record { tag = self.old.kept.state.tag; changes = step }) }
    {
        self.reserve(step.as_slice().len())?;
        ReadyStep::of(self.alloc, self.rows.tag, step)
    }

    /// Applies a step that is ready, and whose changes apply in their order to what is kept. It takes no memory.
    pub fn apply_all(&mut self, step: ReadyStep)
        requires tag { step.tag ≡ self.old.kept.state.tag }
        requires spare { length step.changes ≤ self.old.spare }
        requires applies { is_some (after_step step.changes self.old.kept) ≡ true }
        ensures { after_step step.changes self.old.kept ≡ Some self.new.kept }
    {
        for ready in step.into_vec() {
            self.apply(ready);
        }
    }

    /// The secret with this id.
    pub fn secret(&self, id: Id) -> Option<&KeptSecret>
        ensures found { option_copied result ≡ secret_of id self.now.kept.state.secrets }
        ensures sound { IsSound self.now.kept }
    {
        self.rows.secret(id)
    }

    /// The container with this id.
    pub fn container(&self, id: Id) -> Option<&ContainerRow>
        ensures found { option_copied result ≡ container_of id self.now.kept.state.containers }
        ensures sound { IsSound self.now.kept }
    {
        self.rows.container(id)
    }

    /// The order with this id.
    pub fn order(&self, id: Id) -> Option<&OrderRow>
        ensures found { option_copied result ≡ order_of id self.now.kept.state.orders }
        ensures sound { IsSound self.now.kept }
    {
        self.rows.order(id)
    }

    /// The access list of a secret or a container.
    pub fn acl(&self, target: Id) -> Option<&AclRow>
        ensures found { option_copied result ≡ acl_of target self.now.kept.state.acls }
        ensures sound { IsSound self.now.kept }
    {
        self.rows.acl(target)
    }

    /// The quotas of a project.
    pub fn quota(&self, project: &Name) -> Option<&QuotaRow>
        ensures found { option_copied result ≡ quota_of project.now self.now.kept.state.quotas }
        ensures sound { IsSound self.now.kept }
    {
        self.rows.quota(project)
    }

    /// The key of a project with this number.
    pub fn key(&self, project: &Name, number: u32) -> Option<&WrappedKey>
        ensures { option_copied result ≡ key_of project.now number self.now.kept.keys }
    {
        self.rows.key(project, number)
    }

    /// How many rows of this kind a project has: secrets, containers and orders of its own, and the consumers of its
    /// containers.
    pub fn count(&self, project: &Name, kind: QuotaKind) -> u64
        ensures { result ≡ count_of kind project.now self.now.kept.state }
    {
        self.counts.of(&self.rows, project, kind) as u64
    }

    /// The tag of the store's ids, below 2^60.
    pub fn tag(&self) -> u64
        ensures tag { result ≡ self.now.kept.state.tag }
        ensures range { result < 2 ^ 60 }
    {
        self.rows.tag
    }

    /// How many ids were given, at most 2^62.
    pub fn ids(&self) -> u64
        ensures ids { result ≡ self.now.kept.state.ids }
        ensures range { result ≤ 2 ^ 62 }
    {
        self.rows.ids
    }

    /// The secrets in order of creation.
    pub fn secrets(&self) -> &[KeptSecret]
        ensures { result.now ≡ self.now.kept.state.secrets }
    {
        self.rows.secrets.as_slice()
    }

    /// The containers in order of creation.
    pub fn containers(&self) -> &[ContainerRow]
        ensures { result.now ≡ self.now.kept.state.containers }
    {
        self.rows.containers.as_slice()
    }

    /// The consumers in order of creation.
    pub fn consumers(&self) -> &[ConsumerRow]
        ensures { result.now ≡ self.now.kept.state.consumers }
    {
        self.rows.consumers.as_slice()
    }

    /// The orders in order of creation.
    pub fn orders(&self) -> &[OrderRow]
        ensures { result.now ≡ self.now.kept.state.orders }
    {
        self.rows.orders.as_slice()
    }

    /// The access lists in order of creation.
    pub fn acls(&self) -> &[AclRow]
        ensures { result.now ≡ self.now.kept.state.acls }
    {
        self.rows.acls.as_slice()
    }

    /// The rows of quotas in order of creation.
    pub fn quotas(&self) -> &[QuotaRow]
        ensures { result.now ≡ self.now.kept.state.quotas }
    {
        self.rows.quotas.as_slice()
    }

    /// The wrapped keys by project and number.
    pub fn keys(&self) -> &[WrappedKey]
        ensures { result.now ≡ self.now.kept.keys }
    {
        &self.rows.keys
    }

    /// The rows as a snapshot has them.
    pub(crate) fn rows_left(&self) -> RowsLeft<'_>
        ensures all { changes_left result ≡ snapshot_of self.now.kept }
        ensures grammar { AllByRecursion IsChange (changes_left result) }
        ensures sound { IsSound self.now.kept }
        ensures tag { self.now.kept.state.tag < 2 ^ 60 }
    {
        let _ = &self.alloc;
        RowsLeft::of(self)
    }
}
