// A store: what is kept, and the steps that wait to be settled.
ghost use Rattle.std.specs.Prelude.{◌≡◌, ℕ, ◌<◌, ◌≤◌, ◌+◌, ◌-◌, ◌^◌, min, length, Ok, Some, None, IfOk, OnOk, OnErr, is_some, is_err, true, false};
ghost use Rattle.kms_host.specs.Faults.{HasCause};
ghost use Rattle.kms_host.specs.History.{Tells, WhereTold, Stops};
ghost use Rattle.kms_host.specs.declared.call.Count.TheVariants as counts;
ghost use Rattle.kms_record.specs.Grammar.{IsStepInRange, step_bytes};
ghost use Rattle.kms_kept.specs.Kept.{Kept, after_step};
ghost use Rattle.kms_journal.specs.Fault.{Fails};
ghost use Rattle.kms_journal.specs.Position.{IsPlaced};
ghost use Rattle.kms_journal.specs.Standing.{Standing};
ghost use Rattle.kms_store.specs.Checkpoint.{HasFewRecords, IsCountOf};
ghost use Rattle.kms_store.specs.Loading.{Loads};
ghost use Rattle.kms_store.specs.Settling.{IsOpened, Settles, settle_syncs};
ghost use Rattle.kms_store.specs.Staged.{nothing_staged, with_reserved, with_staged};
ghost use Rattle.kms_store.specs.Stands.{HaveSteps};
ghost use Rattle.kms_store.specs.Store.{IsReserved};

use crate::staged::Staged;
use crate::{LoadFault, ReadyStep, Tables, checkpoint, load, steps_after};
use kms_host::Host;
use kms_journal::{Chain, Journal, StoreFault};
use kms_record::Step;
use kms_world::NoMemory;
use std::alloc::Global;
use std::marker::Model;

/// More bytes of records than this, four mebibytes, give way to a snapshot when steps are settled.
const MOST_RECORDS: u64 = 4_194_304;

/// What is kept of a store, in tables, the steps of it that the store's files don't have yet, and the number of all its steps.
/// Contracts see what is kept, the staged steps as they are spelled, that number, and for how many changes more there is
/// memory.
#[derive(Drop)]
pub struct Store {
    alloc: Global,
    tables: Tables,
    staged: Staged,
    steps: u64,
}

impl Model for Store {
    ghost use Rattle.kms_store.specs.Store.{Stored};
    ghost use Rattle.kms_store.specs.StoreFields.{stored_in};

    ghost Value = { Stored };

    ghost view = { stored_in };
}

impl Store {
    /// Loads what a chain of records leads to, from its snapshot on, with no step staged; or answers the first place at which
    /// the chain is damaged, 0 for the snapshot. `NoMemory` is the only other fault.
    pub fn load(alloc: Global, chain: &Chain) -> Result<Store, LoadFault>
        ensures loads { Loads (λ store. store.kept) chain.now result }
        ensures nothing { IfOk result (λ store. store.staging ≡ nothing_staged) }
        ensures steps { IfOk result (λ store. (n : ℕ) → HaveSteps chain.now.bodies n → IsCountOf store.steps (chain.now.steps + n)) }
    {
        let tables = load(alloc, chain)?;
        match Staged::new(alloc) {
            Ok(staged) => Ok(Store {
                alloc,
                tables,
                staged,
                steps: steps_after(chain.steps, chain.bodies.as_slice()),
            }),
            Err(NoMemory) => Err(LoadFault::NoMemory),
        }
    }

    /// What is kept, with all staged steps.
    pub fn rows(&self) -> &Tables
        ensures kept { result.now.kept ≡ self.now.kept }
        ensures spare { result.now.spare ≡ self.now.spare }
    {
        &self.tables
    }

    /// How many steps are staged.
    pub fn staged(&self) -> u32
        ensures { result ≡ self.now.staging.count }
    {
        self.staged.count()
    }

    /// Takes all memory that a step needs, and spells it: it can be staged then without memory. The step has 1 to 65,535
    /// changes whose numbers and lengths are in their ranges, and with the staged ones less than 2^27 bytes. What is kept
    /// and staged stays as it is.
    pub fn reserve_step(&mut self, step: Step) -> Result<ReadyStep, NoMemory>
        requires range { IsStepInRange step }
        requires short { length self.old.staging.steps + length (step_bytes step) < 2 ^ 27 }
        ensures kept { self.new.kept ≡ self.old.kept }
        ensures staging { self.new.staging ≡ with_reserved self.new.staging.reserved self.old.staging }
        ensures steps { self.new.steps ≡ self.old.steps }
        ensures changes { IfOk result (λ ready. ready.changes ≡ step) }
        ensures reserved { IfOk result (IsReserved self.new) }
    {
        let changes = step.as_slice().len();
        self.staged.reserve(&step)?;
        self.tables.reserve(changes)?;
        ReadyStep::of(self.alloc, self.tables.tag(), step)
    }

    /// Stages the step that was reserved last, which applies to what is kept. It can't fail, and takes no memory.
    pub fn stage(&mut self, step: ReadyStep)
        requires reserved { IsReserved self.old step }
        requires applies { is_some (after_step step.changes self.old.kept) ≡ true }
        ensures kept { after_step step.changes self.old.kept ≡ Some self.new.kept }
        ensures staging { self.new.staging ≡ with_staged self.old.staging }
        ensures steps { self.new.steps ≡ min (self.old.steps + 1) (2 ^ 64 - 1) }
    {
        self.tables.apply_all(step);
        self.staged.stage();
        self.steps = self.steps.saturating_add(1);
    }

    /// Settles the staged steps, and puts a snapshot in the place of the records where they take more bytes than this then.
    pub(crate) fn settle_within<H: Host>(
        &mut self,
        host: &mut H,
        journal: &mut Journal,
        limit: u64,
    ) -> Result<(), StoreFault>
        requires working { journal.old.failed ≡ false }
        requires placed { 0 < self.old.staging.count → WhereTold (H.history host.old) (λ h. (s : Standing) × IsPlaced journal.old h s) }
        ensures told { Tells (H.history host.old) (H.history host.new) (λ was now. (settled : Kept) (steps : ℕ)
            → IsOpened self.old journal.old was settled steps
            → Settles self.old self.new (settle_syncs limit journal.old self.old.staging) journal.old journal.new result settled steps was now) }
        ensures kept { self.new.kept ≡ self.old.kept }
        ensures steps { self.new.steps ≡ self.old.steps }
        ensures ok { OnOk result (self.new.staging ≡ nothing_staged) }
        ensures few { OnOk result (0 < self.old.staging.count → HasFewRecords limit self.old.kept self.old.steps journal.new) }
        ensures err { OnErr result (self.new ≡ self.old) }
        ensures working { OnOk result (journal.new.failed ≡ false) }
        ensures fails { OnErr result (journal.new ≡ record journal.old { end = journal.new.end; failed = true; chain = None }) }
        ensures idle { self.old.staging.count ≡ 0 → (result ≡ Ok tt) × (host.new ≡ host.old) × (journal.new ≡ journal.old) }
        ensures cause { HasCause counts.Store (H.faults host.old) (H.faults host.new) result }
        ensures failed { Tells (H.history host.old) (H.history host.new) (Fails (is_err result)) }
        ensures stops { Stops (H.wanted host.old) (H.wanted host.new) (H.history host.old) (H.history host.new) }
    {
        if self.staged.count() == 0 {
            self.staged.clear();
            return Ok(());
        }
        self.staged.commit(host, journal)?;
        checkpoint(&self.tables, self.steps, host, journal, limit)?;
        self.staged.clear();
        Ok(())
    }

    /// Adds the staged steps to the store's files through its journal, as one record, with two syncs; and where the records
    /// take more than 4,194,304 bytes then, puts a snapshot of what is kept in their place, with one cut and three syncs more.
    /// It takes no memory. With no staged step it makes no call.
    ///
    /// No snapshot is made where the generation or the number of steps is 2^63 or more, or the snapshot would have 2^64 bytes
    /// or more. From an Ok on the store has the staged steps, and none is staged. After a fault it has all of them or none, if
    /// nothing was pending on the files before, they are still staged, and the journal has failed.
    pub fn settle<H: Host>(&mut self, host: &mut H, journal: &mut Journal) -> Result<(), StoreFault>
        requires working { journal.old.failed ≡ false }
        requires placed { 0 < self.old.staging.count → WhereTold (H.history host.old) (λ h. (s : Standing) × IsPlaced journal.old h s) }
        ensures told { Tells (H.history host.old) (H.history host.new) (λ was now. (settled : Kept) (steps : ℕ)
            → IsOpened self.old journal.old was settled steps
            → Settles self.old self.new (settle_syncs 4194304 journal.old self.old.staging) journal.old journal.new result settled steps was now) }
        ensures kept { self.new.kept ≡ self.old.kept }
        ensures steps { self.new.steps ≡ self.old.steps }
        ensures ok { OnOk result (self.new.staging ≡ nothing_staged) }
        ensures few { OnOk result (0 < self.old.staging.count → HasFewRecords 4194304 self.old.kept self.old.steps journal.new) }
        ensures err { OnErr result (self.new ≡ self.old) }
        ensures working { OnOk result (journal.new.failed ≡ false) }
        ensures fails { OnErr result (journal.new ≡ record journal.old { end = journal.new.end; failed = true; chain = None }) }
        ensures idle { self.old.staging.count ≡ 0 → (result ≡ Ok tt) × (host.new ≡ host.old) × (journal.new ≡ journal.old) }
        ensures cause { HasCause counts.Store (H.faults host.old) (H.faults host.new) result }
        ensures failed { Tells (H.history host.old) (H.history host.new) (Fails (is_err result)) }
        ensures stops { Stops (H.wanted host.old) (H.wanted host.new) (H.history host.old) (H.history host.new) }
    {
        self.settle_within(host, journal, MOST_RECORDS)
    }
}
