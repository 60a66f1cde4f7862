// The engine and its calls.
ghost use Rattle.std.specs.Prelude.{◌≡◌, ℕ, ◌<◌, ◌^◌, List, IfOk, Some, Ok, Err, true, is_some, is_err, OnOk, OnErr};
ghost use Rattle.kms_world.specs.State.{State};
ghost use Rattle.kms_world.specs.Times.{HasTimes};
ghost use Rattle.kms_model.specs.Ask.{answer_to, puts_payload, state_after, stores};
ghost use Rattle.kms_host.specs.Faults.{HasCause};
ghost use Rattle.kms_host.specs.History.{Tells, WhereTold, Stops};
ghost use Rattle.kms_host.specs.Moment.{Since, Throughout};
ghost use Rattle.kms_host.specs.declared.call.Count.TheVariants as counts;
ghost use Rattle.kms_journal.specs.Fault.{Fails};
ghost use Rattle.kms_journal.specs.Position.{IsPlaced};
ghost use Rattle.kms_journal.specs.Standing.{Standing};
ghost use Rattle.kms_kept.specs.Kept.{Kept};
ghost use Rattle.kms_store.specs.Checkpoint.{HasFewRecords};
ghost use Rattle.kms_store.specs.Settling.{IsOpened as IsStoreOpened};
ghost use Rattle.kms_core.specs.Asking.{DrawsToAsk, HasDrawCause};
ghost use Rattle.kms_core.specs.Settling.{IsOpened, KeepsOrAll, Settles, count_of, with_failed};
ghost use Rattle.kms_core.specs.Steps.{HasState, KeepsState, LeadsTo, Prepares, KeepsTheSame, Waits, IsIdle, IsWorking};

use crate::asked::refused;
use crate::payload::add_key;
use crate::{AskFault, Asked, PreparedStep};
use kms_host::Host;
use kms_journal::{Journal, StoreFault};
use kms_operations::{Plan, asked};
use kms_sealing::ProjectKeys;
use kms_store::Store;
use kms_world::{Caller, CheckFault, Op};
use std::alloc::Global;
use std::marker::Model;

/// The key manager's state in memory, over a store, whose payloads are sealed: with the master keys, and the project keys that
/// they open. Contracts see the master keys, and of the store where its journal stands, what is kept, and the steps that wait
/// to be settled. What is kept opens to a state, always.
#[derive(Drop)]
pub struct Engine {
    pub(crate) alloc: Global,
    pub(crate) store: Store,
    pub(crate) journal: Journal,
    pub(crate) keys: ProjectKeys,
}

impl Model for Engine {
    ghost use Rattle.kms_core.specs.Steps.{Held};

    ghost Value = { Held };

    ghost use Rattle.kms_core.specs.Engine.{held, IsSound};

    ghost view = { held };

    ghost invariant = { IsSound };
}

impl Engine {
    /// The plain key manager's answer to an operation of a caller at a time in seconds since 1970, and the step that
    /// it needs: one exactly where the operation is accepted and writes. An operation that isn't served is refused as a path
    /// that isn't there. No row changes. After a fault nothing has changed. Fewer than 1,152 accepted steps may wait to be settled.
    ///
    /// A payload that is put is sealed: only then are random bytes drawn, the first key of its project and the vector that
    /// this is wrapped with, where the project has none, and then the vector of the payload's token. `NoDraw` comes only
    /// where one of these draws failed. A payload that is shown is opened once.
    pub fn ask<H: Host>(
        &mut self,
        host: &mut H,
        caller: &Caller,
        op: Op,
        moment: u64,
    ) -> Result<Asked, AskFault>
        requires time { moment < 253402300800 }
        requires few { count_of self.old.store < 1152 }

        // What is kept opens to a state.
        ensures opens { (s : State) × HasState self.old s }

        // Of each state to which it opens: there is one only.
        ensures answer { IfOk result (λ a. (s : State) → HasState self.old s → a.answer ≡ answer_to s caller.now op moment) }
        ensures step { IfOk result (λ a. (s : State) → HasState self.old s → Prepares a.step self.new (state_after s caller.now op moment)) }
        ensures stores { IfOk result (λ a. (s : State) → HasState self.old s → is_some a.step ≡ stores s caller.now op moment) }
        ensures puts { result ≡ Err AskFault.NoDraw → (s : State) → HasState self.old s → puts_payload s caller.now op moment ≡ true }
        ensures times { IfOk result (λ a. HasTimes a.answer) }

        // The state is as before.
        ensures same { KeepsState self.old self.new }
        ensures store { KeepsTheSame self.old.store self.new.store }

        // What was drawn, and that the step is made of it.
        ensures told { Since (H.history host.old) (H.history host.new) (λ was calls. DrawsToAsk self.old caller.now op moment result calls) }
        ensures cause { HasDrawCause (H.faults host.old) (H.faults host.new) result }
        ensures stops { Stops (H.wanted host.old) (H.wanted host.new) (H.history host.old) (H.history host.new) }
    {
        match asked(self.alloc, self.store.rows(), caller, op, moment) {
            Ok(Plan::Makes(outcome)) => self.prepare(outcome),
            Ok(Plan::Puts(new)) => self.put(host, new, moment),
            Ok(Plan::Shows(id)) => self.show(id),
            Err(CheckFault::Refused(refusal)) => Ok(refused(refusal)),
            Err(CheckFault::NoMemory) => Err(AskFault::NoMemory),
        }
    }

    /// Takes over the step that the last call of `ask` prepared. It can't fail, and takes no memory. The step waits to be settled.
    pub fn accept(&mut self, step: PreparedStep)
        requires { (after : State) × LeadsTo step self.old after }
        ensures state { (after : State) → LeadsTo step self.old after → HasState self.new after }
        ensures waits { Waits self.old self.new 1 }
    {
        let PreparedStep { step, key } = step;
        add_key(&mut self.keys, self.store.rows(), &key);
        self.store.stage(step);
    }

    /// Writes the accepted steps that wait to the store, as one record, with two syncs; and where the records take more than
    /// 4,194,304 bytes then, puts a snapshot of the state in their place, with one cut and three syncs more. It takes no
    /// memory. With no step that waits it makes no call on the host. From an Ok on they are on the disk, and after a fault
    /// the store has all of them or none, if nothing was pending on the files before. The engine settles no more then: start
    /// another.
    pub fn settle<H: Host>(&mut self, host: &mut H) -> Result<(), StoreFault>
        requires working { IsWorking self.old }
        requires placed { 0 < count_of self.old.store → WhereTold (H.history host.old) (λ h. (s : Standing) × IsPlaced self.old.store.journal h s) }
        ensures told { Tells (H.history host.old) (H.history host.new) (λ was now. (masters : List (List ℕ)) (settled : State) (steps : ℕ) (state : State)
            → IsOpened masters self.old.store was settled steps state
            → Settles masters self.old.store self.new.store result settled steps state was now) }
        ensures keeps { Tells (H.history host.old) (H.history host.new) (λ was now. (settled : Kept) (steps : ℕ)
            → IsStoreOpened self.old.store.stored self.old.store.journal was settled steps
            → Throughout (KeepsOrAll settled steps self.old.store.stored.kept (count_of self.old.store) was) was now) }
        ensures same { KeepsState self.old self.new }
        ensures ok { OnOk result (IsIdle self.new) }
        ensures few { OnOk result (0 < count_of self.old.store
            → HasFewRecords 4194304 self.old.store.stored.kept self.old.store.stored.steps self.new.store.journal) }
        ensures working { OnOk result (IsWorking self.new) }
        ensures fails { OnErr result (self.new ≡ record self.old { store = with_failed self.new.store.journal.end self.old.store }) }
        ensures idle { count_of self.old.store ≡ 0 → (result ≡ Ok tt) × (host.new ≡ host.old) }
        ensures cause { HasCause counts.Store (H.faults host.old) (H.faults host.new) result }
        ensures failed { Tells (H.history host.old) (H.history host.new) (Fails (is_err result)) }
        ensures stops { Stops (H.wanted host.old) (H.wanted host.new) (H.history host.old) (H.history host.new) }
    {
        self.store.settle(host, &mut self.journal)
    }
}
