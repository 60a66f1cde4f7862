// Outcomes of operations, with the steps that make their changes.
ghost use Rattle.std.specs.Prelude.{◌≡◌, ℕ, ◌<◌, ◌∷◌, [], IfOk, IfErr, is_some, Some};
ghost use Rattle.kms_core.specs.Asking.{IsMadeOf, SealsNothing};
ghost use Rattle.kms_core.specs.Settling.{count_of};
ghost use Rattle.kms_core.specs.Steps.{HasState, KeepsState, KeepsTheSame, LeadsTo, Prepares};
ghost use Rattle.kms_model.specs.Done.{has_some};
ghost use Rattle.kms_operations.specs.Outcome.{Fits, IsPossible, effects_of};
ghost use Rattle.kms_world.specs.Effect.{after_effects};
ghost use Rattle.kms_world.specs.State.{State};

use crate::{AskFault, Asked, Engine, PreparedStep};
use kms_operations::Outcome;
use kms_record::{Change, Step};
use kms_world::NoMemory;
use std::alloc::Global;

// The step with this change alone.
fn one_change(alloc: Global, change: Change) -> Result<Step, NoMemory>
    ensures { IfOk result (λ step. step ≡ change ∷ []) }
{
    let mut step = Step::new(alloc);
    step.push(change)?;
    Ok(step)
}

impl Engine {
    // The step that makes a change of rows, with all memory that it needs.
    fn reserve(&mut self, change: Change) -> Result<PreparedStep, NoMemory>
        requires few { count_of self.old.store < 1152 }
        requires fits { Fits self.old.store.stored.kept change }
        ensures leads { IfOk result (λ step. (s : State) → HasState self.old s → LeadsTo step self.new (after_effects (effects_of self.old.store.stored.kept.state.tag (Some change)) s)) }
        ensures plain { IfOk result SealsNothing }
        ensures same { KeepsState self.old self.new }
        ensures store { KeepsTheSame self.old.store self.new.store }
    {
        let step = one_change(self.alloc, change)?;
        let step = self.store.reserve_step(step)?;
        Ok(PreparedStep { step, key: None })
    }

    // The answer of an outcome, and the step that makes its change.
    pub(crate) fn prepare(&mut self, outcome: Outcome) -> Result<Asked, AskFault>
        requires few { count_of self.old.store < 1152 }
        requires possible { IsPossible self.old.store.stored.kept outcome }
        ensures answer { IfOk result (λ a. a.answer ≡ outcome.answer) }
        ensures step { IfOk result (λ a. (s : State) → HasState self.old s → Prepares a.step self.new (after_effects (effects_of self.old.store.stored.kept.state.tag outcome.change) s)) }
        ensures stores { IfOk result (λ a. is_some a.step ≡ has_some (effects_of self.old.store.stored.kept.state.tag outcome.change)) }
        ensures made { IfOk result (λ a. (moment : ℕ) → IsMadeOf self.old moment a.step []) }
        ensures err { IfErr result (λ fault. fault ≡ AskFault.NoMemory) }
        ensures same { KeepsState self.old self.new }
        ensures store { KeepsTheSame self.old.store self.new.store }
    {
        let Outcome { answer, change } = outcome;
        match change {
            None => Ok(Asked { answer, step: None }),
            Some(change) => {
                let step = self.reserve(change)?;
                Ok(Asked {
                    answer,
                    step: Some(step),
                })
            }
        }
    }
}
