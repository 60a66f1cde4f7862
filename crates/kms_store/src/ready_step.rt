// Steps that are ready to be applied.
ghost use Rattle.std.specs.Prelude.{◌≡◌, ◌<◌, ◌^◌, map, IfOk};
ghost use Rattle.kms_record.specs.Grammar.{IsChange};
ghost use Rattle.std.specs.List.{AllByRecursion};

use crate::{Ready, Tables};
use kms_record::{Change, Step};
use kms_world::NoMemory;
use std::alloc::Global;
use std::marker::Model;

/// The changes of a step, in their order, each ready to be applied to the tables of a store with this tag. Contracts see
/// the tag and the changes.
#[derive(Drop)]
pub struct ReadyStep {
    tag: u64,
    changes: Vec<Ready>,
}

impl Model for ReadyStep {
    ghost use Rattle.kms_store.specs.ReadyStep.{TaggedStep};

    ghost Value = { TaggedStep };

    ghost use Rattle.kms_store.specs.ReadyStepFields.{tagged_step, AreTagged};

    ghost view = { tagged_step };

    ghost invariant = { AreTagged };
}

// Each change made ready.
fn prepared(alloc: Global, tag: u64, step: Step) -> Result<Vec<Ready>, NoMemory>
    requires tag { tag < 2 ^ 60 }
    requires changes { AllByRecursion IsChange step }
    ensures changes { IfOk result (λ r. map (λ ready. ready.change) r.items ≡ step) }
    ensures tags { IfOk result (λ r. AllByRecursion (λ ready. ready.tag ≡ tag) r.items) }
{
    let mut ready = Vec::new(alloc);
    for change in step.into_vec() {
        ready.push(Ready::of(alloc, tag, change)?)?;
    }
    Ok(ready)
}

impl ReadyStep {
    /// Makes the changes of a step ready for the tables of this tag.
    pub(crate) fn of(alloc: Global, tag: u64, step: Step) -> Result<ReadyStep, NoMemory>
        requires tag { tag < 2 ^ 60 }
        requires changes { AllByRecursion IsChange step }
        ensures { IfOk result (λ r. r ≡ record { tag = tag; changes = step }) }
    {
        let changes = prepared(alloc, tag, step)?;
        Ok(ReadyStep { tag, changes })
    }

    /// The changes, with the memory that they have.
    pub(crate) fn into_vec(self) -> Vec<Ready>
        ensures changes { map (λ ready. ready.change) result.items ≡ self.changes }
        ensures tags { AllByRecursion (λ ready. ready.tag ≡ self.tag) result.items }
    {
        self.changes
    }
}
