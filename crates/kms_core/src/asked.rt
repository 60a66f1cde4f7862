// Answers, and the steps that they need.
ghost use Rattle.std.specs.Prelude.{◌≡◌, None};

use kms_sealing::NewKey;
use kms_store::ReadyStep;
use kms_world::{Answer, NoMemory, Refusal};
use std::alloc::{AllocError, AllocFailed};

/// A step that has all the memory that it needs, and the key that a project gets with it.
#[derive(Drop)]
pub struct PreparedStep {
    pub step: ReadyStep,
    pub key: Option<NewKey>,
}

/// An answer, and the step that has to be taken over before it is given.
#[derive(Drop)]
pub struct Asked {
    pub answer: Answer,
    pub step: Option<PreparedStep>,
}

// A refusal, which changes nothing.
pub(crate) fn refused(refusal: Refusal) -> Asked
    ensures answer { result.answer ≡ Answer.Refused refusal }
    ensures step { result.step ≡ None }
{
    Asked {
        answer: Answer::Refused(refusal),
        step: None,
    }
}

/// Why an operation has no answer. Nothing has changed.
#[derive(Clone, Copy, Debug, PartialEq, Eq)]
pub enum AskFault {
    /// A draw of random bytes failed.
    NoDraw,
    /// out of memory
    NoMemory,
}

impl From<NoMemory> for AskFault {
    ghost use Rattle.std.specs.Prelude.{◌≡◌};
    ghost use Rattle.kms_core.specs.declared.asked.AskFault.TheVariants as faults;

    ghost from_gives = { λ _ fault. fault ≡ faults.NoMemory };

    fn from(_: NoMemory) -> Self {
        AskFault::NoMemory
    }
}

impl From<AllocError> for AskFault {
    ghost use Rattle.std.specs.Prelude.{◌≡◌};
    ghost use Rattle.kms_core.specs.declared.asked.AskFault.TheVariants as faults;

    ghost from_gives = { λ _ fault. fault ≡ faults.NoMemory };

    fn from(_: AllocError) -> Self {
        AskFault::NoMemory
    }
}
