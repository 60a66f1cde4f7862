// Why keys can't be had, and why what is kept doesn't open.
ghost use Rattle.std.specs.Prelude.{◌≡◌};
ghost use Rattle.kms_sealing.specs.declared.fault.OpeningFault.TheVariants as faults;

use kms_ring::BadLine;
use kms_world::{Id, Name, NoMemory};
use std::alloc::{AllocError, AllocFailed};

/// Why what is kept doesn't open under the master keys.
#[derive(Clone, Copy, Debug, PartialEq, Eq)]
pub enum OpeningFault {
    /// No master key opens a key of this project. It is the first such project by its bytes.
    UnknownMaster(Name),
    /// The payload of the secret with this id doesn't open under its project's key, or opens to none or to more than 20,000
    /// bytes. It is the first such secret in order of creation.
    Damaged(Id),
    /// out of memory
    NoMemory,
}

impl From<NoMemory> for OpeningFault {
    ghost from_gives = { λ _ fault. fault ≡ faults.NoMemory };

    fn from(_: NoMemory) -> Self {
        OpeningFault::NoMemory
    }
}

impl From<AllocError> for OpeningFault {
    ghost from_gives = { λ _ fault. fault ≡ faults.NoMemory };

    fn from(_: AllocError) -> Self {
        OpeningFault::NoMemory
    }
}

impl<T: Drop> From<AllocFailed<T>> for OpeningFault {
    ghost from_gives = { λ _ fault. fault ≡ faults.NoMemory };

    fn from(_: AllocFailed<T>) -> Self {
        OpeningFault::NoMemory
    }
}

/// Why a key file gives no master keys.
#[derive(Clone, Copy, Debug, PartialEq, Eq)]
pub enum KeyFileFault {
    /// It can't be read.
    Failed,
    /// its first bad line
    Bad(BadLine),
    /// out of memory
    NoMemory,
}

/// Why a payload doesn't come.
#[derive(Clone, Copy, Debug, PartialEq, Eq)]
pub(crate) enum PayloadFault {
    /// It doesn't open.
    Closed,
    /// out of memory
    NoMemory,
}
