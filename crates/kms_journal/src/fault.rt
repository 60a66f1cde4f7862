// Why a call on a store has no answer.
ghost use Rattle.std.specs.Prelude.{◌≡◌};
ghost use Rattle.kms_journal.specs.declared.fault.CreateFault.TheVariants as creation;
ghost use Rattle.kms_journal.specs.declared.fault.GatherFault.TheVariants as gathering;
ghost use Rattle.kms_journal.specs.Fault.{gathered};
ghost use Rattle.kms_journal.specs.declared.fault.JournalFault.TheVariants as opening;

use crate::Chain;
use kms_host::{Failed, NoMemory};

/// A call on the store's files failed. What it left of them is known again once the store is opened anew.
#[derive(Clone, Copy, Debug, PartialEq, Eq)]
pub struct StoreFault;

impl From<Failed> for StoreFault {
    fn from(_: Failed) -> Self {
        StoreFault
    }
}

impl From<Failed> for CreateFault {
    ghost from_gives = { λ _ fault. fault ≡ creation.StoreFault };

    fn from(_: Failed) -> Self {
        CreateFault::StoreFault
    }
}

impl From<StoreFault> for CreateFault {
    ghost from_gives = { λ _ fault. fault ≡ creation.StoreFault };

    fn from(_: StoreFault) -> Self {
        CreateFault::StoreFault
    }
}

/// Why a store wasn't created.
#[derive(Clone, Copy, Debug, PartialEq, Eq)]
pub enum CreateFault {
    /// There is a store already.
    Exists,
    /// A call on the store's files failed.
    StoreFault,
    /// Out of memory. Never answered: a fresh store's bytes need none.
    NoMemory,
}

/// Where a store is damaged.
#[derive(Clone, Copy, Debug, PartialEq, Eq)]
pub enum Place {
    /// A file, 0 or 1, and the place of the commit mark that is set before a record that isn't whole, in bytes. The
    /// place is 0 where the header's numbers are out of range or the snapshot isn't whole.
    Body { file: u8, at: u64 },
}

/// Why a store wasn't opened, or not read.
#[derive(Drop)]
pub enum JournalFault {
    /// There is no store: neither file has its first commit mark set before a whole header.
    NoStore,
    /// A call on the store's files failed.
    StoreFault,
    /// The store is damaged there. The chain has what stands before that place: with place 0 an empty snapshot and no
    /// records.
    Damaged(Place, Chain),
    /// Out of memory.
    NoMemory,
}

/// Why bytes of a store weren't read.
#[derive(Clone, Copy, Debug, PartialEq, Eq)]
pub enum GatherFault {
    /// A call on the store's files failed.
    StoreFault,
    /// Out of memory.
    NoMemory,
}

impl From<Failed> for GatherFault {
    ghost from_gives = { λ _ fault. fault ≡ gathering.StoreFault };

    fn from(_: Failed) -> Self {
        GatherFault::StoreFault
    }
}

impl From<NoMemory> for GatherFault {
    ghost from_gives = { λ _ fault. fault ≡ gathering.NoMemory };

    fn from(_: NoMemory) -> Self {
        GatherFault::NoMemory
    }
}

impl From<Failed> for JournalFault {
    ghost from_gives = { λ _ fault. fault ≡ opening.StoreFault };

    fn from(_: Failed) -> Self {
        JournalFault::StoreFault
    }
}

impl From<StoreFault> for JournalFault {
    ghost from_gives = { λ _ fault. fault ≡ opening.StoreFault };

    fn from(_: StoreFault) -> Self {
        JournalFault::StoreFault
    }
}

impl From<NoMemory> for JournalFault {
    ghost from_gives = { λ _ fault. fault ≡ opening.NoMemory };

    fn from(_: NoMemory) -> Self {
        JournalFault::NoMemory
    }
}

impl From<GatherFault> for JournalFault {
    ghost from_gives = { λ cause fault. fault ≡ gathered cause };

    fn from(cause: GatherFault) -> Self {
        match cause {
            GatherFault::StoreFault => JournalFault::StoreFault,
            GatherFault::NoMemory => JournalFault::NoMemory,
        }
    }
}
