// Why a store isn't opened.
use kms_journal::Place;
use kms_world::{Id, Name};

/// Why there is no engine over a store.
#[derive(Clone, Copy, Debug, PartialEq, Eq)]
pub enum StartFault {
    /// There is no store.
    NoStore,
    /// The store is damaged, at this place first: the current file, and in it the commit mark before the first record
    /// that isn't whole, is none, or doesn't apply. The place is 0 where the header or the snapshot is none.
    Damaged(Place),
    /// No master key opens a key of this project. It is the first such project by its bytes.
    UnknownMaster(Name),
    /// The payload of the secret with this id doesn't open under its project's key, or opens to none or to more than 20,000
    /// bytes. It is the first such secret in order of creation.
    DamagedPayload(Id),
    /// A call on the store's files failed.
    StoreFault,
    /// Out of memory.
    NoMemory,
}
