// What operations come to.
use kms_record::{Change, SecretPut};
use kms_world::{Answer, Id, Name, Payload};

/// What an operation that isn't refused comes to: its answer, and the change of what is kept that has to be made before it is
/// given; None where nothing changes.
#[derive(Drop)]
pub struct Outcome {
    pub answer: Answer,
    pub change: Option<Change>,
}

/// A payload that has to be sealed and put before its answer is given.
#[derive(Drop)]
pub struct NewPayload {
    pub answer: Answer,
    /// what puts its secret before it, where that is new
    pub secret: Option<SecretPut>,
    /// the count of its secret's id under the store's tag, below 2^62
    pub id: u64,
    /// when it is put, in seconds since 1970
    pub updated: u64,
    /// its secret's project
    pub project: Name,
    pub payload: Payload,
}

/// What an operation that isn't refused comes to.
#[derive(Drop)]
pub enum Plan {
    /// An answer, with a change or without one.
    Makes(Outcome),
    /// A payload is put.
    Puts(NewPayload),
    /// The payload of the secret with this id, which has one, is the answer.
    Shows(Id),
}
