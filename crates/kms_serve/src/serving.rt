// What lasts from turn to turn.
use crate::status::Status;
use kms_core::Engine;
use kms_http::{MessageReader, Routes};

/// What is kept while a line is served.
#[derive(Drop)]
pub struct Serving {
    pub engine: Engine,
    pub reader: MessageReader,
    /// the paths of the API
    pub routes: Routes,
    /// how many requests were answered on the line
    pub count: u64,
}

/// What a turn came to.
#[derive(Clone, Copy, Debug)]
pub enum Turn {
    Went,
    Ended(Status),
}
