// What a line is served.
use crate::message::Message;
use kms_world::Refusal;

/// What is served at a place of a stream.
#[derive(Drop, Debug)]
pub enum Served {
    Asking(Message),
    /// why the bytes there are no message
    Unreadable(Refusal),
}
