// What a reader answers.
use crate::message::Message;
use kms_world::Refusal;

/// What stands at the front of the bytes that a reader holds.
#[derive(Drop, Debug)]
pub enum MessageRead {
    Message(Message),
    /// the begin of a message, or nothing: more bytes are needed
    More,
    /// no message, whatever follows
    Bad(Refusal),
}
