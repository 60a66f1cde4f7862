// Messages.
use crate::fields::Fields;
use kms_world::{Bytes, Text};

/// The head of a request (RFC 9112 sections 3 and 5). Fields stand in the order of the head, each with its value without
/// the white space around it.
#[derive(Debug, Drop)]
pub struct Head {
    pub method: Text,
    pub target: Text,
    pub fields: Fields,
}

/// A request as it stands in a stream: its head and its body. Where `close`, the line ends after its reply.
#[derive(Debug, Drop)]
pub struct Message {
    pub head: Head,
    pub body: Bytes,
    pub close: bool,
}
