// Replies, before they are bytes of a connection.
use crate::{Allow, Bytes};

/// The media type of a reply's body.
#[derive(Clone, Copy, Debug, PartialEq, Eq)]
pub enum Media2 {
    /// `application/json`
    Json,
    /// `text/plain`
    TextPlain,
    /// `application/octet-stream`
    OctetStream,
}

/// A reply: an HTTP status (RFC 9110 section 15), the type of its body, the methods of the path with status 405, and
/// the body.
#[derive(Drop, Debug)]
pub struct Reply {
    pub status: u16,
    pub media: Option<Media2>,
    pub allow: Option<Allow>,
    pub body: Bytes,
}
