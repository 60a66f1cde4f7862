// Payloads of secrets.
ghost use Rattle.std.specs.Prelude.{◌≡◌};
ghost use Rattle.kms_world.specs.Media.{word_of};

use crate::Bytes;

/// The media type of a payload.
#[derive(Clone, Copy, Debug, PartialEq, Eq)]
pub enum Media {
    /// `text/plain`, in UTF-8
    TextPlain,
    /// `application/octet-stream`
    OctetStream,
}

impl Media {
    /// The media type as HTTP and JSON write it.
    pub const fn word(self) -> &'static str
        ensures { result.now ≡ word_of self }
    {
        match self {
            Media::TextPlain => "text/plain",
            Media::OctetStream => "application/octet-stream",
        }
    }
}

/// What a secret keeps secret: 1 to 20,000 bytes of a media type.
#[derive(Drop, Debug)]
pub struct Payload {
    pub media: Media,
    pub bytes: Bytes,
}
