// Payloads of secrets: their bytes, and those that a request puts.
ghost use Rattle.std.specs.Prelude.{◌≡◌, Ok, Some};
ghost use Rattle.std.specs.Str.{is_utf8};
ghost use Rattle.kms_world.specs.Checked.{IsUnlessNoMemory};
ghost use Rattle.kms_secret.specs.Payload as spec;

use crate::media::media_of;
use base64::DecodeAllocError;
use base64::engine::general_purpose::STANDARD;
use kms_world::{Bytes, CheckFault, Field, Media, Payload, PutShape, Refusal, Text};
use std::alloc::Global;

/// How many bytes a payload has at most.
const MOST_BYTES: usize = 20_000;

/// The refusal of a payload.
pub const BAD_PAYLOAD: CheckFault = CheckFault::Refused(Refusal::BadBody(Field::Payload));

/// A copy of the bytes.
pub fn copied(alloc: Global, bytes: &[u8]) -> Result<Option<Bytes>, CheckFault>
    ensures { IsUnlessNoMemory result (Ok (Some bytes.now)) }
{
    match Bytes::of(alloc, bytes) {
        Ok(copy) => Ok(Some(copy)),
        Err(_) => Err(CheckFault::NoMemory),
    }
}

/// The bytes that a text encodes by the standard alphabet, with padding and zero trailing bits (RFC 4648 section 4).
/// `Ok(None)` exactly where it is no such text. Takes memory once, for the bytes.
pub fn decoded(alloc: Global, text: &[u8]) -> Result<Option<Bytes>, CheckFault>
    ensures { IsUnlessNoMemory result (Ok (spec.decoded text.now)) }
{
    match STANDARD.decode(alloc, text) {
        Ok(bytes) => Ok(Some(Bytes::from_vec(bytes))),
        Err(DecodeAllocError::DecodeError(_)) => Ok(None),
        Err(DecodeAllocError::OutOfMemory) => Err(CheckFault::NoMemory),
    }
}

/// Whether a word is the one for that encoding.
pub fn is_base64(word: &Text) -> bool
    ensures { result ≡ spec.is_base64 word.now }
{
    word.as_str() == "base64"
}

/// The payload of bytes that were found.
pub fn payload_of(media: Media, bytes: Option<Bytes>) -> Result<Payload, CheckFault>
    ensures { IsUnlessNoMemory result (spec.payload_of media bytes) }
{
    let Some(bytes) = bytes else {
        return Err(BAD_PAYLOAD);
    };
    if bytes.as_slice().is_empty() {
        return Err(BAD_PAYLOAD);
    }
    if bytes.as_slice().len() > MOST_BYTES {
        return Err(CheckFault::Refused(Refusal::PayloadTooLong));
    }
    Ok(Payload { media, bytes })
}

fn takes_encoding(media: Media, encoding: &Option<Text>) -> bool
    ensures { result ≡ spec.takes_encoding media encoding.now }
{
    let Some(word) = encoding else {
        return true;
    };
    match media {
        Media::TextPlain => false,
        Media::OctetStream => is_base64(word),
    }
}

// Whether bytes are UTF-8.
fn is_text(bytes: &[u8]) -> bool
    ensures { result ≡ is_utf8 bytes.now }
{
    match std::str::from_utf8(bytes) {
        Ok(_) => true,
        Err(_) => false,
    }
}

// The bytes that are put: of a text its UTF-8.
fn put_bytes(
    alloc: Global,
    media: Media,
    is_encoded: bool,
    body: &[u8],
) -> Result<Option<Bytes>, CheckFault>
    ensures { IsUnlessNoMemory result (Ok (spec.put_bytes media is_encoded body.now)) }
{
    match media {
        Media::TextPlain => {
            if is_text(body) {
                copied(alloc, body)
            } else {
                Ok(None)
            }
        }
        Media::OctetStream => {
            if is_encoded {
                decoded(alloc, body)
            } else {
                copied(alloc, body)
            }
        }
    }
}

/// The payload that a request puts as its body. The error is the first rule that the request breaks: its Content-Type is
/// a payload's media type and its Content-Encoding, where there is one, is `base64` of bytes (`WrongType`); of a text the
/// body is UTF-8, of base64 it is the standard alphabet's with padding (RFC 4648 section 4), and there is at least one
/// byte (`BadBody` of the payload); there are at most 20,000 (`PayloadTooLong`).
pub fn check_payload(alloc: Global, shape: &PutShape, body: &[u8]) -> Result<Payload, CheckFault>
    ensures { IsUnlessNoMemory result (spec.checked_payload shape.now body.now) }
{
    let Some(media) = media_of(&shape.content_type) else {
        return Err(CheckFault::Refused(Refusal::WrongType));
    };
    if !takes_encoding(media, &shape.content_encoding) {
        return Err(CheckFault::Refused(Refusal::WrongType));
    }
    let bytes = put_bytes(alloc, media, shape.content_encoding.is_some(), body)?;
    payload_of(media, bytes)
}
