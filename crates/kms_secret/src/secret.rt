// Bodies of new secrets.
ghost use Rattle.std.specs.Prelude.{◌≡◌, Ok};
ghost use Rattle.kms_world.specs.Checked.{IsUnlessNoMemory};
ghost use Rattle.kms_secret.specs.Secret as spec;

use crate::fields::{expiration, optional_bit_length, optional_text};
use crate::media::media_of;
use crate::payload::{BAD_PAYLOAD, copied, decoded, is_base64, payload_of};
use kms_world::{Bytes, CheckFault, Field, Media, Payload, Refusal, SecretBody, SecretKind, Text};
use std::alloc::Global;

/// What a client chooses of a new secret. Texts have at most 255 bytes.
#[derive(Drop, Debug)]
pub struct NewSecret {
    pub name: Option<Text>,
    pub algorithm: Option<Text>,
    /// 1 to 32,767
    pub bit_length: Option<u16>,
    pub mode: Option<Text>,
    pub kind: SecretKind,
    /// whole seconds since 1970
    pub expiration: Option<u64>,
    pub payload: Option<Payload>,
}

fn kind_by(word: &Option<Text>) -> Result<SecretKind, CheckFault>
    ensures { IsUnlessNoMemory result (spec.kind_by word.now) }
{
    let Some(word) = word else {
        return Ok(SecretKind::Opaque);
    };
    match SecretKind::read(word.as_str().as_bytes()) {
        Some(kind) => Ok(kind),
        None => Err(CheckFault::Refused(Refusal::BadBody(Field::SecretType))),
    }
}

fn has_its_encoding(media: Media, encoding: &Option<Text>) -> bool
    ensures { result ≡ spec.has_its_encoding media encoding.now }
{
    match media {
        Media::TextPlain => encoding.is_none(),
        Media::OctetStream => match encoding {
            None => false,
            Some(word) => is_base64(word),
        },
    }
}

// The bytes of a payload that is a text in JSON.
fn text_bytes(alloc: Global, media: Media, text: &Text) -> Result<Option<Bytes>, CheckFault>
    ensures { IsUnlessNoMemory result (Ok (spec.text_bytes media text.now)) }
{
    match media {
        Media::TextPlain => copied(alloc, text.as_str().as_bytes()),
        Media::OctetStream => decoded(alloc, text.as_str().as_bytes()),
    }
}

// The payload of a text that is there.
fn text_payload(
    alloc: Global,
    text: &Text,
    content_type: &Option<Text>,
    encoding: &Option<Text>,
) -> Result<Payload, CheckFault>
    ensures { IsUnlessNoMemory result (spec.text_payload text.now content_type.now encoding.now) }
{
    if text.as_str().is_empty() {
        return Err(BAD_PAYLOAD);
    }
    let Some(media) = media_of(content_type) else {
        return Err(CheckFault::Refused(Refusal::BadBody(Field::PayloadContentType)));
    };
    if !has_its_encoding(media, encoding) {
        return Err(CheckFault::Refused(Refusal::BadBody(Field::PayloadContentEncoding)));
    }
    let bytes = text_bytes(alloc, media, text)?;
    payload_of(media, bytes)
}

fn payload_by(
    alloc: Global,
    text: &Option<Text>,
    content_type: &Option<Text>,
    encoding: &Option<Text>,
) -> Result<Option<Payload>, CheckFault>
    ensures { IsUnlessNoMemory result (spec.payload_by text.now content_type.now encoding.now) }
{
    match text {
        Some(text) => Ok(Some(text_payload(alloc, text, content_type, encoding)?)),
        None if content_type.is_some() || encoding.is_some() => Err(BAD_PAYLOAD),
        None => Ok(None),
    }
}

/// The secret that a body asks for at this moment, in whole seconds since 1970. The error is the first rule that the body
/// breaks, in the order of its fields: name, algorithm and mode have at most 255 bytes; the bit length is 1 to 32,767; the
/// type is one of the six, and opaque where it is absent; the expiration is a time (`read_time`) later than the moment; the
/// payload isn't empty, has a media type, and is in base64 exactly where it is bytes; without a payload there are neither
/// a media type nor an encoding. Then base64 is the standard alphabet's with padding (RFC 4648 section 4), and the
/// payload has at most 20,000 bytes (`PayloadTooLong`). Of the body's memory nothing is kept.
pub fn check_secret(alloc: Global, body: &SecretBody, moment: u64) -> Result<NewSecret, CheckFault>
    ensures { IsUnlessNoMemory result (spec.checked_secret body.now moment) }
{
    Ok(NewSecret {
        name: optional_text(Field::Name, &body.name)?,
        algorithm: optional_text(Field::Algorithm, &body.algorithm)?,
        bit_length: optional_bit_length(body.bit_length)?,
        mode: optional_text(Field::Mode, &body.mode)?,
        kind: kind_by(&body.secret_type)?,
        expiration: expiration(&body.expiration, moment)?,
        payload: payload_by(
            alloc,
            &body.payload,
            &body.payload_content_type,
            &body.payload_content_encoding,
        )?,
    })
}
