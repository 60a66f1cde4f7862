// The fields of changes, read.
ghost use Rattle.std.specs.Prelude.{◌≡◌};
ghost use Rattle.kms_record.specs.Reading.{Finds, Gives, id_at, time_at, bit_length_at, short_text_at, text_at, long_text_at, token_at, taken, name_at, secret_kind_at, container_kind_at, media_at, cause_at, mark_at, option_at, list_count_at};

use crate::cursor::Cursor;
use crate::range;
use crate::read_error::{Malformed, ReadError};
use kms_world::{Bytes, Cause, ContainerKind, Media, Name, SecretKind, Text};
use std::alloc::Global;

/// The count of an id under the store's tag.
pub fn id(cursor: &mut Cursor<'_>) -> Result<u64, Malformed>
    ensures { Finds (λ x. (x, cursor.new)) result (id_at cursor.old) }
{
    let count = cursor.eight_bytes()?;
    if range::is_id(count) {
        Ok(count)
    } else {
        Err(Malformed)
    }
}

/// A time in whole seconds since 1970.
pub fn time(cursor: &mut Cursor<'_>) -> Result<u64, Malformed>
    ensures { Finds (λ x. (x, cursor.new)) result (time_at cursor.old) }
{
    let time = cursor.eight_bytes()?;
    if range::is_time(time) {
        Ok(time)
    } else {
        Err(Malformed)
    }
}

/// A length in bits, 1 to 32,767.
pub fn bit_length(cursor: &mut Cursor<'_>) -> Result<u16, Malformed>
    ensures { Finds (λ x. (x, cursor.new)) result (bit_length_at cursor.old) }
{
    let bits = cursor.two_bytes()?;
    if range::is_bit_length(bits) {
        Ok(bits)
    } else {
        Err(Malformed)
    }
}

#[tactic(auto, unfolding(crate::specs::Reading::text_at))]
fn text_bytes<'a>(cursor: &mut Cursor<'a>) -> Result<&'a [u8], Malformed>
    ensures { Finds (λ x. (x.now, cursor.new)) result (text_at cursor.old) }
{
    let len = cursor.two_bytes()?;
    cursor.take(len as usize)
}

/// UTF-8 text of at most 255 bytes.
pub fn short_text(alloc: Global, cursor: &mut Cursor<'_>) -> Result<Text, ReadError>
    ensures { Gives (λ x. (x, cursor.new)) result (short_text_at cursor.old) }
{
    let bytes = text_bytes(cursor)?;
    if 255 < bytes.len() {
        return Err(ReadError::Malformed);
    }
    match std::str::from_utf8(bytes) {
        Ok(text) => Ok(Text::of(alloc, text)?),
        Err(_) => Err(ReadError::Malformed),
    }
}

/// The name of a project or a user.
pub fn name(cursor: &mut Cursor<'_>) -> Result<Name, Malformed>
    ensures { Finds (λ x. (x, cursor.new)) result (name_at cursor.old) }
{
    match Name::read(text_bytes(cursor)?) {
        Some(name) => Ok(name),
        None => Err(Malformed),
    }
}

/// A secret's kind.
#[tactic(auto, unfolding(crate::specs::Reading::coded_at))]
pub fn secret_kind(cursor: &mut Cursor<'_>) -> Result<SecretKind, Malformed>
    ensures { Finds (λ x. (x, cursor.new)) result (secret_kind_at cursor.old) }
{
    match cursor.byte()? {
        0 => Ok(SecretKind::Symmetric),
        1 => Ok(SecretKind::Public),
        2 => Ok(SecretKind::Private),
        3 => Ok(SecretKind::Passphrase),
        4 => Ok(SecretKind::Certificate),
        5 => Ok(SecretKind::Opaque),
        _ => Err(Malformed),
    }
}

/// A container's kind.
#[tactic(auto, unfolding(crate::specs::Reading::coded_at))]
pub fn container_kind(cursor: &mut Cursor<'_>) -> Result<ContainerKind, Malformed>
    ensures { Finds (λ x. (x, cursor.new)) result (container_kind_at cursor.old) }
{
    match cursor.byte()? {
        0 => Ok(ContainerKind::Generic),
        1 => Ok(ContainerKind::Rsa),
        2 => Ok(ContainerKind::Certificate),
        _ => Err(Malformed),
    }
}

/// The media type of a payload.
#[tactic(auto, unfolding(crate::specs::Reading::coded_at))]
pub fn media(cursor: &mut Cursor<'_>) -> Result<Media, Malformed>
    ensures { Finds (λ x. (x, cursor.new)) result (media_at cursor.old) }
{
    match cursor.byte()? {
        0 => Ok(Media::TextPlain),
        1 => Ok(Media::OctetStream),
        _ => Err(Malformed),
    }
}

/// Why an order failed.
#[tactic(auto, unfolding(crate::specs::Reading::coded_at))]
pub fn cause(cursor: &mut Cursor<'_>) -> Result<Cause, Malformed>
    ensures { Finds (λ x. (x, cursor.new)) result (cause_at cursor.old) }
{
    match cursor.byte()? {
        0 => Ok(Cause::Unsupported),
        1 => Ok(Cause::QuotaReached),
        2 => Ok(Cause::IdsSpent),
        _ => Err(Malformed),
    }
}

/// The bytes of a wrapped key.
pub fn wrapped(cursor: &mut Cursor<'_>) -> Result<[u8; 140], Malformed>
    ensures { Finds (λ x. (x, cursor.new)) result (taken 140 cursor.old) }
{
    let bytes = cursor.take(140)?;
    let mut wrapped = [0; 140];
    wrapped.copy_from_slice(bytes);
    Ok(wrapped)
}

#[tactic(auto, unfolding(crate::specs::Reading::long_text_at))]
fn long_bytes<'a>(cursor: &mut Cursor<'a>) -> Result<&'a [u8], Malformed>
    ensures { Finds (λ x. (x.now, cursor.new)) result (long_text_at cursor.old) }
{
    let len = cursor.four_bytes()?;
    cursor.take(len as usize)
}

/// A token of 100 to 26,764 bytes.
pub fn token(alloc: Global, cursor: &mut Cursor<'_>) -> Result<Bytes, ReadError>
    ensures { Gives (λ x. (x, cursor.new)) result (token_at cursor.old) }
{
    let bytes = long_bytes(cursor)?;
    if bytes.len() < 100 || 26_764 < bytes.len() {
        return Err(ReadError::Malformed);
    }
    Ok(Bytes::of(alloc, bytes)?)
}

/// How many values a list has, at most 100.
pub fn list_count(cursor: &mut Cursor<'_>) -> Result<u8, Malformed>
    ensures { Finds (λ x. (x, cursor.new)) result (list_count_at cursor.old) }
{
    let count = cursor.byte()?;
    if count <= 100 {
        Ok(count)
    } else {
        Err(Malformed)
    }
}

/// Yes or no; before an optional value, whether it follows.
#[tactic(auto, unfolding(crate::specs::Reading::mark_at))]
pub fn mark(cursor: &mut Cursor<'_>) -> Result<bool, Malformed>
    ensures { Finds (λ x. (x, cursor.new)) result (mark_at cursor.old) }
{
    match cursor.byte()? {
        0 => Ok(false),
        1 => Ok(true),
        _ => Err(Malformed),
    }
}

/// Maybe a text of at most 255 bytes.
#[tactic(auto, unfolding(crate::specs::Reading::option_at))]
pub fn optional_text(alloc: Global, cursor: &mut Cursor<'_>) -> Result<Option<Text>, ReadError>
    ensures { Gives (λ x. (x, cursor.new)) result (option_at short_text_at cursor.old) }
{
    if !mark(cursor)? {
        return Ok(None);
    }
    Ok(Some(short_text(alloc, cursor)?))
}

/// Maybe a length in bits.
#[tactic(auto, unfolding(crate::specs::Reading::option_at))]
pub fn optional_bit_length(cursor: &mut Cursor<'_>) -> Result<Option<u16>, Malformed>
    ensures { Finds (λ x. (x, cursor.new)) result (option_at bit_length_at cursor.old) }
{
    if !mark(cursor)? {
        return Ok(None);
    }
    Ok(Some(bit_length(cursor)?))
}

/// Maybe a time.
#[tactic(auto, unfolding(crate::specs::Reading::option_at))]
pub fn optional_time(cursor: &mut Cursor<'_>) -> Result<Option<u64>, Malformed>
    ensures { Finds (λ x. (x, cursor.new)) result (option_at time_at cursor.old) }
{
    if !mark(cursor)? {
        return Ok(None);
    }
    Ok(Some(time(cursor)?))
}
