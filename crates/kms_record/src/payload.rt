// The payloads of secrets.
ghost use Rattle.std.specs.Prelude.{◌≡◌};
ghost use Rattle.kms_record.specs.Reading.{Gives};
ghost use Rattle.kms_record.specs.PayloadReading.{token_replaced_at, payload_put_at};

use crate::cursor::Cursor;
use crate::read_error::ReadError;
use crate::window::Window;
use crate::{fields, range, spell};
use kms_world::{Bytes, Media};
use std::alloc::Global;

/// A secret's token gets another in its place, for the same payload.
#[derive(Drop, Debug)]
pub struct TokenReplaced {
    /// the count of the secret's id under the store's tag, below 2^62
    pub secret: u64,
    /// the number of the key that it is under
    pub number: u32,
    /// 100 to 26,764 bytes
    pub token: Bytes,
}

/// Reads the fields.
#[tactic(auto, unfolding(crate::specs::PayloadReading::token_replaced_at))]
pub fn read_token_replaced(
    alloc: Global,
    cursor: &mut Cursor<'_>,
) -> Result<TokenReplaced, ReadError>
    ensures { Gives (λ x. (x, cursor.new)) result (token_replaced_at cursor.old) }
{
    Ok(TokenReplaced {
        secret: fields::id(cursor)?,
        number: cursor.four_bytes()?,
        token: fields::token(alloc, cursor)?,
    })
}

impl TokenReplaced {
    ghost use Rattle.std.specs.Prelude.{◌≡◌, ◌↔◌, IsTrue};
    ghost use Rattle.kms_record.specs.Window.{shown};
    ghost use Rattle.kms_record.specs.Payload.{token_replaced_bytes, IsTokenReplacedInRange, IsTokenReplacedTyped};

    /// Its numbers and lengths are in their ranges.
    pub fn is_in_range(&self) -> bool
        ensures { IsTrue result ↔ IsTokenReplacedInRange self.now }
    {
        range::is_id(self.secret) && range::is_token(&self.token)
    }

    /// Writes the fields.
    #[tactic(auto, using(crate::proofs::WindowLaws::shown_twice), unfolding(crate::specs::Payload::token_replaced_bytes))]
    pub(crate) fn write(&self, out: &mut Window)
        requires { IsTokenReplacedInRange self.now }
        ensures spelled { out.new ≡ shown out.old (token_replaced_bytes self.now) }
        ensures typed { IsTokenReplacedTyped self.now }
    {
        spell::number(out, self.secret);
        spell::long_number(out, self.number);
        spell::token(out, &self.token);
    }
}

/// A secret gets its payload.
#[derive(Drop, Debug)]
pub struct PayloadPut {
    /// the count of the secret's id under the store's tag, below 2^62
    pub secret: u64,
    /// in seconds since 1970, below the year 10000
    pub updated: u64,
    pub media: Media,
    /// the number of the key that the token is under
    pub number: u32,
    /// 100 to 26,764 bytes
    pub token: Bytes,
}

/// Reads the fields.
#[tactic(auto, unfolding(crate::specs::PayloadReading::payload_put_at))]
pub fn read_payload_put(alloc: Global, cursor: &mut Cursor<'_>) -> Result<PayloadPut, ReadError>
    ensures { Gives (λ x. (x, cursor.new)) result (payload_put_at cursor.old) }
{
    Ok(PayloadPut {
        secret: fields::id(cursor)?,
        updated: fields::time(cursor)?,
        media: fields::media(cursor)?,
        number: cursor.four_bytes()?,
        token: fields::token(alloc, cursor)?,
    })
}

impl PayloadPut {
    ghost use Rattle.std.specs.Prelude.{◌≡◌, ◌↔◌, IsTrue};
    ghost use Rattle.kms_record.specs.Window.{shown};
    ghost use Rattle.kms_record.specs.Payload.{payload_put_bytes, IsPayloadPutInRange, IsPayloadPutTyped};

    /// Its numbers and lengths are in their ranges.
    pub fn is_in_range(&self) -> bool
        ensures { IsTrue result ↔ IsPayloadPutInRange self.now }
    {
        range::is_id(self.secret) && range::is_time(self.updated) && range::is_token(&self.token)
    }

    /// Writes the fields.
    #[tactic(auto, using(crate::proofs::WindowLaws::shown_twice), unfolding(crate::specs::Payload::payload_put_bytes))]
    pub(crate) fn write(&self, out: &mut Window)
        requires { IsPayloadPutInRange self.now }
        ensures spelled { out.new ≡ shown out.old (payload_put_bytes self.now) }
        ensures typed { IsPayloadPutTyped self.now }
    {
        spell::number(out, self.secret);
        spell::number(out, self.updated);
        spell::media(out, self.media);
        spell::long_number(out, self.number);
        spell::token(out, &self.token);
    }
}
