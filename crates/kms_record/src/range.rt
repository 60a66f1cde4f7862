// Whether fields are in their ranges.
ghost use Rattle.std.specs.Prelude.{◌≡◌, ◌≤◌, ◌<◌, ◌^◌, ◌↔◌, length, IsTrue, IfSome};
ghost use Rattle.kms_record.specs.Fields.{IsShort, IsBitLength, IsToken};
ghost use Rattle.kms_world.specs.Times.{end_of_times};

use kms_world::{Bytes, Name, Text};

/// The first second of the year 10000, in seconds since 1970.
const END_OF_TIMES: u64 = 253_402_300_800;

/// It is the count of an id.
pub fn is_id(count: u64) -> bool
    ensures { IsTrue result ↔ (count < 2 ^ 62) }
{
    count < 1 << 62
}

/// A name has at most 64 bytes.
pub fn is_short_name(name: &Name) -> bool
    ensures { IsTrue result ↔ (length name.now ≤ 64) }
{
    name.as_bytes().len() <= 64
}

/// It is a time that has a text.
pub fn is_time(time: u64) -> bool
    ensures { IsTrue result ↔ (time < end_of_times) }
{
    time < END_OF_TIMES
}

/// Where there is a time, it has a text.
pub fn is_expiration(time: Option<u64>) -> bool
    ensures { IsTrue result ↔ IfSome time (λ t. t < end_of_times) }
{
    match time {
        None => true,
        Some(time) => is_time(time),
    }
}

/// Where there is a text, it has at most 255 bytes.
pub fn is_short(text: &Option<Text>) -> bool
    ensures { IsTrue result ↔ IfSome text.now IsShort }
{
    match text {
        None => true,
        Some(text) => is_short_text(text),
    }
}

/// A length in bits is 1 to 32,767.
pub fn is_bit_length(bits: u16) -> bool
    ensures { IsTrue result ↔ IsBitLength bits }
{
    1 <= bits && bits <= 32_767
}

/// Where there is a length in bits, it is 1 to 32,767.
pub fn is_optional_bit_length(bits: Option<u16>) -> bool
    ensures { IsTrue result ↔ IfSome bits IsBitLength }
{
    match bits {
        None => true,
        Some(bits) => is_bit_length(bits),
    }
}

/// A text has at most 255 bytes.
pub fn is_short_text(text: &Text) -> bool
    ensures { IsTrue result ↔ IsShort text.now }
{
    text.as_str().len() <= 255
}

/// A token has 100 to 26,764 bytes.
pub fn is_token(token: &Bytes) -> bool
    ensures { IsTrue result ↔ IsToken token.now }
{
    100 <= token.as_slice().len() && token.as_slice().len() <= 26_764
}
