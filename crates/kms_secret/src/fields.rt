// The rules of single fields, which the bodies of secrets and of orders share.
ghost use Rattle.std.specs.Prelude.{◌≡◌, Ok};
ghost use Rattle.kms_world.specs.Checked.{IsUnlessNoMemory};
ghost use Rattle.kms_secret.specs.Fields as spec;

use kms_text::read_time;
use kms_world::{CheckFault, Field, Refusal, Text};

/// How many bytes a text has at most.
pub const MOST_BYTES: usize = 255;

const LONGEST_KEY: i128 = 32_767;

/// A copy of a text.
pub fn text_copied(text: &Text) -> Result<Text, CheckFault>
    ensures { IsUnlessNoMemory result (Ok text.now) }
{
    match text.clone() {
        Ok(copy) => Ok(copy),
        Err(_) => Err(CheckFault::NoMemory),
    }
}

pub fn optional_text(field: Field, text: &Option<Text>) -> Result<Option<Text>, CheckFault>
    ensures { IsUnlessNoMemory result (spec.optional_text field text.now) }
{
    let Some(text) = text else {
        return Ok(None);
    };
    if text.as_str().len() > MOST_BYTES {
        return Err(CheckFault::Refused(Refusal::BadBody(field)));
    }
    Ok(Some(text_copied(text)?))
}

pub fn required_text(field: Field, text: &Option<Text>) -> Result<Text, CheckFault>
    ensures { IsUnlessNoMemory result (spec.required_text field text.now) }
{
    let Some(text) = text else {
        return Err(CheckFault::Refused(Refusal::BadBody(field)));
    };
    if text.as_str().is_empty() || text.as_str().len() > MOST_BYTES {
        return Err(CheckFault::Refused(Refusal::BadBody(field)));
    }
    text_copied(text)
}

// The bit length that a number is.
fn bit_length_of(number: i128) -> Option<u16>
    ensures { result ≡ spec.bit_length_of number }
{
    if number < 1 || LONGEST_KEY < number {
        return None;
    }
    Some(number as u16)
}

pub fn optional_bit_length(number: Option<i128>) -> Result<Option<u16>, CheckFault>
    ensures { IsUnlessNoMemory result (spec.optional_bit_length number) }
{
    match number {
        None => Ok(None),
        Some(_) => Ok(Some(required_bit_length(number)?)),
    }
}

pub fn required_bit_length(number: Option<i128>) -> Result<u16, CheckFault>
    ensures { IsUnlessNoMemory result (spec.required_bit_length number) }
{
    let Some(number) = number else {
        return Err(CheckFault::Refused(Refusal::BadBody(Field::BitLength)));
    };
    match bit_length_of(number) {
        Some(bits) => Ok(bits),
        None => Err(CheckFault::Refused(Refusal::BadBody(Field::BitLength))),
    }
}

// The time that a text shows, if it is later than the moment.
fn later_time(text: &Text, moment: u64) -> Option<u64>
    ensures { result ≡ spec.later_time text.now moment }
{
    let time = read_time(text.as_str().as_bytes())?;
    if time > moment { Some(time) } else { None }
}

pub fn expiration(text: &Option<Text>, moment: u64) -> Result<Option<u64>, CheckFault>
    ensures { IsUnlessNoMemory result (spec.expiration_by text.now moment) }
{
    let Some(text) = text else {
        return Ok(None);
    };
    match later_time(text, moment) {
        Some(time) => Ok(Some(time)),
        None => Err(CheckFault::Refused(Refusal::BadBody(Field::Expiration))),
    }
}
