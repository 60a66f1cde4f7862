// How many bytes a body has, and whether the line ends after the message.
ghost use Rattle.std.specs.Prelude.{◌≡◌, ◌≤◌, ◌+◌, map, length, min, ℕ, List, IfOk};
ghost use Rattle.std.specs.List.{list_all};
ghost use Rattle.kms_http.specs.Fields.{IsOccurrence};
ghost use Rattle.kms_http.specs.Framing as spec;

use crate::fields::{Fields, Occurrence, lookup};
use kms_world::Refusal;

fn is_digit(b: u8) -> bool
    ensures { result ≡ spec.is_digit b }
{
    b'0' <= b && b <= b'9'
}

fn all_digits(value: &[u8]) -> bool
    ensures { result ≡ list_all spec.is_digit value.now }
{
    value.iter().all(|b| is_digit(*b))
}

fn is_number(value: &[u8]) -> bool
    ensures { result ≡ spec.is_number value.now }
{
    0 < value.len() && all_digits(value)
}

/// A number above the limit counts as this one.
const OVER: usize = 65537;

// The number that digits show, up to the first above the limit.
fn number(digits: &[u8]) -> usize
    ensures { result ≡ min (spec.number 0 digits.now) (spec.body_limit + 1) }
{
    let mut value: usize = 0;
    for b in digits {
        value = usize::min(value * 10 + b.saturating_sub(48) as usize, OVER);
    }
    value
}

fn wants_length(method: &[u8]) -> bool
    ensures { result ≡ spec.wants_length method.now }
{
    method == b"POST".as_slice() || method == b"PUT".as_slice() || method == b"PATCH".as_slice()
}

#[tactic(auto, unfolding(crate::specs::Framing::size_by))]
fn size_of(method: &[u8], lengths: Occurrence) -> Result<usize, Refusal>
    ensures bound { IfOk result (λ size. size ≤ spec.body_limit) }
    ensures value { (values : List (List ℕ)) → IsOccurrence lengths.entry values → result ≡ spec.size_by method.now values }
{
    match lengths {
        Occurrence::Absent => {
            if wants_length(method) {
                Err(Refusal::LengthRequired)
            } else {
                Ok(0)
            }
        }
        Occurrence::Once(value) => {
            if !is_number(value) {
                return Err(Refusal::BadMessage);
            }
            let size = number(value);
            if size == OVER {
                Err(Refusal::BodyTooLong)
            } else {
                Ok(size)
            }
        }
        Occurrence::Repeated => Err(Refusal::BadMessage),
    }
}

/// How many bytes the body of a request with these fields has.
#[tactic(auto, unfolding(crate::specs::Framing::framed_by))]
pub fn framing(method: &[u8], fields: &Fields) -> Result<usize, Refusal>
    ensures bound { IfOk result (λ size. size ≤ spec.body_limit) }
    ensures value { result ≡ spec.framing method.now fields.now }
{
    match lookup(fields, b"transfer-encoding") {
        Occurrence::Absent => size_of(method, lookup(fields, b"content-length")),
        Occurrence::Once(_) => Err(Refusal::LengthRequired),
        Occurrence::Repeated => Err(Refusal::LengthRequired),
    }
}
