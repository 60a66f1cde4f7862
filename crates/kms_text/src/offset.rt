// Offsets from UTC.
ghost use Rattle.std.specs.Prelude.{◌≡◌, ◌≤◌, ◌<◌, ◌+◌, ◌^◌, length, IfSome};
ghost use Rattle.kms_text.specs.TimeForms.{second_of, offset_start, offset_of};

use crate::form::{is_of_form, two_digits_at};

// How many seconds a local time is ahead of UTC or behind it.
#[derive(Clone, Copy)]
pub enum Offset {
    Ahead(u32),
    Behind(u32),
}

// The second of a day, or None where there is no such time of day.
pub fn second_of_day(hour: u8, minute: u8, second: u8) -> Option<u32>
    ensures value { result ≡ second_of hour minute second }
    ensures small { IfSome result (λ n. n < 86_400) }
{
    if hour < 24 && minute < 60 && second < 60 {
        Some(u32::from(hour) * 3_600 + u32::from(minute) * 60 + u32::from(second))
    } else {
        None
    }
}

// Where the offset begins in what stands behind the time of day.
#[tactic(auto, unfolding(crate::specs::TimeForms::offset_start))]
pub fn start_of_offset(rest: &[u8]) -> usize
    ensures value { result ≡ offset_start rest.now }
    ensures within { result ≤ length rest.now }
{
    if rest.ends_with(b"Z") {
        return rest.len() - 1;
    }
    if rest.len() >= 6 && (rest[rest.len() - 6] == b'+' || rest[rest.len() - 6] == b'-') {
        return rest.len() - 6;
    }
    rest.len()
}

// The offset that a text shows: nothing and Z for UTC, or a sign, hours and minutes.
#[tactic(auto, unfolding(crate::specs::TimeForms::offset_of))]
pub fn read_offset(text: &[u8]) -> Option<Offset>
    ensures value { result ≡ offset_of text.now }
{
    if text.is_empty() || text == b"Z".as_slice() {
        return Some(Offset::Ahead(0));
    }
    if is_of_form(b"+00:00", text) {
        return Some(Offset::Ahead(second_of_day(
            two_digits_at(text, 1),
            two_digits_at(text, 4),
            0,
        )?));
    }
    if is_of_form(b"-00:00", text) {
        return Some(Offset::Behind(second_of_day(
            two_digits_at(text, 1),
            two_digits_at(text, 4),
            0,
        )?));
    }
    None
}
