// Times as texts.
ghost use Rattle.std.specs.Prelude.{◌≡◌, ◌<◌, ◌+◌, ◌*◌, length, IfSome, IsTrue};
ghost use Rattle.std.specs.Char.{is_ascii_digit};
ghost use Rattle.std.specs.List.{list_all};
ghost use Rattle.kms_text.specs.Time.{time_text_of};
ghost use Rattle.kms_text.specs.TimeForms.{has_form, local_form, day_at, second_at, local_of, are_few_digits, is_fraction, since_epoch, moment_of, read_time_of};

use crate::calendar::{date_of_day, day_of_date};
use crate::form::{is_of_form, two_digits_at};
use crate::offset::{Offset, read_offset, second_of_day, start_of_offset};

// The seconds from 0000-01-01T00:00:00 to 1970-01-01T00:00:00.
const EPOCH_SECONDS: u64 = 719_528 * 86_400;

// The first second of the year 10000, from 1970-01-01T00:00:00 on.
const END: u64 = 253_402_300_800;

// The character of a decimal digit.
fn digit(n: u64) -> u8
    requires { n < 10 }
    ensures { result ≡ 48 + n }
{
    b'0' + n as u8
}

/// The text of a moment, in seconds since 1970-01-01T00:00:00 and below 253402300800 (the year 10000):
/// `YYYY-MM-DDTHH:MM:SS`, in UTC (RFC 3339 section 5.6, without fraction and offset). Takes no memory.
pub fn time_text(moment: u64) -> [u8; 19]
    requires { moment < 253_402_300_800 }
    ensures { result ≡ time_text_of moment }
{
    let date = date_of_day((moment / 86_400) as u32);
    let (year, month, day) = (date.year as u64, date.month as u64, date.day as u64);
    let second = moment % 86_400;
    let (hour, minute, second) = (second / 3_600, second / 60 % 60, second % 60);
    [
        digit(year / 1_000),
        digit(year / 100 % 10),
        digit(year / 10 % 10),
        digit(year % 10),
        b'-',
        digit(month / 10),
        digit(month % 10),
        b'-',
        digit(day / 10),
        digit(day % 10),
        b'T',
        digit(hour / 10),
        digit(hour % 10),
        b':',
        digit(minute / 10),
        digit(minute % 10),
        b':',
        digit(second / 10),
        digit(second % 10),
    ]
}

// The number of the day that a date and time of day shows.
fn read_day(text: &[u8]) -> Option<u32>
    requires { IsTrue (has_form local_form text.now) }
    ensures value { result ≡ day_at text.now }
    ensures small { IfSome result (λ n. n < 4_000_000) }
{
    let year = u16::from(two_digits_at(text, 0)) * 100 + u16::from(two_digits_at(text, 2));
    day_of_date(year, two_digits_at(text, 5), two_digits_at(text, 8))
}

// The second of that day.
fn read_second(text: &[u8]) -> Option<u32>
    requires { IsTrue (has_form local_form text.now) }
    ensures value { result ≡ second_at text.now }
    ensures small { IfSome result (λ n. n < 86_400) }
{
    second_of_day(
        two_digits_at(text, 11),
        two_digits_at(text, 14),
        two_digits_at(text, 17),
    )
}

// The seconds from 0000-01-01T00:00:00 to the date and time of day that a text shows.
#[tactic(auto, unfolding(crate::specs::TimeForms::local_of))]
fn read_local(text: &[u8]) -> Option<u64>
    ensures value { result ≡ local_of text.now }
    ensures small { IfSome result (λ n. n < 400_000_000_000) }
{
    if !is_of_form(b"0000-00-00T00:00:00", text) {
        return None;
    }
    let day = read_day(text)?;
    let second = read_second(text)?;
    Some(u64::from(day) * 86_400 + u64::from(second))
}

// Whether each character of a text is a digit.
fn is_all_digits(text: &[u8]) -> bool
    ensures { result ≡ list_all is_ascii_digit text.now }
{
    text.iter().all(|c| c.is_ascii_digit())
}

// Whether a text is one to nine digits.
fn is_few_digits(text: &[u8]) -> bool
    ensures { result ≡ are_few_digits text.now }
{
    if text.is_empty() || text.len() > 9 {
        return false;
    }
    is_all_digits(text)
}

// Whether a text is nothing, or a point and one to nine digits.
fn is_fraction_text(text: &[u8]) -> bool
    ensures { result ≡ is_fraction text.now }
{
    match text {
        [] => true,
        [point, digits @ ..] => *point == b'.' && is_few_digits(digits),
    }
}

// The seconds from 1970 on of a time in UTC, unless it's before 1970 or after 9999.
fn moment_since_epoch(utc: u64) -> Option<u64>
    ensures value { result ≡ since_epoch utc }
    ensures before_end { IfSome result (λ moment. moment < 253_402_300_800) }
{
    if utc < EPOCH_SECONDS {
        return None;
    }
    let moment = utc - EPOCH_SECONDS;
    if moment < END { Some(moment) } else { None }
}

// The moment of a local time. One before the year 0 is before 1970 too.
fn moment_at(local: u64, offset: Offset) -> Option<u64>
    requires { local < 400_000_000_000 }
    ensures value { result ≡ moment_of local offset }
    ensures before_end { IfSome result (λ moment. moment < 253_402_300_800) }
{
    match offset {
        Offset::Ahead(seconds) => moment_since_epoch(local.saturating_sub(u64::from(seconds))),
        Offset::Behind(seconds) => moment_since_epoch(local + u64::from(seconds)),
    }
}

/// The moment that a text shows, in seconds since 1970-01-01T00:00:00 in UTC: `YYYY-MM-DDTHH:MM:SS`, then at most a point
/// and one to nine digits, which are dropped, then at most `Z`, `+HH:MM` or `-HH:MM` with hours to 23 and minutes to 59
/// (a profile of RFC 3339 section 5.6; without an offset it is UTC). `None` exactly where the text is off this form, there
/// is no such date or time of day (second 60 is none), or the moment is before 1970 or after 9999-12-31T23:59:59. Takes no
/// memory.
#[tactic(auto, unfolding(crate::specs::TimeForms::read_time_of))]
pub fn read_time(text: &[u8]) -> Option<u64>
    ensures value { result ≡ read_time_of text.now }
    ensures before_end { IfSome result (λ moment. moment < 253_402_300_800) }
{
    if text.len() < 19 {
        return None;
    }
    let (front, rest) = text.split_at(19);
    let (fraction, offset) = rest.split_at(start_of_offset(rest));
    if !is_fraction_text(fraction) {
        return None;
    }
    let local = read_local(front)?;
    moment_at(local, read_offset(offset)?)
}
