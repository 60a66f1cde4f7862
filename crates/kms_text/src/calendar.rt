// Dates of the calendar and their day numbers.
ghost use Rattle.std.specs.Prelude.{◌≡◌, ◌<◌, pos, ◌≤ℤ◌, ◌+ℤ◌, MatchOption, IfSome};
ghost use Rattle.jiff_core.specs.Date.{epoch_day, IsYmd};
ghost use Rattle.jiff_core.specs.Calendar.{IsDate};
ghost use Rattle.kms_text.specs.Calendar.{date_of, day_of};

use jiff_core::civil::Date;

// The number of 1970-01-01, from 0 for 0000-01-01.
const EPOCH: i32 = 719_528;

// A year, a month from 1 and a day of the month from 1.
#[derive(Clone, Copy)]
pub struct Civil {
    pub year: u16,
    pub month: u8,
    pub day: u8,
}

// The same date as jiff's.
fn jiff_date(days: u32) -> Date
    requires { days < 2_932_897 }
    ensures { epoch_day result ≡ pos days }
{
    Date::from_unix_epoch_day(i64::from(days)).unwrap()
}

// The date so many days after 1970-01-01, before the year 10000.
pub fn date_of_day(days: u32) -> Civil
    requires { days < 2_932_897 }
    ensures { result ≡ date_of days }
{
    let date = jiff_date(days);
    Civil {
        year: date.year as u16,
        month: date.month,
        day: date.day,
    }
}

// The same date as jiff's, if the calendar has it.
fn jiff_date_of(year: u16, month: u8, day: u8) -> Option<Date>
    requires year { year < 10_000 }
    requires month { month < 100 }
    requires day { day < 100 }
    ensures { MatchOption result (¬ IsDate (pos year) (pos month) (pos day)) (IsYmd (pos year) (pos month) (pos day)) }
{
    match Date::new(year as i16, month as i8, day as i8) {
        Ok(date) => Some(date),
        Err(_) => None,
    }
}

// The number of a date's day, from 0 for 0000-01-01.
fn number_of_date(date: Date) -> u32
    requires { pos 0 ≤ℤ (epoch_day date +ℤ pos 719_528) }
    ensures { pos result ≡ epoch_day date +ℤ pos 719_528 }
{
    (date.to_unix_epoch_day() + EPOCH) as u32
}

// The number of a date's day, from 0 for 0000-01-01, if the calendar has that date.
pub fn day_of_date(year: u16, month: u8, day: u8) -> Option<u32>
    requires year { year < 10_000 }
    requires month { month < 100 }
    requires day { day < 100 }
    ensures value { result ≡ day_of year month day }
    ensures small { IfSome result (λ n. n < 4_000_000) }
{
    match jiff_date_of(year, month, day) {
        Some(date) => Some(number_of_date(date)),
        None => None,
    }
}
