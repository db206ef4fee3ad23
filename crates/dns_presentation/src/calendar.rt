//! Times as YYYYMMDDHHmmSS in UTC (RFC 4034, 3.2).
ghost use Rattle.std.specs.Prelude.{◌≡◌, ◌++◌, ◌∷◌, ◌≤◌, ◌<◌, ◌^◌, OnOk, IsTrue};
ghost use Rattle.httpdate.specs.Calendar.{days_in_month as month_days, days_in_year as year_days, is_leap_year as is_leap};
ghost use Rattle.dns_presentation.specs.Calendar.{clock_text, day_text, month_of as month_in, time_text, two_digits, year_of as year_in};
ghost use Rattle.dns_presentation.specs.Spelling.{space};

use dns_rdata::SerialNumber;
use dns_record::NoMemory;

const SECONDS_OF_DAY: u32 = 86400;

/// The year of the last second that a time of 32 bits can be.
const LAST_YEAR: u32 = 2106;

// Appends the last two decimal digits of a number.
fn push_two(into: &mut Vec<u8>, number: u32) -> Result<(), NoMemory>
    ensures { OnOk result (into.new.items ≡ into.old.items ++ two_digits number) }
{
    let digits = [b'0' + (number / 10 % 10) as u8, b'0' + (number % 10) as u8];
    into.extend_from_slice(&digits)?;
    Ok(())
}

// Whether a year has a 29 February.
fn is_leap_year(year: u32) -> bool
    ensures { result ≡ is_leap year }
{
    year % 4 == 0 && (year % 100 != 0 || year % 400 == 0)
}

/// The days of a year of the Gregorian calendar.
pub fn days_in_year(year: u32) -> u32
    ensures { result ≡ year_days year }
{
    if is_leap_year(year) { 366 } else { 365 }
}

/// The days of a month of the Gregorian calendar; January is 1.
pub fn days_in_month(year: u32, month: u32) -> u32
    ensures { result ≡ month_days year month }
{
    match month {
        2 => if is_leap_year(year) { 29 } else { 28 },
        4 | 6 | 9 | 11 => 30,
        _ => 31,
    }
}

// The year of a day, counted from 1 January 1970, and the day's number in it, from 0.
#[tactic(auto, using(crate::proofs::CalendarLemmas::year_more, crate::proofs::CalendarLemmas::year_here, crate::proofs::CalendarLemmas::year_last))]
fn year_of(day: u32) -> (u32, u32)
    ensures value { result ≡ year_in 136 1970 day }
    ensures within { result.1 ≤ day }
{
    let mut year = 1970;
    let mut rest = day;
    'years: while year < LAST_YEAR && rest >= days_in_year(year) {
        rest -= days_in_year(year);
        year += 1;
    }
    (year, rest)
}

// The month of a day of a year, and the day's number in it, from 0.
#[tactic(auto, using(crate::proofs::CalendarLemmas::month_more, crate::proofs::CalendarLemmas::month_here, crate::proofs::CalendarLemmas::month_last))]
fn month_of(year: u32, day: u32) -> (u32, u32)
    ensures value { result ≡ month_in 11 year 1 day }
    ensures within { result.1 ≤ day }
{
    let mut month = 1;
    let mut rest = day;
    'months: while month < 12 && rest >= days_in_month(year, month) {
        rest -= days_in_month(year, month);
        month += 1;
    }
    (month, rest)
}

// Appends a day, counted from 1 January 1970.
#[tactic(auto, unfolding(crate::specs::Calendar::day_text))]
fn push_day(into: &mut Vec<u8>, day: u32) -> Result<(), NoMemory>
    requires { day < 2 ^ 31 }
    ensures { OnOk result (into.new.items ≡ into.old.items ++ day_text day) }
{
    let (year, rest) = year_of(day);
    let (month, rest) = month_of(year, rest);
    push_two(into, year / 100)?;
    push_two(into, year)?;
    push_two(into, month)?;
    push_two(into, rest + 1)
}

// Appends a second of a day.
fn push_clock(into: &mut Vec<u8>, second: u32) -> Result<(), NoMemory>
    ensures { OnOk result (into.new.items ≡ into.old.items ++ clock_text second) }
{
    push_two(into, second / 3600)?;
    push_two(into, second / 60 % 60)?;
    push_two(into, second % 60)
}

/// Appends a time of a signature as a word.
#[tactic(auto, unfolding(crate::specs::Calendar::time_text))]
pub(crate) fn push_time(into: &mut Vec<u8>, time: SerialNumber) -> Result<(), NoMemory>
    ensures { OnOk result (into.new.items ≡ into.old.items ++ (space ∷ time_text time.0)) }
{
    into.push(b' ')?;
    push_day(into, time.0 / SECONDS_OF_DAY)?;
    push_clock(into, time.0 % SECONDS_OF_DAY)
}
