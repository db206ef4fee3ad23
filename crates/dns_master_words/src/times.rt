//! Times of signatures (RFC 4034, 3.2).
ghost use Rattle.std.specs.Prelude.{◌≡◌, ◌+◌, ◌*◌, ◌≤◌, ◌<◌, IsTrue, length};
ghost use Rattle.std.specs.Str.{all_ascii_digits};
ghost use Rattle.httpdate.specs.Calendar.{days_of_months as days_before_month, days_of_years as days_before_year};
ghost use Rattle.dns_master_words.specs.Times.{date_in as date_meant, is_clock as is_a_clock, is_day as is_a_day, is_moment as is_a_moment, is_year as is_a_year, moment_of as moment_meant, moment_seconds as seconds_meant, time_in, two_at as number_at};

use dns_presentation::{days_in_month, days_in_year};
use dns_text::decimal_in;
use std::marker::Model;

/// The year of the last second that a time of 32 bits can be.
const LAST_YEAR: u32 = 2106;

// A moment of the calendar in UTC.
#[derive(Drop)]
struct Moment {
    year: u32,
    month: u32,
    day: u32,
    hour: u32,
    minute: u32,
    second: u32,
}

impl Model for Moment {
    ghost use Rattle.dns_master_words.specs.Times.{MomentValue};

    ghost Value = { MomentValue };

    ghost view = { λ m. record {
      year = m.year;
      month = m.month;
      day = m.day;
      hour = m.hour;
      minute = m.minute;
      second = m.second;
    } };
}

// Whether each byte is a decimal digit.
fn are_digits(word: &[u8]) -> bool
    ensures { result ≡ all_ascii_digits word.now }
{
    let mut rest = word;
    'bytes: while let Some((byte, more)) = rest.split_first() {
        if !byte.is_ascii_digit() {
            return false;
        }
        rest = more;
    }
    true
}

// The number of two decimal digits.
fn two_at(word: &[u8], place: usize) -> u32
    requires { place + 1 < length word.now }
    ensures value { result ≡ number_at word.now place }
    ensures small { result ≤ 2277 }
{
    let tens = word[place].saturating_sub(b'0');
    let ones = word[place + 1].saturating_sub(b'0');
    u32::from(tens) * 10 + u32::from(ones)
}

// What fourteen digits say.
#[tactic(auto, unfolding(crate::specs::Times::moment_of))]
fn moment_of(word: &[u8]) -> Moment
    requires { length word.now ≡ 14 }
    ensures { result ≡ moment_meant word.now }
{
    Moment {
        year: two_at(word, 0) * 100 + two_at(word, 2),
        month: two_at(word, 4),
        day: two_at(word, 6),
        hour: two_at(word, 8),
        minute: two_at(word, 10),
        second: two_at(word, 12),
    }
}

fn is_year(year: u32) -> bool
    ensures { result ≡ is_a_year year }
{
    year >= 1970 && year <= LAST_YEAR
}

fn is_day(moment: &Moment) -> bool
    ensures { result ≡ is_a_day moment.now }
{
    let days = days_in_month(moment.year, moment.month);
    moment.month >= 1 && moment.month <= 12 && moment.day >= 1 && moment.day <= days
}

fn is_clock(moment: &Moment) -> bool
    ensures { result ≡ is_a_clock moment.now }
{
    moment.hour < 24 && moment.minute < 60 && moment.second < 60
}

// Whether the calendar has the moment, in a year that times of 32 bits reach.
#[tactic(auto, unfolding(crate::specs::Times::is_moment))]
fn is_moment(moment: &Moment) -> bool
    ensures value { result ≡ is_a_moment moment.now }
    ensures year { IsTrue result → (1970 ≤ moment.now.year) × (moment.now.year ≤ 2106) }
    ensures month { IsTrue result → (1 ≤ moment.now.month) × (moment.now.month ≤ 12) }
    ensures day { IsTrue result → 1 ≤ moment.now.day }
{
    is_year(moment.year) && is_day(moment) && is_clock(moment)
}

// The days of the first years from 1970 on.
#[tactic(auto, using(crate::proofs::TimeLaws::none_passed, crate::proofs::TimeLaws::years_more, crate::proofs::TimeLaws::year_short))]
fn days_of_years(count: u32) -> u32
    requires { count ≤ 136 }
    ensures { result ≡ days_before_year count }
{
    let mut days = 0;
    let mut passed = 0;
    'years: while passed < count {
        days += days_in_year(1970 + passed);
        passed += 1;
    }
    days
}

// The days of the first months of a year.
#[tactic(auto, using(crate::proofs::TimeLaws::no_month_passed, crate::proofs::TimeLaws::months_more, crate::proofs::TimeLaws::month_short))]
fn days_of_months(year: u32, count: u32) -> u32
    requires { count ≤ 11 }
    ensures { result ≡ days_before_month year count }
{
    let mut days = 0;
    let mut passed = 0;
    'months: while passed < count {
        passed += 1;
        days += days_in_month(year, passed);
    }
    days
}

// The seconds of a moment, where the calendar has it and they have 32 bits.
#[tactic(auto, unfolding(crate::specs::Times::moment_seconds, crate::specs::Times::seconds_of))]
fn moment_seconds(moment: &Moment) -> Option<u32>
    ensures { result ≡ seconds_meant moment.now }
{
    if !is_moment(moment) {
        return None;
    }
    let years = u64::from(days_of_years(moment.year - 1970));
    let months = u64::from(days_of_months(moment.year, moment.month - 1));
    let days = years + months + u64::from(moment.day - 1);
    let hours = u64::from(moment.hour) * 3600;
    let minutes = u64::from(moment.minute) * 60;
    let seconds = days * 86400 + hours + minutes + u64::from(moment.second);
    if seconds > 0xffff_ffff {
        return None;
    }
    Some(seconds as u32)
}

// The seconds of fourteen digits.
fn date_in(word: &[u8]) -> Option<u32>
    requires { length word.now ≡ 14 }
    ensures { result ≡ date_meant word.now }
{
    if !are_digits(word) {
        return None;
    }
    moment_seconds(&moment_of(word))
}

/// The seconds since the start of 1970 that a time of a signature is: fourteen digits are YYYYMMDDHHmmSS in UTC, fewer are the seconds. None
/// where the calendar has no such moment, or where the seconds have more than 32 bits.
#[tactic(auto, unfolding(crate::specs::Times::time_in))]
pub fn time_in(word: &[u8]) -> Option<u32>
    ensures { result ≡ time_in word.now }
{
    if word.len() == 14 {
        return date_in(word);
    }
    let seconds = decimal_in(word, 0xffff_ffff)?;
    Some(seconds as u32)
}
