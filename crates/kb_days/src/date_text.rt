//! The text of a day, YYYY-MM-DD.
ghost use Rattle.std.specs.Prelude.{◌≡◌, ◌≤◌, ◌<◌, ◌+◌, ◌%◌, ◌^◌, ℕ, pos};
ghost use Rattle.std.specs.Prelude.{Ok, IfOk, ok_or, IsSome, IfSome, length, Some};
ghost use Rattle.jiff_core.specs.Calendar.{IsCivilDate};
ghost use Rattle.jiff_core.specs.Date.{epoch_day};
ghost use Rattle.kb_days.specs.Calendar.{first_day, last_day};
ghost use Rattle.kb_days.specs.DateText.{civil_text, date_text, digits, read_day};

use crate::calendar::{date_of, year_of};
use crate::day::{Day, Reach};
use jiff_core::civil::Date;
use thiserror::Error;

/// The text isn't that of a day from 2000-01-01 to 2099-12-31.
#[derive(Clone, Copy, Debug, PartialEq, Eq, Error)]
#[error("not a day from 2000-01-01 to 2099-12-31")]
pub struct BadDate;

/// The day of a text: ten bytes YYYY-MM-DD of a civil date from 2000-01-01 to 2099-12-31, and
/// nothing else.
pub fn parse(text: &[u8]) -> Result<Day, BadDate>
    ensures value { result ≡ ok_or (read_day text.now) (record {}) }
    ensures named { IfOk result (λ day. (first_day ≤ day) × (day ≤ last_day)) }
    ensures text { IfOk result (λ day. date_text day ≡ text.now) }
    ensures all { (day : ℕ) → first_day ≤ day → day ≤ last_day → date_text day ≡ text.now
        → result ≡ Ok day }
{
    read_day(text).ok_or(BadDate)
}

/// The text of a day, ten bytes YYYY-MM-DD.
pub fn text(day: Reach) -> [u8; 10]
    ensures { result ≡ date_text day }
{
    let date = date_of(day);
    let (year, month, day) = (year_of(date), u32::from(date.month), u32::from(date.day));
    [
        digit(year / 1000),
        digit(year / 100),
        digit(year / 10),
        digit(year),
        b'-',
        digit(month / 10),
        digit(month),
        b'-',
        digit(day / 10),
        digit(day),
    ]
}

/// The day of a text, if it has one.
fn read_day(text: &[u8]) -> Option<Day>
    ensures { result ≡ read_day text.now }
{
    let (year, month, day) = read_parts(text)?;
    let date = civil_date(year, month, day)?;
    day_of(date)
}

/// The year, the month and the day that a text YYYY-MM-DD names.
fn read_parts(text: &[u8]) -> Option<(u16, u16, u16)>
    ensures text { IfSome result (λ parts. text.now ≡ civil_text parts.0 parts.1 parts.2) }
    ensures bounds { IfSome result (λ parts. (parts.0 < 10000) × (parts.1 < 100) × (parts.2 < 100)) }
    ensures all { (year month day : ℕ) → year < 10000 → month < 100 → day < 100
        → text.now ≡ civil_text year month day → result ≡ Some (year, month, day) }
{
    if text.len() != 10 || text[4] != b'-' || text[7] != b'-' {
        return None;
    }
    let year = number(&text[..4])?;
    let month = number(&text[5..7])?;
    let day = number(&text[8..10])?;
    Some((year, month, day))
}

/// The number that at most four decimal digits stand for.
fn number(text: &[u8]) -> Option<u16>
    requires { length text.now ≤ 4 }
    ensures digits { IfSome result (λ number. text.now ≡ digits (length text.now) number) }
    ensures bound { IfSome result (λ number. number < 10 ^ length text.now) }
    ensures all { (number : ℕ) → number < 10 ^ length text.now
        → text.now ≡ digits (length text.now) number → result ≡ Some number }
{
    let mut number = 0;
    for digit in text {
        if !digit.is_ascii_digit() {
            return None;
        }
        number = 10 * number + u16::from(*digit - b'0');
    }
    Some(number)
}

/// The civil date of a year, a month and a day, if the calendar has it.
fn civil_date(year: u16, month: u16, day: u16) -> Option<Date>
    requires year_in { year < 10000 }
    requires month_in { month < 100 }
    requires day_in { day < 100 }
    ensures parts { IfSome result (λ date.
        (date.year ≡ pos year) × (date.month ≡ month) × (date.day ≡ day)) }
    ensures civil { IsCivilDate (pos year) month day → IsSome result }
{
    Date::new(year as i16, month as i8, day as i8).ok()
}

/// The day of a civil date, if a command may name it.
fn day_of(date: Date) -> Option<Day>
    ensures value { IfSome result (λ day.
        (first_day ≤ day) × (day ≤ last_day) × (epoch_day date ≡ pos day)) }
    ensures all { (day : ℕ) → first_day ≤ day → day ≤ last_day → epoch_day date ≡ pos day
        → result ≡ Some day }
{
    u32::try_from(date.to_unix_epoch_day())
        .ok()
        .and_then(Day::new)
}

/// The last decimal digit of a number.
fn digit(number: u32) -> u8
    ensures { result ≡ 48 + number % 10 }
{
    b'0' + (number % 10) as u8
}
