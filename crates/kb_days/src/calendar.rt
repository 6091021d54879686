//! Months, which are counted from January 1970.
ghost use Rattle.std.specs.Prelude.{◌≡◌, ◌≤◌, ◌<◌, ◌+◌, ◌/◌, ◌%◌, ◌≤ℤ◌, ℕ, pos};
ghost use Rattle.jiff_core.specs.Date.{epoch_day};
ghost use Rattle.kb_days.specs.Calendar.{mark, month_of, day_of_month};
ghost use Rattle.kb_days.specs.Calendar.{month_start, month_length};

use crate::day::{Bcd, Reach};
use jiff_core::civil::Date;

/// How many days jiff's first date lies before 1970-01-01.
const DAYS_BEFORE_1970: u32 = 4_371_587;

/// The day of a month with this number, or the month's last day where the month is shorter.
pub fn mark(month: u32, bcd: Bcd) -> Reach
    requires from_1997_06 { 329 ≤ month }
    requires to_2104_01 { month ≤ 1608 }
    ensures value { result ≡ mark month bcd }
    ensures in_month { (month_start month ≤ result) × (result < month_start (month + 1)) }
{
    Reach::within(marked(month, bcd))
}

/// The month in which a day lies, counted from January 1970, which is 0.
#[tactic(auto, using(crate::proofs::Reaches::months_of_days))]
pub fn month_of(day: Reach) -> u32
    ensures value { result ≡ month_of day }
    ensures began { month_start result ≤ day }
    ensures not_over { day < month_start (result + 1) }
    ensures only { (month : ℕ) → month_start month ≤ day → day < month_start (month + 1)
        → result ≡ month }
    ensures first { 328 ≤ result }
    ensures last { result ≤ 1609 }
{
    let date = date_of(day);
    12 * (year_of(date) - 1970) + u32::from(date.month) - 1
}

/// The number of a day in its month, 1 to 31.
#[tactic(auto, using(crate::proofs::Reaches::months_of_days))]
pub fn day_of_month(day: Reach) -> u32
    ensures value { result ≡ day_of_month day }
    ensures marked { mark (month_of day) result ≡ day }
    ensures first { 1 ≤ result }
    ensures last { result ≤ month_length (month_of day) }
{
    u32::from(date_of(day).day)
}

/// The number of the day that a cycle day marks in a month, up to February 2104.
pub(crate) fn marked(month: u32, bcd: Bcd) -> u32
    requires { month ≤ 1609 }
    ensures { result ≡ mark month bcd }
{
    marked_date(month, bcd).days_since_min() - DAYS_BEFORE_1970
}

/// The date of the day that a cycle day marks in a month.
fn marked_date(month: u32, bcd: Bcd) -> Date
    requires { month ≤ 1609 }
    ensures { epoch_day result ≡ pos (mark month bcd) }
{
    Date::constrain(
        year_of_month(month),
        month_in_year(month),
        bcd.number() as u8,
    )
}

/// The civil year of a month that is counted from January 1970.
fn year_of_month(month: u32) -> i16
    requires { month ≤ 1609 }
    ensures { result ≡ pos (1970 + month / 12) }
{
    (1970 + month / 12) as i16
}

/// The number of a month in its year, 1 to 12.
fn month_in_year(month: u32) -> u8
    ensures { result ≡ month % 12 + 1 }
{
    (month % 12 + 1) as u8
}

/// The civil date of a day.
pub(crate) fn date_of(day: Reach) -> Date
    ensures year { result.year ≡ pos (1970 + month_of day / 12) }
    ensures month { result.month ≡ month_of day % 12 + 1 }
    ensures day { result.day ≡ day_of_month day }
{
    Date::from_days_since_min(day.number() + DAYS_BEFORE_1970)
}

/// The year of a date from the year 0 on.
pub(crate) fn year_of(date: Date) -> u32
    requires { pos 0 ≤ℤ date.year }
    ensures { pos result ≡ date.year }
{
    date.year as u32
}
