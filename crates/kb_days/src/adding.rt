//! The day that comes a span after another.
ghost use Rattle.std.specs.Prelude.{◌≡◌, ◌≤◌, ◌<◌, ◌+◌, ◌↔◌, IsSome, IsSomeAnd, IfSome, option_and_then};
ghost use Rattle.kb_days.specs.Calendar.{last_reach, mark, day_of_month};
ghost use Rattle.kb_days.specs.Adding.{add_months, add_span, reached};

use crate::calendar::{day_of_month, marked, month_of};
use crate::day::{Bcd, Reach};
use crate::span::Span;

/// The day that comes a span after another; none after an unlimited span or past day 49000.
///
/// Months and years keep the number of the day in its month, cut to the month's last day.
pub fn add(day: Reach, span: Span) -> Option<Reach>
    ensures value { result ≡ option_and_then reached (add_span day span) }
    ensures accepted { IsSome result
        ↔ IsSomeAnd (add_span day span) (λ later. later ≤ last_reach) }
    ensures later { IfSome result (λ later. day < later) }
{
    match span {
        Span::Days(count) => add_days(day, count.number()),
        Span::Weeks(count) => add_days(day, 7 * count.number()),
        Span::Months(count) => add_months(day, count.number()),
        Span::Years(count) => add_months(day, 12 * count.number()),
        Span::Unlimited => None,
    }
}

/// The day that comes so many days after another.
fn add_days(day: Reach, days: u32) -> Option<Reach>
    requires { days ≤ 8400 }
    ensures { result ≡ reached (day + days) }
{
    Reach::new(day.number() + days)
}

/// The day that comes so many months after another.
fn add_months(day: Reach, months: u32) -> Option<Reach>
    requires some { 1 ≤ months }
    requires years { months ≤ 14400 }
    ensures value { result ≡ reached (add_months day months) }
    ensures later { IfSome result (λ later. day < later) }
{
    let month = month_of(day) + months;
    // February 2104 is the last month of a day that may follow.
    if month > 1609 {
        return None;
    }
    Reach::new(kept_number(day, month))
}

/// The day of a month with the number that another day has in its own month, or the month's last.
fn kept_number(day: Reach, month: u32) -> u32
    requires { month ≤ 1609 }
    ensures { result ≡ mark month (day_of_month day) }
{
    marked(month, Bcd::within(day_of_month(day)))
}
