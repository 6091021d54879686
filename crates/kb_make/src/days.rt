//! The days on which the commands of a seed come.
ghost use Rattle.std.specs.Prelude.{◌≡◌, ◌≤◌, ◌-◌, ◌+◌};
ghost use Rattle.kb_days.specs.Calendar.{first_day};
ghost use Rattle.kb_make.specs.MonthDays.{first_of_month, start_day};

use kb_days::{Bcd, Day, mark};

/// January 2024, counted in months from January 1970.
const JANUARY_2024: u32 = 648;

/// The first day of the month that comes so many months after January 2024.
#[tactic(auto, using(crate::proofs::MonthBounds::first_of_month_bounds), unfolding(crate::specs::MonthDays::first_of_month))]
pub(crate) fn first_of_month(months: u32) -> Day
    requires { months ≤ 120 }
    ensures value { result ≡ first_of_month months }
    ensures from_2024_01_01 { 19723 ≤ result }
    ensures to_2034_01_01 { result ≤ 23376 }
{
    let first = mark(JANUARY_2024 + months, Bcd::new(1).unwrap());
    Day::new(first.number()).unwrap()
}

/// The day on which an account begins, by its second draw.
pub(crate) fn start_day(second: u32) -> Day
    ensures { result ≡ start_day second }
{
    Day::new(first_of_month(0).number() + second % 28).unwrap()
}

/// The day that comes so many days before another.
pub(crate) fn days_before(day: Day, days: u32) -> Day
    requires { first_day + days ≤ day }
    ensures { result ≡ day - days }
{
    Day::new(day.number() - days).unwrap()
}
