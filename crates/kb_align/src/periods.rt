//! The billing period of a day.
ghost use Rattle.std.specs.Prelude.{◌≡◌, ◌≤◌, ◌<◌, ◌+◌, ◌%◌, ◌⊎◌, ℕ, Some, None};
ghost use Rattle.kb_days.specs.Calendar.{first_day, last_charged, month_in, month_of};
ghost use Rattle.kb_days.specs.Periods.{period_days, period_months};
ghost use Rattle.kb_align.specs.PeriodDays.{max_period_days, period_on};
ghost use Rattle.kb_align.specs.Between.{IsBetween};
ghost use Rattle.kb_align.specs.Boundaries.{IsFirstMonth, IsDayBoundary, IsMonthBoundary, IsPeriodOf};

use kb_days::{Bcd, Period, Reach, mark, month_of};

/// The billing period of a day: from the greatest boundary on or before it up to, but not including, the
/// least one after it.
#[tactic(auto, using(crate::proofs::Lengths::lengths))]
pub fn period_of(start: Reach, period: Period, bcd: Bcd, day: Reach) -> (Reach, Reach)
    requires billed { period ≡ Period.NoBillingPeriod → ⊥ }
    requires named { first_day ≤ start }
    requires begun { start ≤ day }
    requires last { day ≤ last_charged }
    ensures period { IsPeriodOf start period bcd day result.0 result.1 }
    ensures value { period_on start period bcd day ≡ (result.0, result.1) }
    ensures longest { result.1 ≤ result.0 + max_period_days }
    ensures tiles { (other from to : ℕ) → IsPeriodOf start period bcd other from to
        → ((from ≡ result.0) × (to ≡ result.1)) ⊎ (to ≤ result.0) ⊎ (result.1 ≤ from) }
{
    match period.days() {
        Some(days) => period_of_days(start, days, day),
        None => period_of_months(start, months_of(period), bcd, day),
    }
}

/// The period of so many days in which a day lies.
fn period_of_days(start: Reach, days: u32, day: Reach) -> (Reach, Reach)
    requires some_day { 0 < days }
    requires short { days ≤ 30 }
    requires begun { start ≤ day }
    requires last { day ≤ last_charged }
    ensures period { IsBetween (IsDayBoundary days start) day result.0 result.1 }
    ensures longest { result.1 ≤ result.0 + max_period_days }
{
    let from = last_boundary(start.number(), days, day.number());
    (Reach::new(from).unwrap(), Reach::new(from + days).unwrap())
}

/// The last day up to a day that lies whole periods of so many days after a start.
fn last_boundary(start: u32, days: u32, day: u32) -> u32
    requires some_day { 0 < days }
    requires begun { start ≤ day }
    ensures period { IsBetween (IsDayBoundary days start) day result (result + days) }
    ensures first { start ≤ result }
    ensures last { result ≤ day }
{
    start + (day - start) / days * days
}

/// The period of so many months in which a day lies.
fn period_of_months(start: Reach, months: u32, bcd: Bcd, day: Reach) -> (Reach, Reach)
    requires some_month { 0 < months }
    requires two_years { months ≤ 24 }
    requires named { first_day ≤ start }
    requires begun { start ≤ day }
    requires last { day ≤ last_charged }
    ensures period { IsBetween (IsMonthBoundary months start bcd) day result.0 result.1 }
    ensures longest { result.1 ≤ result.0 + max_period_days }
{
    if months == 1 {
        return period_of_one_month(start, bcd, day);
    }
    let month = last_whole(first_month(start, bcd), months, last_month(day, bcd));
    (mark(month, bcd), mark(month + months, bcd))
}

/// The period of one month in which a day lies: each month's cycle day is a boundary.
#[tactic(auto, using(crate::proofs::FirstMonths::first_months))]
fn period_of_one_month(start: Reach, bcd: Bcd, day: Reach) -> (Reach, Reach)
    requires named { first_day ≤ start }
    requires begun { start ≤ day }
    requires last { day ≤ last_charged }
    ensures period { IsBetween (IsMonthBoundary 1 start bcd) day result.0 result.1 }
    ensures longest { result.1 ≤ result.0 + max_period_days }
{
    let month = month_of(day);
    let marked = mark(month, bcd);
    if day < marked {
        (mark(month - 1, bcd), marked)
    } else {
        (marked, mark(month + 1, bcd))
    }
}

/// The last month up to a month that lies whole periods of so many months before or after a first one.
fn last_whole(first: u32, months: u32, last: u32) -> u32
    requires some_month { 0 < months }
    requires two_years { months ≤ 24 }
    requires named { month_in 1999 12 ≤ last }
    requires in_reach { last ≤ month_in 2102 1 }
    requires near { first ≤ last + 1 }
    ensures whole { result % months ≡ first % months }
    ensures before { result ≤ last }
    ensures next { last < result + months }
{
    last - (last + months - first) % months
}

/// The first month whose cycle day lies on or after a day.
#[tactic(auto, using(crate::proofs::FirstMonths::first_months))]
fn first_month(day: Reach, bcd: Bcd) -> u32
    requires named { first_day ≤ day }
    requires last { day ≤ last_charged }
    ensures first { IsFirstMonth day bcd result }
{
    let month = month_of(day);
    if mark(month, bcd) < day {
        month + 1
    } else {
        month
    }
}

/// The last month whose cycle day lies on or before a day: the next one's is the first after it.
#[tactic(auto, using(crate::proofs::FirstMonths::first_months))]
fn last_month(day: Reach, bcd: Bcd) -> u32
    requires named { first_day ≤ day }
    requires last { day ≤ last_charged }
    ensures next { IsFirstMonth (day + 1) bcd (result + 1) }
    ensures named { month_in 1999 12 ≤ result }
    ensures in_reach { result ≤ month_in 2102 1 }
{
    let month = month_of(day);
    if day < mark(month, bcd) {
        month - 1
    } else {
        month
    }
}

/// How many months a period has that is counted in months.
#[tactic(auto, using(crate::proofs::Lengths::lengths))]
fn months_of(period: Period) -> u32
    requires billed { period ≡ Period.NoBillingPeriod → ⊥ }
    requires not_days { period_days period ≡ None }
    ensures months { period_months period ≡ Some result }
    ensures some_month { 0 < result }
    ensures two_years { result ≤ 24 }
{
    period.months().unwrap()
}
