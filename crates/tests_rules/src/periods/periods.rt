//! Billing periods of days.

use crate::compare::same;
use kb_align::period_of;
use kb_days::{Bcd, Day, LAST_CHARGED, LAST_REACH, Period, Reach, day_of_month, month_of};
use kb_samples::{SampleFault, day};
use std::process::Abort;

/// The periods that have a length.
static PERIODS: [Period; 9] = [
    Period::Daily,
    Period::Weekly,
    Period::Biweekly,
    Period::ThirtyDays,
    Period::Monthly,
    Period::Quarterly,
    Period::Biannual,
    Period::Annual,
    Period::Biennial,
];

/// The first day of a subscription, a period, a cycle day, a day, and the first days of the day's period and
/// of the next one.
type Row = (
    &'static str,
    Period,
    u32,
    &'static str,
    &'static str,
    &'static str,
);

static ROWS: [Row; 25] = [
    // the ends of months
    (
        "2024-01-31",
        Period::Monthly,
        31,
        "2024-01-31",
        "2024-01-31",
        "2024-02-29",
    ),
    (
        "2024-01-31",
        Period::Monthly,
        31,
        "2024-02-28",
        "2024-01-31",
        "2024-02-29",
    ),
    (
        "2024-01-31",
        Period::Monthly,
        31,
        "2024-02-29",
        "2024-02-29",
        "2024-03-31",
    ),
    (
        "2024-01-31",
        Period::Monthly,
        31,
        "2024-03-30",
        "2024-02-29",
        "2024-03-31",
    ),
    (
        "2024-01-31",
        Period::Monthly,
        31,
        "2024-03-31",
        "2024-03-31",
        "2024-04-30",
    ),
    // 30 days
    (
        "2024-03-01",
        Period::ThirtyDays,
        1,
        "2024-03-01",
        "2024-03-01",
        "2024-03-31",
    ),
    (
        "2024-03-01",
        Period::ThirtyDays,
        1,
        "2024-03-30",
        "2024-03-01",
        "2024-03-31",
    ),
    (
        "2024-03-01",
        Period::ThirtyDays,
        1,
        "2024-03-31",
        "2024-03-31",
        "2024-04-30",
    ),
    // each period, on a leap day
    (
        "2024-01-15",
        Period::Daily,
        31,
        "2024-02-29",
        "2024-02-29",
        "2024-03-01",
    ),
    (
        "2024-01-15",
        Period::Weekly,
        31,
        "2024-02-29",
        "2024-02-26",
        "2024-03-04",
    ),
    (
        "2024-01-15",
        Period::Biweekly,
        31,
        "2024-02-29",
        "2024-02-26",
        "2024-03-11",
    ),
    (
        "2024-01-15",
        Period::ThirtyDays,
        31,
        "2024-02-29",
        "2024-02-14",
        "2024-03-15",
    ),
    (
        "2024-01-15",
        Period::Monthly,
        1,
        "2024-02-29",
        "2024-02-01",
        "2024-03-01",
    ),
    (
        "2024-01-15",
        Period::Monthly,
        28,
        "2024-02-29",
        "2024-02-28",
        "2024-03-28",
    ),
    (
        "2024-01-15",
        Period::Monthly,
        29,
        "2024-02-29",
        "2024-02-29",
        "2024-03-29",
    ),
    (
        "2024-01-15",
        Period::Monthly,
        30,
        "2024-02-29",
        "2024-02-29",
        "2024-03-30",
    ),
    (
        "2024-01-15",
        Period::Quarterly,
        1,
        "2024-02-29",
        "2024-02-01",
        "2024-05-01",
    ),
    (
        "2024-01-15",
        Period::Quarterly,
        31,
        "2024-02-29",
        "2024-01-31",
        "2024-04-30",
    ),
    (
        "2024-01-15",
        Period::Biannual,
        28,
        "2024-02-29",
        "2024-01-28",
        "2024-07-28",
    ),
    (
        "2024-01-15",
        Period::Annual,
        29,
        "2024-02-29",
        "2024-01-29",
        "2025-01-29",
    ),
    (
        "2024-01-15",
        Period::Biennial,
        30,
        "2024-02-29",
        "2024-01-30",
        "2026-01-30",
    ),
    // years from 28 February on, billed by the 29th
    (
        "2022-02-28",
        Period::Annual,
        29,
        "2024-02-29",
        "2024-02-29",
        "2025-02-28",
    ),
    (
        "2022-02-28",
        Period::Annual,
        29,
        "2028-02-28",
        "2027-02-28",
        "2028-02-29",
    ),
    (
        "2022-02-28",
        Period::Biennial,
        29,
        "2024-02-28",
        "2022-02-28",
        "2024-02-29",
    ),
    (
        "2022-02-28",
        Period::Biennial,
        29,
        "2026-02-28",
        "2026-02-28",
        "2028-02-29",
    ),
];

/// First days of subscriptions and days: over leap days, at the first day, before the cycle day, and the last
/// day that may be charged.
static SEARCHED: [(&str, &str); 5] = [
    ("2024-01-15", "2024-02-29"),
    ("2024-01-31", "2024-01-31"),
    ("2024-02-29", "2026-02-28"),
    ("2000-01-01", "2000-02-29"),
    ("2099-12-30", "the last charged day"),
];

/// The number of the day of a text, or of the last day that may be charged.
fn number(text: &str) -> Result<u32, SampleFault> {
    if text == "the last charged day" {
        return Ok(LAST_CHARGED);
    }
    Ok(day(text)?.number())
}

/// The numbers of the days from which and to which the period of a day goes, if it has one.
fn found(start: u32, period: Period, bcd: u32, day: u32) -> Option<(u32, u32)> {
    let start = Day::new(start)?.reach();
    let day = Reach::new(day)?;
    if matches!(period, Period::NoBillingPeriod) || day < start || day.number() > LAST_CHARGED {
        return None;
    }
    let (from, to) = period_of(start, period, Bcd::new(bcd)?, day);
    Some((from.number(), to.number()))
}

/// Whether a day has the number of the cycle day, or is the last of a month that is shorter.
fn is_marked(day: u32, bcd: u32) -> bool {
    let numbers = (
        Reach::new(day).map_or(0, |day| day_of_month(day)),
        Reach::new(day.saturating_add(1)).map_or(0, |day| day_of_month(day)),
    );
    numbers.0 == bcd || (numbers.0 < bcd && numbers.1 == 1)
}

/// The first day from a day on that is marked.
fn first_marked(start: u32, bcd: u32) -> u32 {
    (start..LAST_REACH)
        .find(|day| is_marked(*day, bcd))
        .unwrap_or(LAST_REACH)
}

/// Whether a day is a boundary.
fn is_boundary(start: u32, period: Period, bcd: u32, day: u32) -> bool {
    if let Some(days) = period.days() {
        return start <= day && day.saturating_sub(start).checked_rem(days) == Some(0);
    }
    let first = Reach::new(first_marked(start, bcd)).map_or(0, |day| month_of(day));
    let between = Reach::new(day)
        .map_or(0, |day| month_of(day))
        .abs_diff(first);
    is_marked(day, bcd) && between.checked_rem(period.months().unwrap_or(1)) == Some(0)
}

/// The last boundary on or before a day, by a look at each day.
fn last_on(start: u32, period: Period, bcd: u32, day: u32) -> u32 {
    for back in 0..day {
        let other = day.saturating_sub(back);
        if is_boundary(start, period, bcd, other) {
            return other;
        }
    }
    0
}

/// The first boundary after a day, by a look at each day.
fn first_after(start: u32, period: Period, bcd: u32, day: u32) -> u32 {
    for other in day.saturating_add(1)..LAST_REACH {
        if is_boundary(start, period, bcd, other) {
            return other;
        }
    }
    0
}

#[test]
fn periods_of_days(rt: HostRuntime) -> Result<(), SampleFault> {
    periods_are(&rt)
}

fn periods_are(rt: &impl Abort) -> Result<(), SampleFault> {
    for row in &ROWS {
        let wanted = (number(row.4)?, number(row.5)?);
        same(rt, &found_for(row)?, &Some(wanted), row);
    }
    Ok(())
}

/// The period of the day of a row.
fn found_for(row: &Row) -> Result<Option<(u32, u32)>, SampleFault> {
    Ok(found(number(row.0)?, row.1, row.2, number(row.3)?))
}

#[test]
fn periods_as_a_search_finds_them(rt: HostRuntime) -> Result<(), SampleFault> {
    searches_agree(&rt)
}

fn searches_agree(rt: &impl Abort) -> Result<(), SampleFault> {
    for (start, day) in &SEARCHED {
        periods_are_found(rt, number(start)?, number(day)?);
    }
    Ok(())
}

fn periods_are_found(rt: &impl Abort, start: u32, day: u32) {
    for period in PERIODS {
        for bcd in [1, 15, 28, 29, 30, 31] {
            period_is_found(rt, start, period, bcd, day);
        }
    }
}

fn period_is_found(rt: &impl Abort, start: u32, period: Period, bcd: u32, day: u32) {
    let searched = (
        last_on(start, period, bcd, day),
        first_after(start, period, bcd, day),
    );
    let found = found(start, period, bcd, day);
    same(rt, &found, &Some(searched), &(period, bcd, day));
}
