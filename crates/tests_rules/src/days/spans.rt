//! The day that comes a span after another, and billing periods.

use crate::compare::same;
use kb_days::{Count, Period, Reach, Span, add, parse};
use std::test::Fail;

#[test]
fn days_and_weeks(rt: HostRuntime) -> Result<(), Fail> {
    // day, count, the day so many days later, the day so many weeks later
    let cases = [
        ("2024-02-29", 1, "2024-03-01", "2024-03-07"),
        ("2024-03-10", 2, "2024-03-12", "2024-03-24"),
        ("2000-01-01", 1_200, "2003-04-15", "2022-12-31"),
    ];
    for (date, count, days, weeks) in cases {
        let day = parse(date.as_bytes())?.reach();
        let count = Count::new(count).ok_or("a count")?;
        let days = parse(days.as_bytes())?.reach();
        let weeks = parse(weeks.as_bytes())?.reach();
        same(
            &rt,
            &(add(day, Span::Days(count)), add(day, Span::Weeks(count))),
            &(Some(days), Some(weeks)),
            &date,
        );
    }
    Ok(())
}

#[test]
fn months_and_years(rt: HostRuntime) -> Result<(), Fail> {
    // day, count, the day so many months later, the day so many years later
    let cases = [
        ("2024-01-31", 1, "2024-02-29", "2025-01-31"),
        ("2024-01-31", 2, "2024-03-31", "2026-01-31"),
        ("2024-02-29", 1, "2024-03-29", "2025-02-28"),
        ("2024-02-29", 4, "2024-06-29", "2028-02-29"),
        ("2024-03-10", 12, "2025-03-10", "2036-03-10"),
        ("2024-10-31", 4, "2025-02-28", "2028-10-31"),
        ("2024-12-31", 1, "2025-01-31", "2025-12-31"),
    ];
    for (date, count, months, years) in cases {
        let day = parse(date.as_bytes())?.reach();
        let count = Count::new(count).ok_or("a count")?;
        let months = parse(months.as_bytes())?.reach();
        let years = parse(years.as_bytes())?.reach();
        same(
            &rt,
            &(add(day, Span::Months(count)), add(day, Span::Years(count))),
            &(Some(months), Some(years)),
            &date,
        );
    }
    let day = parse(b"2024-03-10")?.reach();
    assert!(rt; add(day, Span::Unlimited).is_none());
    Ok(())
}

// The rows below are about the ends of the range of days, which are numbers.
#[test]
fn days_and_weeks_at_the_ends(rt: HostRuntime) -> Result<(), Fail> {
    // day, count, the day so many days later, the day so many weeks later
    let cases = [
        (10_000, 1, Some(10_001), Some(10_007)),
        (48_993, 1, Some(48_994), Some(49_000)),
        (48_994, 1, Some(48_995), None),
        (48_999, 1, Some(49_000), None),
        (49_000, 1, None, None),
        (49_000, 1_200, None, None),
    ];
    for (number, count, days, weeks) in cases {
        let day = Reach::new(number).ok_or("a reach")?;
        let count = Count::new(count).ok_or("a count")?;
        same(
            &rt,
            &(
                add(day, Span::Days(count)).map(Reach::number),
                add(day, Span::Weeks(count)).map(Reach::number),
            ),
            &(days, weeks),
            &number,
        );
    }
    Ok(())
}

#[test]
fn months_and_years_at_the_end(rt: HostRuntime) -> Result<(), Fail> {
    // day, count, the day so many months later, the day so many years later
    let cases = [
        // 28 February 2103, 28 and 31 January and 28 February 2104
        (48_635, 1, Some(48_663), Some(49_000)),
        (48_635, 12, Some(49_000), None),
        (48_969, 1, Some(49_000), None),
        (48_972, 1, None, None),
        (49_000, 1, None, None),
        (49_000, 1_200, None, None),
    ];
    for (number, count, months, years) in cases {
        let day = Reach::new(number).ok_or("a reach")?;
        let count = Count::new(count).ok_or("a count")?;
        same(
            &rt,
            &(
                add(day, Span::Months(count)).map(Reach::number),
                add(day, Span::Years(count)).map(Reach::number),
            ),
            &(months, years),
            &number,
        );
    }
    Ok(())
}

#[test]
fn lengths_and_words_of_periods(rt: HostRuntime) {
    // days, months, word
    let cases = [
        (Period::Daily, Some(1), None, "DAILY"),
        (Period::Weekly, Some(7), None, "WEEKLY"),
        (Period::Biweekly, Some(14), None, "BIWEEKLY"),
        (Period::ThirtyDays, Some(30), None, "THIRTY_DAYS"),
        (Period::Monthly, None, Some(1), "MONTHLY"),
        (Period::Quarterly, None, Some(3), "QUARTERLY"),
        (Period::Biannual, None, Some(6), "BIANNUAL"),
        (Period::Annual, None, Some(12), "ANNUAL"),
        (Period::Biennial, None, Some(24), "BIENNIAL"),
        (Period::NoBillingPeriod, None, None, "NO_BILLING_PERIOD"),
    ];
    for (period, days, months, word) in cases {
        same(
            &rt,
            &(period.days(), period.months(), period.word()),
            &(days, months, word.as_bytes()),
            &word,
        );
    }
}
