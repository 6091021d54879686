//! Numbers of days, their months and their cycle days. The rows are about the numbers themselves.

use crate::compare::same;
use kb_days::{Bcd, Count, Day, Reach, Span, day_of_month, mark, month_of};
use std::test::Fail;

#[test]
fn numbers_at_the_ends_of_each_range(rt: HostRuntime) -> Result<(), Fail> {
    // number, and whether it is one of a day, of a reach and of a cycle day
    let cases = [
        (0, false, false, false),
        (1, false, false, true),
        (31, false, false, true),
        (32, false, false, false),
        (9_999, false, false, false),
        (10_000, false, true, false),
        (10_956, false, true, false),
        (10_957, true, true, false),
        (47_481, true, true, false),
        (47_482, false, true, false),
        (49_000, false, true, false),
        (49_001, false, false, false),
        (u32::MAX, false, false, false),
    ];
    for (number, is_day, is_reach, is_bcd) in cases {
        same(
            &rt,
            &(
                Day::new(number).is_some(),
                Reach::new(number).is_some(),
                Bcd::new(number).is_some(),
            ),
            &(is_day, is_reach, is_bcd),
            &number,
        );
    }
    let day = Day::new(19_792).ok_or("a day")?;
    let bcd = Bcd::new(31).ok_or("a cycle day")?;
    same(
        &rt,
        &(day.number(), day.reach().number(), bcd.number()),
        &(19_792, 19_792, 31),
        &"",
    );
    Ok(())
}

#[test]
fn counts_at_the_ends_of_their_range(rt: HostRuntime) -> Result<(), Fail> {
    let cases = [
        (0, false),
        (1, true),
        (1_200, true),
        (1_201, false),
        (u32::MAX, false),
    ];
    for (number, is_count) in cases {
        same(&rt, &Count::new(number).is_some(), &is_count, &number);
    }
    let count = Count::new(12).ok_or("a count")?;
    same(&rt, &count.number(), &12, &"");
    assert!(rt; Span::Days(count) < Span::Weeks(count));
    assert!(rt; Span::Months(count) != Span::Unlimited);
    Ok(())
}

#[test]
fn months_and_numbers_of_days(rt: HostRuntime) -> Result<(), Fail> {
    // day, month from January 1970, number in the month
    let cases = [
        (10_000, 328, 19),
        (10_957, 360, 1),
        (11_016, 361, 29),
        (19_416, 637, 28),
        (19_417, 638, 1),
        (19_722, 647, 31),
        (19_723, 648, 1),
        (19_782, 649, 29),
        (19_792, 650, 10),
        (47_481, 1559, 31),
        (47_540, 1561, 28),
        (47_541, 1562, 1),
        (48_242, 1584, 31),
        (49_000, 1609, 28),
    ];
    for (number, month, day) in cases {
        let reach = Reach::new(number).ok_or("a reach")?;
        same(
            &rt,
            &(month_of(reach), day_of_month(reach)),
            &(month, day),
            &number,
        );
    }
    Ok(())
}

#[test]
fn marks_at_month_ends(rt: HostRuntime) -> Result<(), Fail> {
    // month from January 1970, cycle day, day
    let cases = [
        (329, 1, 10_013),
        (637, 30, 19_416),
        (637, 31, 19_416),
        (639, 1, 19_448),
        (639, 30, 19_477),
        (639, 31, 19_477),
        (647, 31, 19_722),
        (649, 28, 19_781),
        (649, 30, 19_782),
        (649, 31, 19_782),
        (1561, 31, 47_540),
        (1608, 31, 48_972),
    ];
    for (month, number, day) in cases {
        assert!(rt; (329..=1608).contains(&month));
        let bcd = Bcd::new(number).ok_or("a cycle day")?;
        same(&rt, &(mark(month, bcd).number()), &day, &(number, month));
    }
    Ok(())
}
