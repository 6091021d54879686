//! Prices, parts of a period, and currencies.

use crate::compare::same;
use kb_money::{Currency, MAX_DAYS, MAX_MINOR, Minor, cum, part};
use std::test::Fail;

#[test]
fn ends_of_a_price(rt: HostRuntime) -> Result<(), Fail> {
    for units in [0, 1, 1_000_000_000] {
        same(
            &rt,
            &(Minor::new(units).ok_or("a price")?.units()),
            &units,
            &"",
        );
    }
    for units in [1_000_000_001, u64::MAX] {
        same(&rt, &Minor::new(units), &None, &units);
    }
    Ok(())
}

#[test]
fn parts_of_a_period(rt: HostRuntime) -> Result<(), Fail> {
    // price, days, from, to, cost
    let cases = [
        (3100, 31, 9, 31, 2200),
        (1000, 31, 9, 31, 710),
        (1000, 31, 19, 31, 387),
        (15, 30, 0, 3, 2),
        (15, 30, 3, 8, 2),
        (15, 30, 8, 30, 11),
        (1000, 29, 13, 29, 552),
        (0, 31, 0, 31, 0),
        (MAX_MINOR, MAX_DAYS, 0, MAX_DAYS, MAX_MINOR),
        (MAX_MINOR, MAX_DAYS, 0, 1, 1_367_989),
        (MAX_MINOR, MAX_DAYS, 730, MAX_DAYS, 1_367_989),
    ];
    for (units, days, from, to, cost) in cases {
        let price = Minor::new(units).ok_or("a price")?;
        assert!(rt; from <= to && to <= days && 1 <= days && days <= MAX_DAYS);
        same(
            &rt,
            &(part(price, days, from, to)),
            &cost,
            &(units, from, to),
        );
    }
    Ok(())
}

#[test]
fn halves_are_rounded_up(rt: HostRuntime) -> Result<(), Fail> {
    // price, days, count, total
    let cases = [
        (15, 30, 0, 0),
        (15, 30, 1, 1),
        (15, 30, 2, 1),
        (15, 30, 3, 2),
        (3100, 31, 9, 900),
        (1000, 31, 19, 613),
    ];
    for (units, days, count, total) in cases {
        let price = Minor::new(units).ok_or("a price")?;
        assert!(rt; count <= days && 1 <= days && days <= MAX_DAYS);
        same(
            &rt,
            &(cum(price, days, count)),
            &total,
            &(units, count, days),
        );
    }
    Ok(())
}

#[test]
fn codes_of_currencies(rt: HostRuntime) -> Result<(), Fail> {
    for code in ["USD", "AAA", "ZZZ"] {
        let currency = Currency::new(code.as_bytes()).ok_or("a currency")?;
        same(&rt, &currency.as_bytes(), &code.as_bytes(), &"");
        same(&rt, &(currency.to_string(rt.alloc())?.as_str()), &code, &"");
    }
    for other in ["", "US", "USDT", "usd", "US1", "US[", "US@", "É1"] {
        same(&rt, &Currency::new(other.as_bytes()), &None, &other);
    }
    Ok(())
}
