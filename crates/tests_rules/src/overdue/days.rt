//! Overdue states of days.

use crate::compare::same;
use kb_catalog_text::OVERDUE;
use kb_days::Day;
use kb_overdue::{Arrears, state_on};
use kb_samples::{SampleFault, day, overdue};
use std::alloc::Global;

/// States with all three conditions, with a count alone, and with a total alone.
const THREE: &str = r#"state = [
 {name="WORST", days=30, count=2, total=5000, block_change=true, block_entitlement=true, block_billing=true},
 {name="MANY", count=3, block_change=true, block_entitlement=false, block_billing=false},
 {name="MUCH", total=5000, block_change=false, block_entitlement=false, block_billing=false}]
"#;

/// A text of states, the day of the earliest unpaid invoice or nothing, how many are unpaid and how much, the
/// day that is asked, and the place of its state.
type Row = (
    &'static str,
    &'static str,
    u32,
    i128,
    &'static str,
    Option<u32>,
);

static ROWS: [Row; 21] = [
    // the shop's states go by days alone: 7, and 14
    (OVERDUE, "2024-03-01", 1, 1000, "2024-03-07", None),
    (OVERDUE, "2024-03-01", 1, 1000, "2024-03-08", Some(1)),
    (OVERDUE, "2024-03-01", 1, 1000, "2024-03-14", Some(1)),
    (OVERDUE, "2024-03-01", 1, 1000, "2024-03-15", Some(0)),
    (OVERDUE, "2024-03-01", 1, 1000, "2099-12-31", Some(0)),
    // on the day itself and before it nothing is late
    (OVERDUE, "2024-03-01", 1, 1000, "2024-03-01", None),
    (OVERDUE, "2024-03-01", 1, 1000, "2024-02-20", None),
    (OVERDUE, "2024-03-01", 1, 1000, "2000-01-01", None),
    // nothing is unpaid
    (OVERDUE, "", 0, 0, "2024-03-15", None),
    (THREE, "", 0, 0, "2024-03-15", None),
    // no state
    ("", "2024-03-01", 9, 9000, "2024-12-01", None),
    // the count alone, on any day
    (THREE, "2024-03-01", 2, 4999, "2024-03-01", None),
    (THREE, "2024-03-01", 3, 4999, "2024-03-01", Some(1)),
    (THREE, "2024-03-01", 3, 4999, "2024-02-20", Some(1)),
    // the total alone
    (THREE, "2024-03-01", 1, 5000, "2024-03-01", Some(2)),
    (THREE, "2024-03-01", 1, 4999, "2024-03-31", None),
    // both: the more severe is taken
    (THREE, "2024-03-01", 3, 5000, "2024-03-01", Some(1)),
    // all three, and all but one
    (THREE, "2024-03-01", 2, 5000, "2024-03-31", Some(0)),
    (THREE, "2024-03-01", 2, 5000, "2024-03-30", Some(2)),
    (THREE, "2024-03-01", 1, 5000, "2024-03-31", Some(2)),
    (THREE, "2024-03-01", 2, 4999, "2024-03-31", None),
];

#[test]
fn states_of_days(rt: HostRuntime) -> Result<(), SampleFault> {
    for row in &ROWS {
        same(&rt, &place_of(rt.alloc(), row)?, &row.5, row);
    }
    Ok(())
}

/// The place of the state of a row.
fn place_of(alloc: Global, row: &Row) -> Result<Option<u32>, SampleFault> {
    let (arrears, asked) = (arrears(row)?, day(row.4)?);
    let checked = overdue(alloc, row.0)?;
    Ok(state_on(checked.config(), &arrears, asked))
}

/// What is unpaid in a row.
fn arrears(row: &Row) -> Result<Arrears, SampleFault> {
    Ok(Arrears {
        earliest: earliest(row.1)?,
        count: row.2,
        total: row.3,
    })
}

/// The day of a date; none of an empty text.
fn earliest(date: &str) -> Result<Option<Day>, SampleFault> {
    if date.is_empty() {
        return Ok(None);
    }
    Ok(Some(day(date)?))
}
