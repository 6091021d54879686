//! What the making of lanes comes to where something is wrong.

use crate::folders::shops::{founded, has_bytes, shop};
use kb_catalog_text::{OVERDUE, SHOP};
use std::alloc::Global;
use std::test::Fail;

/// A text that says a key which no overdue text has.
const NO_STATES: &str = "states = []";

/// The number of the vault's call that fails, that of the call of lane 1's disk, the catalog text, the
/// overdue text, what three lanes come to, how many faults are counted, and what it comes to when it is
/// tried again.
type Row = (
    u64,
    u64,
    &'static str,
    &'static str,
    &'static str,
    u64,
    &'static str,
);

static ROWS: [Row; 21] = [
    (0, 0, SHOP, OVERDUE, "made", 0, "not empty 0"),
    (0, 0, "a", OVERDUE, "text 1", 0, "text 1"),
    (0, 0, "a", NO_STATES, "text 1", 0, "text 1"),
    (0, 0, SHOP, NO_STATES, "text 4", 0, "text 4"),
    (1, 0, SHOP, OVERDUE, "disk", 1, "made"),
    (2, 0, SHOP, OVERDUE, "disk", 1, "made"),
    (3, 0, SHOP, OVERDUE, "disk", 1, "made"),
    (4, 0, SHOP, OVERDUE, "disk", 1, "not empty 0"),
    (5, 0, SHOP, OVERDUE, "disk", 1, "not empty 0"),
    (6, 0, SHOP, OVERDUE, "made", 0, "disk"),
    (1, 0, "a", OVERDUE, "disk", 1, "text 1"),
    (2, 0, "a", OVERDUE, "text 1", 0, "disk"),
    (0, 1, SHOP, OVERDUE, "disk", 1, "not empty 0"),
    (0, 2, SHOP, OVERDUE, "disk", 1, "not empty 0"),
    (0, 3, SHOP, OVERDUE, "disk", 1, "not empty 0"),
    (0, 4, SHOP, OVERDUE, "disk", 1, "not empty 0"),
    (0, 7, SHOP, OVERDUE, "disk", 1, "not empty 0"),
    (0, 8, SHOP, OVERDUE, "disk", 1, "not empty 0"),
    (0, 11, SHOP, OVERDUE, "disk", 1, "not empty 0"),
    (0, 12, SHOP, OVERDUE, "made", 0, "not empty 0"),
    (1, 1, SHOP, OVERDUE, "disk", 1, "disk"),
];

#[test]
fn what_lanes_come_to(rt: HostRuntime) -> Result<(), Fail> {
    let alloc = rt.alloc();
    for row in &ROWS {
        let (failing, of_disk, _, _, wanted, faults, again) = *row;
        let (first, counted, second) = tried(alloc, row)?;
        assert_eq!(rt;
            (first.as_str(), counted, second.as_str()),
            (wanted, faults, again),
            "{failing} and {of_disk} fail"
        );
    }
    Ok(())
}

/// What three lanes come to, how many faults are counted then, and what they come to a second time.
fn tried(alloc: Global, row: &Row) -> Result<(String, u64, String), Fail> {
    let (failing, of_disk, catalog, overdue, ..) = *row;
    let mut vault = shop(alloc, (catalog, overdue), &[], failing, of_disk)?;
    let first = founded(alloc, &mut vault)?;
    let counted = vault.faults();
    let second = founded(alloc, &mut vault)?;
    Ok((first, counted, second))
}

/// The catalog text, what three lanes come to of which lane 1 has a byte, and which of them have bytes then.
static LEFT: [(&str, &str, (bool, bool, bool)); 2] = [
    ("a", "text 1", (false, true, false)),
    (SHOP, "not empty 1", (true, true, false)),
];

#[test]
fn lanes_that_are_left(rt: HostRuntime) -> Result<(), Fail> {
    for (catalog, wanted, bytes) in LEFT {
        let (said, found) = left(rt.alloc(), catalog)?;
        assert_eq!(rt; (said.as_str(), found), (wanted, bytes));
    }
    Ok(())
}

fn left(alloc: Global, catalog: &str) -> Result<(String, (bool, bool, bool)), Fail> {
    let mut vault = shop(alloc, (catalog, OVERDUE), &[7], 0, 0)?;
    let said = founded(alloc, &mut vault)?;
    let first = has_bytes(alloc, &mut vault, 0)?;
    let second = has_bytes(alloc, &mut vault, 1)?;
    let third = has_bytes(alloc, &mut vault, 2)?;
    Ok((said, (first, second, third)))
}
