//! Vaults that fail.

use crate::shop_runs::holding::hold_words;
use crate::shop_runs::runs::APPLY;
use crate::shop_runs::shops::laneless;
use std::alloc::Global;
use std::test::Fail;

/// The words of two runs over a shop of two lanes. The first makes four calls of the vault, and the second
/// two.
const INIT: &str = "init --dir shop --lanes 2 --catalog c --overdue o";

/// How a run ends: its status, and its last output line.
type End = (u8, &'static str);

const DISK: End = (5, "billd: disk\n");

const EMPTY: End = (6, "billd: journal 0 0\n");

const MADE: End = (0, "");

/// Which call of the vault fails, and how the two runs end.
static VAULTS: [(u64, End, End); 7] = [
    (1, DISK, EMPTY),
    (2, DISK, EMPTY),
    (3, DISK, EMPTY),
    (4, DISK, (6, "billd: journal 1 0\n")),
    (5, MADE, DISK),
    (6, MADE, DISK),
    (7, MADE, MADE),
];

#[test]
fn vaults_that_fail(rt: HostRuntime) -> Result<(), Fail> {
    for row in VAULTS {
        hold_vault(rt.alloc(), row)?;
    }
    Ok(())
}

fn hold_vault(alloc: Global, row: (u64, End, End)) -> Result<(), Fail> {
    let mut vault = laneless(alloc, "", &[row.0])?;
    hold_words(alloc, &mut vault, 2, INIT, "", row.1)?;
    hold_words(alloc, &mut vault, 2, APPLY, "", row.2)
}
