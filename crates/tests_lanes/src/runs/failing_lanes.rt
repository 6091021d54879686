//! Shops of one lane whose disk fails.
ghost use Rattle.tests_lanes.specs.Insides.{AllInside};

use crate::shop_runs::holding::hold_end;
use crate::shop_runs::runs::{APPLY, make_lanes, run};
use crate::shop_runs::script::Script;
use crate::shop_runs::shops::{bytes_in, empty_vault, market_of};
use kb_disk::MemoryVault;
use std::alloc::Global;
use std::test::Fail;

/// The bytes of the lane of a new shop.
pub(crate) fn founded_bytes(alloc: Global) -> Result<Vec<u8>, Fail> {
    let mut vault = empty_vault(alloc)?;
    make_lanes(alloc, &mut vault, 1, "o")?;
    bytes_in(alloc, &mut vault)
}

/// A run ends with the fault. What the lane can't do any more is answered so.
pub(crate) fn hold_stopped(
    alloc: Global,
    vault: &mut MemoryVault,
    script: &Script,
    lines: &str,
    answers: &str,
) -> Result<(), Fail>
    requires inside { AllInside vault.old }
    ensures inside { AllInside vault.new }
{
    let mut market = market_of(alloc, 1, script)?;
    let wanted = format!(in alloc; "{answers}billd: disk\n")?;
    let found = run(alloc, vault, &mut market, APPLY, lines)?;
    hold_end(alloc, found, (5, wanted.as_str()), "a disk")
}
