//! Markets that fail.
ghost use Rattle.tests_lanes.specs.Insides.{AllInside};

use crate::runs::shop::{ACCEPTS, ANSWERS, LINES};
use crate::shop_runs::holding::{hold_end, hold_run};
use crate::shop_runs::runs::{APPLY, make_lanes, run};
use crate::shop_runs::script::SILENT;
use crate::shop_runs::shops::{empty_vault, failing_market};
use kb_disk::MemoryVault;
use std::alloc::Global;
use std::test::Fail;

#[test]
fn markets_that_fail(rt: HostRuntime) -> Result<(), Fail> {
    let mut vault = empty_vault(rt.alloc())?;
    hold_markets(rt.alloc(), &mut vault)
}

/// No line is read, and all lanes are given back, so that the next run may open them.
fn hold_markets(alloc: Global, vault: &mut MemoryVault) -> Result<(), Fail>
    requires inside { AllInside vault.old }
    ensures inside { AllInside vault.new }
{
    make_lanes(alloc, vault, 3, "o")?;
    hold_market(alloc, vault, 1)?;
    hold_market(alloc, vault, 2)?;
    hold_market(alloc, vault, 3)?;
    hold_run(alloc, vault, 3, &ACCEPTS, LINES, ANSWERS, "markets")
}

/// A run that a call of the market ended says so.
fn hold_market(alloc: Global, vault: &mut MemoryVault, call: u64) -> Result<(), Fail>
    requires inside { AllInside vault.old }
    ensures inside { AllInside vault.new }
{
    let mut market = failing_market(alloc, 3, &SILENT, &[call])?;
    let found = run(alloc, vault, &mut market, APPLY, LINES)?;
    hold_end(alloc, found, (10, "billd: market\n"), "a market")
}
