//! Generated accounts: their pieces and fees beside a look at each day.

use crate::pieces::held::holds_on;
use kb_catalog::Catalog;
use kb_samples::{CLUB, SampleFault, catalog, draw_account, facts};
use std::alloc::Global;
use std::process::Abort;
use std::test::Fail;

#[test]
fn pieces_of_generated_accounts(rt: HostRuntime) -> Result<(), Fail> {
    let catalog = catalog(rt.alloc(), &[CLUB])?;
    for seed in 0..10 {
        generated_holds(&rt, rt.alloc(), &catalog, seed)?;
    }
    Ok(())
}

/// Holds an account that was drawn for its dates.
fn generated_holds(
    rt: &impl Abort,
    alloc: Global,
    catalog: &Catalog,
    seed: u32,
) -> Result<(), SampleFault> {
    let drawn = draw_account(alloc, catalog, seed)?;
    let facts = facts(catalog, &drawn.account, drawn.bcd)?;
    holds_on(rt, alloc, &facts, &drawn.billed)
}
