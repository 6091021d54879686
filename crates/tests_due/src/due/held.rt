//! What is held of accounts.

use crate::due::due_days::has_no_cells;
use crate::due::states::{are_chosen, is_asked};
use kb_catalog::Catalog;
use kb_due::Facts;
use kb_samples::{Case, SampleFault, facts};
use std::alloc::Global;
use std::process::Abort;
use std::test::Fail;

/// What is held of an account.
pub(crate) enum Held {
    /// It has no cell from the end of days on.
    NoCells,
    /// Its lead's choices are as rows say.
    Choices,
    /// The rules are asked for its add-on's plan.
    Asked,
}

/// What is held of each account.
pub(crate) fn hold(rt: &impl Abort, alloc: Global, cases: &[Case<Held>]) -> Result<(), Fail> {
    for case in cases {
        holds(rt, alloc, case)?;
    }
    Ok(())
}

fn holds(rt: &impl Abort, alloc: Global, case: &Case<Held>) -> Result<(), SampleFault> {
    let catalog = case.catalog(alloc)?;
    holds_with(rt, alloc, &catalog, case)
}

fn holds_with(
    rt: &impl Abort,
    alloc: Global,
    catalog: &Catalog,
    case: &Case<Held>,
) -> Result<(), SampleFault> {
    let account = case.account(alloc, catalog)?;
    let facts = facts(catalog, &account, case.bcd)?;
    is_held(rt, &facts, &case.held)
}

fn is_held(rt: &impl Abort, facts: &Facts, held: &Held) -> Result<(), SampleFault> {
    match held {
        Held::NoCells => has_no_cells(rt, facts),
        Held::Choices => are_chosen(rt, facts),
        Held::Asked => is_asked(rt, facts),
    }
}
