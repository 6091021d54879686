//! Pieces and fees beside a look at each day of 2024.
ghost use Rattle.std.specs.Prelude.{◌<◌, length};

use crate::compare::same;
use kb_catalog::Catalog;
use kb_days::{Day, Reach};
use kb_due::{Cell, Facts, Piece};
use kb_events::{charged_through, fees, pieces};
use kb_samples::{Case, SampleFault, cells_on, day, facts, is_there, reach};
use std::alloc::Global;
use std::process::Abort;
use std::test::Fail;

/// What is held of an account.
pub(crate) enum Held {
    /// Its pieces and fees are as a look at each day finds them, for some billed dates.
    Pieces(&'static [&'static str]),
    /// Its last piece ends.
    Ends,
}

/// What is held of each account.
pub(crate) fn hold(rt: &impl Abort, alloc: Global, cases: &[Case<Held>]) -> Result<(), Fail> {
    for case in cases {
        holds(rt, alloc, case)?;
    }
    Ok(())
}

fn holds(rt: &impl Abort, alloc: Global, case: &Case<Held>) -> Result<(), SampleFault> {
    let catalog = case.catalog(alloc)?;
    holds_with(rt, alloc, &catalog, case)
}

fn holds_with(
    rt: &impl Abort,
    alloc: Global,
    catalog: &Catalog,
    case: &Case<Held>,
) -> Result<(), SampleFault> {
    let account = case.account(alloc, catalog)?;
    let facts = facts(catalog, &account, case.bcd)?;
    is_held(rt, alloc, &facts, &case.held)
}

fn is_held(rt: &impl Abort, alloc: Global, facts: &Facts, held: &Held) -> Result<(), SampleFault> {
    match held {
        Held::Pieces(billed) => holds_on(rt, alloc, facts, billed),
        Held::Ends => ends_are(rt, alloc, facts),
    }
}

/// The cell of the piece that has a day.
fn cell_at(pieces: &[Piece], day: Reach) -> Option<Cell> {
    let mut found = None;
    for piece in pieces {
        if piece.from <= day && day < piece.to {
            found = Some(piece.cell);
        }
    }
    found
}

/// Holds the pieces and the fees of each subscription of an account against its due cells and fee cells on
/// each day of 2024, for some billed dates.
pub(crate) fn holds_on(
    rt: &impl Abort,
    alloc: Global,
    facts: &Facts,
    billed: &[&str],
) -> Result<(), SampleFault> {
    for date in billed {
        holds_each_day(rt, alloc, facts, day(date)?)?;
    }
    Ok(())
}

/// Holds those of each subscription for one billed date.
fn holds_each_day(
    rt: &impl Abort,
    alloc: Global,
    facts: &Facts,
    billed: Day,
) -> Result<(), SampleFault> {
    for sub in 0..facts.timeline.len() {
        is_there(facts, sub)?;
        holds_of(rt, alloc, facts, sub, billed)?;
    }
    Ok(())
}

/// Holds those of one subscription for one billed date.
fn holds_of(
    rt: &impl Abort,
    alloc: Global,
    facts: &Facts,
    sub: u32,
    billed: Day,
) -> Result<(), SampleFault>
    requires there { sub < length facts.now.timeline.subscriptions }
{
    let found = pieces(alloc, facts, sub, billed)?;
    let once = fees(alloc, facts, sub, billed)?;
    days_hold(rt, facts, (sub, billed), &found, &once)
}

/// Holds pieces and fees of one subscription and one billed date.
fn days_hold(
    rt: &impl Abort,
    facts: &Facts,
    of: (u32, Day),
    found: &[Piece],
    once: &[Piece],
) -> Result<(), SampleFault>
    requires there { of.0 < length facts.now.timeline.subscriptions }
{
    for number in reach("2024-01-01")?.number()..=reach("2024-12-31")?.number() {
        let day = Reach::new(number).ok_or(SampleFault::Word)?;
        let cells = (cell_at(found, day), cell_at(once, day));
        same(rt, &cells, &cells_on(facts, of.0, of.1, day), &(of, number));
    }
    Ok(())
}

/// The last piece of the first subscription ends, billed on 2024-03-01.
fn ends_are(rt: &impl Abort, alloc: Global, facts: &Facts) -> Result<(), SampleFault> {
    is_there(facts, 0)?;
    let found = pieces(alloc, facts, 0, day("2024-03-01")?)?;
    let ends = (charged_through(&found), charged_through(&[]));
    same(rt, &ends, &(Some(reach("2024-04-01")?), None), &"ends");
    Ok(())
}
