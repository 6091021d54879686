//! Overdue states: their rules, and what is handed back.

use crate::compare::same;
use kb_days::Name;
use kb_overdue::{Config, OverdueState, Threshold};
use kb_samples::SampleFault;
use std::alloc::Global;
use std::process::Abort;

/// A state's name, its days, count and total, of which 0 is no condition, and whether it blocks changes and
/// entitlement or nothing.
type State = (&'static str, u64, u64, u64, bool);

fn state(row: &State) -> Result<OverdueState, SampleFault> {
    let (name, days, count, total, blocks) = *row;
    Ok(OverdueState {
        name: Name::new(name.as_bytes()).ok_or(SampleFault::Word)?,
        days: Threshold::new(days),
        count: Threshold::new(count),
        total: Threshold::new(total),
        block_change: blocks,
        block_entitlement: blocks,
        block_billing: false,
    })
}

#[test]
fn states_are_handed_back(rt: HostRuntime) -> Result<(), SampleFault> {
    static CASES: [[State; 2]; 2] = [
        [("BLOCKED", 14, 0, 0, true), ("WARNING", 7, 0, 0, false)],
        [("MANY", 0, 3, 0, false), ("MUCH", 0, 0, 1000, false)],
    ];
    for rows in &CASES {
        are_handed_back(&rt, rt.alloc(), rows)?;
    }
    Ok(())
}

fn are_handed_back(rt: &impl Abort, alloc: Global, rows: &[State; 2]) -> Result<(), SampleFault> {
    let states = [state(&rows[0])?, state(&rows[1])?];
    let config = Config::check(states.to_vec(alloc)?).ok();
    let is_same = config.is_some_and(|config| config.states() == states.as_slice());
    same(rt, &is_same, &true, rows);
    Ok(())
}

#[test]
fn ends_of_a_threshold(rt: HostRuntime) -> Result<(), SampleFault> {
    static ROWS: [(u64, bool); 6] = [
        (0, false),
        (1, true),
        (2, true),
        (1_000_000_000_000, true),
        (1_000_000_000_001, false),
        (u64::MAX, false),
    ];
    for row in &ROWS {
        let (number, is_one) = *row;
        let found = Threshold::new(number).map(Threshold::number);
        same(&rt, &found, &is_one.then_some(number), row);
    }
    Ok(())
}
