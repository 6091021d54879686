//! Blocking states: what is blocked on a day, and on which days that turns.

use crate::compare::same;
use kb_blocking::{AddFault, BlockState, Blocks, Chain, Flag, Flags, MAX_STATES, Scope};
use kb_days::{Day, FIRST_REACH, LAST_REACH, Reach};
use kb_samples::{SampleFault, day, name, reach};
use std::alloc::Global;
use std::process::Abort;

const CLEAR: Flags = Flags {
    change: false,
    entitlement: false,
    billing: false,
};

const FROZEN: Flags = Flags {
    change: true,
    entitlement: false,
    billing: false,
};

const PAUSED: Flags = Flags {
    change: true,
    entitlement: true,
    billing: true,
};

const UNBILLED: Flags = Flags {
    change: false,
    entitlement: false,
    billing: true,
};

/// The subscription 3 of the bundle 0.
const CHAIN: Chain = Chain {
    bundle: Some(0),
    subscription: Some(3),
};

/// The bundle 1.
const OTHER: Chain = Chain {
    bundle: Some(1),
    subscription: None,
};

/// What a blocking state speaks of, its service, its day, and its flags.
type Row = (Scope, &'static str, &'static str, Flags);

/// States of an account, two bundles and a subscription.
static STATES: [Row; 6] = [
    (Scope::Bundle(0), "entitlement", "2024-03-18", PAUSED),
    (Scope::Account, "fraud", "2024-03-23", FROZEN),
    (Scope::Bundle(0), "entitlement", "2024-03-28", CLEAR),
    (Scope::Bundle(1), "entitlement", "2024-04-02", PAUSED),
    (Scope::Subscription(3), "support", "2024-04-07", UNBILLED),
    (Scope::Account, "fraud", "2024-04-17", CLEAR),
];

/// A bundle, a subscription, a day, and whether changes, use and billing are blocked by those.
type OnDay = (Option<u32>, Option<u32>, &'static str, (bool, bool, bool));

static BLOCKED: [OnDay; 15] = [
    (Some(0), Some(3), "2024-03-17", (false, false, false)),
    (Some(0), Some(3), "2024-03-18", (true, true, true)),
    (Some(0), Some(3), "2024-03-27", (true, true, true)),
    (Some(0), Some(3), "2024-03-28", (true, false, false)),
    (Some(0), Some(3), "2024-04-06", (true, false, false)),
    (Some(0), Some(3), "2024-04-07", (true, false, true)),
    (Some(0), Some(3), "2024-04-17", (false, false, true)),
    (Some(0), Some(3), "the last day", (false, false, true)),
    (Some(0), Some(3), "the first day", (false, false, false)),
    (Some(0), None, "2024-04-07", (true, false, false)),
    (Some(1), None, "2024-04-01", (true, false, false)),
    (Some(1), None, "2024-04-17", (true, true, true)),
    (Some(2), Some(4), "2024-03-22", (false, false, false)),
    (None, None, "2024-03-23", (true, false, false)),
    (None, None, "2024-04-17", (false, false, false)),
];

/// States of 2024 that are accepted late, hidden, repeated, and replaced on their day.
static TURNING: [Row; 14] = [
    (Scope::Subscription(3), "support", "2024-12-31", PAUSED),
    (Scope::Bundle(0), "entitlement", "2024-03-18", PAUSED),
    (Scope::Bundle(0), "entitlement", "2024-03-28", CLEAR),
    (Scope::Account, "fraud", "2024-03-23", FROZEN),
    (Scope::Account, "overdue", "2024-03-26", UNBILLED),
    (Scope::Account, "overdue", "2024-03-28", UNBILLED),
    (Scope::Bundle(1), "entitlement", "2024-05-07", PAUSED),
    (Scope::Account, "overdue", "2024-05-17", CLEAR),
    (Scope::Subscription(3), "support", "2024-05-17", UNBILLED),
    (Scope::Account, "fraud", "2024-03-20", PAUSED),
    (Scope::Subscription(3), "support", "2024-06-26", CLEAR),
    (Scope::Bundle(0), "entitlement", "2024-01-01", FROZEN),
    (Scope::Account, "fraud", "2024-06-26", PAUSED),
    (Scope::Account, "fraud", "2024-06-26", CLEAR),
];

/// The days on which billing turns by those.
static TURNS: [&str; 3] = ["2024-03-18", "2024-06-26", "2024-12-31"];

/// The day of a text, or the first or the last one of all.
fn day_of(text: &str) -> Result<Reach, SampleFault> {
    match text {
        "the first day" => numbered(FIRST_REACH),
        "the last day" => numbered(LAST_REACH),
        _ => reach(text),
    }
}

fn numbered(number: u32) -> Result<Reach, SampleFault> {
    Reach::new(number).ok_or(SampleFault::Word)
}

/// The state of a row.
fn state(row: Row) -> Result<BlockState, SampleFault> {
    let (scope, service, from, flags) = row;
    Ok(BlockState {
        scope,
        service: name(service)?,
        state: name("STATE")?,
        day: day(from)?,
        flags,
    })
}

/// The states of these rows, accepted in their order.
fn accepted(alloc: Global, rows: &[Row]) -> Result<Blocks, SampleFault> {
    let mut blocks = Blocks::new(alloc);
    for row in rows {
        blocks = blocks.add(alloc, state(*row)?)?;
    }
    Ok(blocks)
}

#[test]
fn flags_of_a_chain(rt: HostRuntime) -> Result<(), SampleFault> {
    let blocks = accepted(rt.alloc(), &STATES)?;
    flags_are(&rt, &blocks)
}

fn flags_are(rt: &impl Abort, blocks: &Blocks) -> Result<(), SampleFault> {
    same(rt, &blocks.states().len(), &6, &"states");
    for row in &BLOCKED {
        same(rt, &flags_on(blocks, row)?, &row.3, row);
    }
    Ok(())
}

/// Whether changes, use and billing are blocked as a row asks.
fn flags_on(blocks: &Blocks, row: &OnDay) -> Result<(bool, bool, bool), SampleFault> {
    let day = day_of(row.2)?;
    let chain = Chain {
        bundle: row.0,
        subscription: row.1,
    };
    Ok((
        blocks.blocked(chain, Flag::Change, day),
        blocks.blocked(chain, Flag::Entitlement, day),
        blocks.blocked(chain, Flag::Billing, day),
    ))
}

#[test]
fn at_most_4096_states(rt: HostRuntime) -> Result<(), SampleFault> {
    let blocks = of_bundles(rt.alloc(), 4096)?;
    takes_no_more(&rt, rt.alloc(), &blocks)
}

fn takes_no_more(rt: &impl Abort, alloc: Global, blocks: &Blocks) -> Result<(), SampleFault> {
    let another = blocks.add(alloc, state(STATES[0])?).err();
    let found = (another, blocks.states().len());
    same(
        rt,
        &found,
        &(Some(AddFault::Limit), MAX_STATES),
        &"one more",
    );
    Ok(())
}

/// So many states, of a bundle each.
fn of_bundles(alloc: Global, count: u32) -> Result<Blocks, SampleFault> {
    let mut blocks = Blocks::new(alloc);
    for place in 0..count {
        let row = (Scope::Bundle(place), "fraud", "2024-03-18", FROZEN);
        blocks = blocks.add(alloc, state(row)?)?;
    }
    Ok(blocks)
}

/// The days of 2024 on which a flag differs from the day before.
fn walked(
    alloc: Global,
    blocks: &Blocks,
    chain: Chain,
    flag: Flag,
) -> Result<Vec<Day>, SampleFault> {
    let mut days = Vec::new(alloc);
    let mut was_on = false;
    for number in day("2024-01-01")?.number()..=day("2024-12-31")?.number() {
        let day = Day::new(number).ok_or(SampleFault::Word)?;
        let is_on = blocks.blocked(chain, flag, day.reach());
        if is_on != was_on {
            days.push(day)?;
        }
        was_on = is_on;
    }
    Ok(days)
}

#[test]
fn transitions_in_2024(rt: HostRuntime) -> Result<(), SampleFault> {
    let blocks = accepted(rt.alloc(), &TURNING)?;
    turns_are(&rt, rt.alloc(), &blocks)
}

fn turns_are(rt: &impl Abort, alloc: Global, blocks: &Blocks) -> Result<(), SampleFault> {
    turns_as_told(rt, alloc, blocks)?;
    for chain in [CHAIN, OTHER] {
        for flag in [Flag::Change, Flag::Entitlement, Flag::Billing] {
            turns_as_walked(rt, alloc, blocks, chain, flag)?;
        }
    }
    Ok(())
}

fn turns_as_told(rt: &impl Abort, alloc: Global, blocks: &Blocks) -> Result<(), SampleFault> {
    let turns = blocks.transitions(alloc, CHAIN, Flag::Billing)?;
    same(
        rt,
        &turns.as_slice(),
        &days_of(alloc, &TURNS)?.as_slice(),
        &"turns",
    );
    Ok(())
}

/// The days of some dates.
fn days_of(alloc: Global, dates: &[&str]) -> Result<Vec<Day>, SampleFault> {
    let mut days = Vec::new(alloc);
    for date in dates {
        days.push(day(date)?)?;
    }
    Ok(days)
}

fn turns_as_walked(
    rt: &impl Abort,
    alloc: Global,
    blocks: &Blocks,
    chain: Chain,
    flag: Flag,
) -> Result<(), SampleFault> {
    let turns = blocks.transitions(alloc, chain, flag)?;
    let walked = walked(alloc, blocks, chain, flag)?;
    same(rt, &turns.as_slice(), &walked.as_slice(), &(chain, flag));
    Ok(())
}
