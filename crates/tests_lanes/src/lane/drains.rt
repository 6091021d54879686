//! What lanes do by themselves: payments that are asked for, and how they are settled.

use crate::compare::same;
use crate::lane::lanes::{TestLane, count_of, drained, with_gateway};
use crate::lane::rows::hold_lines;
use kb_book::Step;
use kb_gateway::Told;
use kb_payment::Kind;
use kb_samples::day;
use std::alloc::Global;
use std::process::Abort;
use std::test::Fail;

/// A charge of 500 is paid, and the payment asked for again under its key.
pub(crate) const PAID: &str = "\
#3 a1 k1 =USD #1 #0 > ok 1
#12 a1 k2 #0 #0 #0 #0 #0 #0 #1 #244 > ok 2
#14 a1 k3 p1 #0 #0 #0 #1 #0 > ok 3
#14 a1 k3 p1 #0 #0 #0 #1 #0 > ok 3
#14 a1 k4 p1 #0 #0 #0 #1 #0 > refused 0";

/// What the gateway answers, the numbers of its calls that fail, how many entries are handled, how many
/// commands there are then, and the reply to another payment.
type Drain = (&'static [Told], &'static [u64], u32, u64, &'static str);

static DRAINS: [Drain; 5] = [
    (
        &[Told::Processed],
        &[],
        5,
        4,
        "#14 a1 k5 p2 #0 #0 #0 #1 #0 > refused 0",
    ),
    (
        &[Told::Error],
        &[],
        5,
        4,
        "#14 a1 k5 p2 #0 #0 #0 #1 #0 > ok 5",
    ),
    (
        &[Told::Pending],
        &[],
        5,
        4,
        "#14 a1 k5 p2 #0 #0 #0 #1 #0 > refused 0",
    ),
    (
        &[Told::Undefined],
        &[],
        4,
        3,
        "#14 a1 k5 p2 #0 #0 #0 #1 #0 > refused 0",
    ),
    (
        &[Told::Processed],
        &[1],
        4,
        3,
        "#14 a1 k5 p2 #0 #0 #0 #1 #0 > refused 0",
    ),
];

#[test]
fn payments_that_are_asked_for(rt: HostRuntime) -> Result<(), Fail> {
    for row in &DRAINS {
        hold_drain(&rt, rt.alloc(), row)?;
    }
    Ok(())
}

/// Holds a row. The gateway is asked once, for all that is charged, whatever it answers.
fn hold_drain(rt: &impl Abort, alloc: Global, row: &Drain) -> Result<(), Fail> {
    let (told, failing, ..) = *row;
    let mut lane = with_gateway(alloc, told, &[], failing)?;
    hold_drained(rt, alloc, &mut lane, row)?;
    hold_asked(rt, lane, row)
}

fn hold_drained(
    rt: &impl Abort,
    alloc: Global,
    lane: &mut TestLane,
    row: &Drain,
) -> Result<(), Fail> {
    let (_, _, handled, count, next) = *row;
    hold_lines(rt, alloc, lane, PAID)?;
    let steps = drained(lane, alloc, day("2024-03-01")?);
    same(
        rt,
        &(steps, count_of(lane)),
        &((handled, Step::Idle), count),
        &next,
    );
    hold_lines(rt, alloc, lane, next)
}

fn hold_asked(rt: &impl Abort, lane: TestLane, row: &Drain) -> Result<(), Fail> {
    let (_, gateway) = lane.into_parts();
    let asked = gateway.asked().ok_or("what was asked")?;
    let order = asked.first().ok_or("an order")?;
    same(
        rt,
        &(asked.len(), order.kind, order.amount),
        &(1, Kind::Purchase, 500),
        &row.4,
    );
    Ok(())
}
