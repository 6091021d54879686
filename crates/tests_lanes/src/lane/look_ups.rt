//! Open payments that are looked up, and how they are settled then.

use crate::compare::same;
use crate::lane::drains::PAID;
use crate::lane::lanes::{
    TestLane, again, calls_in, count_of, drained, looked_up, on_disk, with_gateway,
};
use crate::lane::rows::hold_lines;
use kb_book::Step;
use kb_gateway::{Seen, Told};
use kb_samples::day;
use std::alloc::Global;
use std::process::Abort;
use std::test::Fail;

/// What the gateway has seen of a payment whose order failed, at one look-up after another; the numbers of
/// its calls that fail; how many commands there are after each look-up; and the reply to another payment
/// then.
type LookUp = (
    &'static [Seen],
    &'static [u64],
    &'static [u64],
    &'static str,
);

static LOOK_UPS: [LookUp; 6] = [
    (
        &[Seen::Told(Told::Processed)],
        &[1],
        &[4],
        "#14 a1 k5 p2 #0 #0 #0 #1 #0 > refused 0",
    ),
    (
        &[Seen::NotSeen],
        &[1],
        &[4],
        "#14 a1 k5 p2 #0 #0 #0 #1 #0 > ok 5",
    ),
    (
        &[Seen::Told(Told::Undefined), Seen::Told(Told::Canceled)],
        &[1],
        &[3, 4],
        "#14 a1 k5 p2 #0 #0 #0 #1 #0 > ok 5",
    ),
    (
        &[Seen::Told(Told::Pending), Seen::Told(Told::Pending)],
        &[1],
        &[4, 4],
        "#14 a1 k5 p2 #0 #0 #0 #1 #0 > refused 0",
    ),
    (
        &[
            Seen::Told(Told::Pending),
            Seen::Told(Told::Undefined),
            Seen::Told(Told::Error),
        ],
        &[1],
        &[4, 5, 6],
        "#14 a1 k5 p2 #0 #0 #0 #1 #0 > ok 7",
    ),
    (
        &[Seen::Told(Told::Processed)],
        &[1, 2],
        &[3, 4],
        "#14 a1 k5 p2 #0 #0 #0 #1 #0 > refused 0",
    ),
];

#[test]
fn open_payments_that_are_looked_up(rt: HostRuntime) -> Result<(), Fail> {
    for row in &LOOK_UPS {
        hold_look_up(&rt, rt.alloc(), row)?;
    }
    Ok(())
}

/// Holds a row. The gateway hears one order, and one look-up each time.
fn hold_look_up(rt: &impl Abort, alloc: Global, row: &LookUp) -> Result<(), Fail> {
    let (seen, failing, ..) = *row;
    let mut lane = with_gateway(alloc, &[], seen, failing)?;
    hold_waiting(rt, alloc, &mut lane, row)?;
    hold_counts(rt, alloc, &mut lane, row)?;
    hold_calls(rt, lane, row)
}

/// Nothing is looked up that the outbox is yet to ask for.
fn hold_waiting(
    rt: &impl Abort,
    alloc: Global,
    lane: &mut TestLane,
    row: &LookUp,
) -> Result<(), Fail> {
    hold_lines(rt, alloc, lane, PAID)?;
    let today = day("2024-03-01")?;
    let step = looked_up(lane, alloc, today);
    let steps = drained(lane, alloc, today);
    same(
        rt,
        &(step, steps, count_of(lane)),
        &(Step::Done, (4, Step::Idle), 3),
        &row.3,
    );
    Ok(())
}

fn hold_counts(
    rt: &impl Abort,
    alloc: Global,
    lane: &mut TestLane,
    row: &LookUp,
) -> Result<(), Fail> {
    let today = day("2024-03-02")?;
    for count in row.2 {
        let step = looked_up(lane, alloc, today);
        same(rt, &(step, count_of(lane)), &(Step::Done, *count), &row.3);
    }
    hold_lines(rt, alloc, lane, row.3)
}

fn hold_calls(rt: &impl Abort, lane: TestLane, row: &LookUp) -> Result<(), Fail> {
    same(rt, &calls_in(lane), &Some(row.2.len() + 1), &row.3);
    Ok(())
}

/// The call of the disk that fails as the payment is settled, and how many commands are loaded from it
/// then. The lane is made by three calls, and each command that is written down makes four.
static FAULTS: [(u64, u64); 4] = [(16, 3), (17, 3), (18, 3), (19, 4)];

#[test]
fn disks_that_fail_under_a_look_up(rt: HostRuntime) -> Result<(), Fail> {
    for fault in FAULTS {
        hold_fault(&rt, rt.alloc(), fault)?;
    }
    Ok(())
}

fn hold_fault(rt: &impl Abort, alloc: Global, fault: (u64, u64)) -> Result<(), Fail> {
    let mut lane = on_disk(alloc, fault.0)?;
    hold_stopped(rt, alloc, &mut lane, fault.0)?;
    let lane = again(alloc, lane)?;
    same(rt, &count_of(&lane), &fault.1, &fault.0);
    Ok(())
}

/// The look-up ends with the fault, and the next one finds that the lane has stopped.
fn hold_stopped(
    rt: &impl Abort,
    alloc: Global,
    lane: &mut TestLane,
    call: u64,
) -> Result<(), Fail> {
    hold_lines(rt, alloc, lane, PAID)?;
    let today = day("2024-03-01")?;
    let steps = drained(lane, alloc, today);
    let first = looked_up(lane, alloc, today);
    let second = looked_up(lane, alloc, today);
    same(
        rt,
        &(steps, first, second),
        &((4, Step::Idle), Step::DiskFault, Step::Stopped(3)),
        &call,
    );
    Ok(())
}
