//! The bills of a lane's accounts, also on a disk that fails as they are made.

use crate::compare::same;
use crate::lane::lanes::{TestLane, again, asked_in, count_of, paying_on_disk};
use crate::lane::rows::hold_lines;
use kb_lane::{Tally, bill};
use kb_samples::day;
use std::alloc::Global;
use std::process::Abort;
use std::test::Fail;

/// An account that pays by itself and is charged 500, and one that doesn't.
const ACCOUNTS: &str = "\
#3 a1 k1 =USD #1 #1 > ok 1
#12 a1 k2 #0 #0 #0 #0 #0 #0 #1 #244 > ok 2
#3 a2 k1 =USD #1 #0 > ok 1";

/// All bills are accepted.
const ALL: Tally = Tally {
    accepted: 2,
    refused: 0,
    disk: 0,
    full: 0,
    memory: 0,
};

/// The call of the disk that fails; the bills that are accepted, and how often the disk is told as failed;
/// how many commands are loaded from it then, and are there once the accounts are billed again; and how
/// often the gateway was asked.
type Stop = (u64, u64, u64, u64, u64, usize);

/// The lane is made by three calls, and each command that is written down makes four. Behind the accounts'
/// three the first one's bill comes, its payment, what the gateway said, and the other's bill.
static STOPS: [Stop; 16] = [
    (16, 0, 4, 3, 7, 1),
    (17, 0, 4, 3, 7, 1),
    (18, 0, 4, 3, 7, 1),
    (19, 0, 4, 4, 5, 0),
    (20, 1, 3, 4, 5, 0),
    (21, 1, 3, 4, 5, 0),
    (22, 1, 3, 4, 5, 0),
    (23, 1, 3, 5, 6, 0),
    (24, 1, 2, 5, 6, 1),
    (25, 1, 2, 5, 6, 1),
    (26, 1, 2, 5, 6, 1),
    (27, 1, 2, 6, 7, 1),
    (28, 1, 1, 6, 7, 1),
    (29, 1, 1, 6, 7, 1),
    (30, 1, 1, 6, 7, 1),
    (31, 1, 1, 7, 7, 1),
];

/// Bills a lane's accounts of 2024-03-01.
fn billed(lane: &mut TestLane, alloc: Global) -> Result<Tally, Fail> {
    Ok(bill(lane, alloc, day("2024-03-01")?))
}

#[test]
fn bills_of_a_day(rt: HostRuntime) -> Result<(), Fail> {
    hold_day(&rt, rt.alloc())
}

fn hold_day(rt: &impl Abort, alloc: Global) -> Result<(), Fail> {
    let mut lane = paying_on_disk(alloc, 0)?;
    hold_twice(rt, alloc, &mut lane)?;
    same(rt, &asked_in(lane), &Some(1), &"asked");
    Ok(())
}

/// The second time each account gets the bill that it has.
fn hold_twice(rt: &impl Abort, alloc: Global, lane: &mut TestLane) -> Result<(), Fail> {
    hold_lines(rt, alloc, lane, ACCOUNTS)?;
    for _ in 0..2 {
        let tally = billed(lane, alloc)?;
        same(rt, &(tally, count_of(lane)), &(ALL, 7), &"billed");
    }
    Ok(())
}

#[test]
fn disks_that_fail_under_bills(rt: HostRuntime) -> Result<(), Fail> {
    for stop in STOPS {
        hold_stop(&rt, rt.alloc(), stop)?;
    }
    Ok(())
}

fn hold_stop(rt: &impl Abort, alloc: Global, stop: Stop) -> Result<(), Fail> {
    let mut lane = paying_on_disk(alloc, stop.0)?;
    hold_fault(rt, alloc, &mut lane, stop)?;
    hold_again(rt, alloc, again(alloc, lane)?, stop)
}

/// A fault ends no more than what met it, and the lane takes nothing more.
fn hold_fault(rt: &impl Abort, alloc: Global, lane: &mut TestLane, stop: Stop) -> Result<(), Fail> {
    hold_lines(rt, alloc, lane, ACCOUNTS)?;
    let tally = billed(lane, alloc)?;
    let wanted = (stop.1, 0, stop.2, 0, 0);
    same(
        rt,
        &(
            tally.accepted,
            tally.refused,
            tally.disk,
            tally.full,
            tally.memory,
        ),
        &wanted,
        &stop.0,
    );
    Ok(())
}

/// Loaded again, the lane has what was written down, and its accounts are billed.
fn hold_again(rt: &impl Abort, alloc: Global, lane: TestLane, stop: Stop) -> Result<(), Fail> {
    let mut lane = lane;
    hold_counts(rt, alloc, &mut lane, stop)?;
    same(rt, &asked_in(lane), &Some(stop.5), &stop.0);
    Ok(())
}

fn hold_counts(
    rt: &impl Abort,
    alloc: Global,
    lane: &mut TestLane,
    stop: Stop,
) -> Result<(), Fail> {
    let loaded = count_of(lane);
    let tally = billed(lane, alloc)?;
    same(
        rt,
        &(loaded, tally, count_of(lane)),
        &(stop.3, ALL, stop.4),
        &stop.0,
    );
    Ok(())
}
