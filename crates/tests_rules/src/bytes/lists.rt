//! Counts of faults, lists, and lists whose members are shared.

use crate::compare::same;
use kb_base::{Failed, FaultCount, Seq, shared};
use std::sync::Arc;
use std::test::Fail;

#[test]
fn failed_calls_are_counted(rt: HostRuntime) {
    let mut faults = FaultCount::new();
    for count in 1..4 {
        same(
            &rt,
            &(faults.fail(), faults.number()),
            &(Failed, count),
            &"",
        );
    }
    let three = faults;
    faults.add(three);
    same(&rt, &faults.number(), &6, &"");
}

#[test]
fn a_count_stands_still_at_its_last_value(rt: HostRuntime) {
    let mut last = FaultCount::new();
    same(&rt, &last.fail(), &Failed, &"");
    // Twice as many each time.
    for _ in 0..64 {
        let as_many = last;
        last.add(as_many);
    }
    same(&rt, &last.number(), &u64::MAX, &"");
    same(&rt, &(last.fail(), last.number()), &(Failed, u64::MAX), &"");
    let mut six = FaultCount::new();
    for _ in 0..6 {
        same(&rt, &six.fail(), &Failed, &"");
    }
    six.add(last);
    same(&rt, &six.number(), &u64::MAX, &"");
}

#[test]
fn members_stand_in_the_order_in_which_they_came(rt: HostRuntime) -> Result<(), Fail> {
    let mut seq = Seq::new(rt.alloc());
    assert!(rt; seq.is_empty());
    for member in [5u8, 6, 5] {
        seq.push(member)?;
    }
    same(&rt, &(seq.is_empty(), seq.len()), &(false, 3), &"");
    same(&rt, &seq.as_slice(), &([5u8, 6, 5].as_slice()), &"");
    let members = seq.into_vec();
    same(
        &rt,
        &Seq::from_vec(members).as_slice(),
        &([5u8, 6, 5].as_slice()),
        &"",
    );
    Ok(())
}

#[test]
fn shared_members_are_the_same(rt: HostRuntime) -> Result<(), Fail> {
    let alloc = rt.alloc();
    let mut members = Vec::new(alloc);
    members.push(Arc::new(alloc, 5u8)?)?;
    members.push(Arc::new(alloc, 6)?)?;
    let copy = shared(alloc, members.as_slice())?;
    same(&rt, &(copy.len(), *copy[0], *copy[1]), &(2, 5, 6), &"");
    Ok(())
}
