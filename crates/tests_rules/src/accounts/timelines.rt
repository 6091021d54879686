//! Timelines: edits of one and more subscriptions, their refusals and limits, leads, and the entries of days.

use crate::compare::same;
use kb_days::{Day, FIRST_DAY, Reach};
use kb_samples::{SampleFault, day, name};
use kb_timeline::{EditFault, Entry, Limit, MAX_ENTRIES, PlanRef, Timeline};
use std::alloc::Global;
use std::process::Abort;

/// A step of an account.
#[derive(Clone, Copy, Debug)]
enum Step {
    /// A bundle, the name of a subscription in it, and its start.
    Create(&'static str, &'static str, &'static str),
    /// The place of a subscription, a day, and the place of the plan from then on.
    Change(u32, &'static str, u32),
    /// The place of a subscription, and the first day on which it isn't live any more.
    Cancel(u32, &'static str),
    /// The place of a subscription.
    Uncancel(u32),
}

/// A subscription that is changed on its start's day and later, and cancelled.
static CHANGED: [Step; 6] = [
    Step::Create("b1", "s1", "2024-01-18"),
    Step::Change(0, "2024-01-18", 1),
    Step::Change(0, "2024-02-29", 2),
    Step::Change(0, "2024-03-01", 0),
    Step::Change(0, "2024-10-04", 1),
    Step::Cancel(0, "2024-09-24"),
];

/// An entry on a day for the plan at a place, the phases of which are counted from that day.
fn entry(day: Day, plan: u32) -> Entry {
    Entry {
        day,
        plan: PlanRef {
            version: 0,
            list: 0,
            plan,
        },
        anchor: day,
    }
}

/// A timeline after a step.
fn after(alloc: Global, timeline: &Timeline, step: Step) -> Result<Timeline, SampleFault> {
    match step {
        Step::Create(bundle, sub, from) => created(alloc, timeline, bundle, sub, from),
        Step::Change(sub, from, plan) => changed(alloc, timeline, sub, entry(day(from)?, plan)),
        Step::Cancel(sub, from) => cancelled(alloc, timeline, sub, day(from)?),
        Step::Uncancel(sub) => uncancelled(alloc, timeline, sub),
    }
}

fn created(
    alloc: Global,
    timeline: &Timeline,
    bundle: &str,
    sub: &str,
    from: &str,
) -> Result<Timeline, SampleFault> {
    let (bundle, sub) = (name(bundle)?, name(sub)?);
    let first = entry(day(from)?, 0);
    Ok(timeline.create(alloc, bundle, sub, false, first)?)
}

fn changed(
    alloc: Global,
    timeline: &Timeline,
    sub: u32,
    entry: Entry,
) -> Result<Timeline, SampleFault> {
    if timeline.len() <= sub {
        return Err(SampleFault::Subscription);
    }
    Ok(timeline.change(alloc, sub, entry)?)
}

fn cancelled(
    alloc: Global,
    timeline: &Timeline,
    sub: u32,
    end: Day,
) -> Result<Timeline, SampleFault> {
    if timeline.len() <= sub {
        return Err(SampleFault::Subscription);
    }
    Ok(timeline.cancel(alloc, sub, end)?)
}

fn uncancelled(alloc: Global, timeline: &Timeline, sub: u32) -> Result<Timeline, SampleFault> {
    if timeline.len() <= sub {
        return Err(SampleFault::Subscription);
    }
    Ok(timeline.uncancel(alloc, sub)?)
}

/// The timeline after some steps, all of which are accepted.
fn made(alloc: Global, first: Timeline, steps: &[Step]) -> Result<Timeline, SampleFault> {
    let mut timeline = first;
    for step in steps {
        timeline = after(alloc, &timeline, *step)?;
    }
    Ok(timeline)
}

fn fault_of(fault: SampleFault) -> Option<EditFault> {
    match fault {
        SampleFault::Step(fault) => Some(fault),
        _ => None,
    }
}

/// A day so many days after the first one of all.
fn day_after(days: u32) -> Result<Day, SampleFault> {
    Day::new(FIRST_DAY.saturating_add(days)).ok_or(SampleFault::Word)
}

/// How many entries the only subscription has.
fn entry_count(timeline: &Timeline) -> Option<usize> {
    if timeline.len() != 1 {
        return None;
    }
    Some(timeline.subscription(0).entries.as_slice().len())
}

#[test]
fn no_more_than_1024_entries(rt: HostRuntime) -> Result<(), SampleFault> {
    let timeline = changed_each_day(rt.alloc())?;
    takes_no_entry(&rt, rt.alloc(), &timeline)
}

fn takes_no_entry(rt: &impl Abort, alloc: Global, timeline: &Timeline) -> Result<(), SampleFault> {
    let counts = (entry_count(timeline), MAX_ENTRIES);
    same(rt, &counts, &(Some(1024), 1024), &"counts");
    let another = changed_after(alloc, timeline, 1024).err();
    let full = EditFault::Limit(Limit::Entries);
    same(rt, &another.and_then(fault_of), &Some(full), &"one more");
    // a change that takes the place of others finds room
    let edited = changed_after(alloc, timeline, 1023)?;
    same(
        rt,
        &entry_count(&edited),
        &Some(1024),
        &"one in the place of another",
    );
    Ok(())
}

/// The timeline with a change so many days after the first one of all.
fn changed_after(alloc: Global, timeline: &Timeline, days: u32) -> Result<Timeline, SampleFault> {
    changed(alloc, timeline, 0, entry(day_after(days)?, 1))
}

/// A subscription that is changed on each of the 1023 days after its start.
fn changed_each_day(alloc: Global) -> Result<Timeline, SampleFault> {
    let start = Step::Create("b1", "s1", "2000-01-01");
    let mut timeline = made(alloc, Timeline::new(alloc), &[start])?;
    for days in 1..1024 {
        timeline = changed_after(alloc, &timeline, days)?;
    }
    Ok(timeline)
}

/// The place of the last entry dated on or before a day, by a look at each.
fn last_dated(entries: &[Entry], day: Reach) -> Option<usize> {
    let mut found = None;
    for (place, entry) in entries.iter().enumerate() {
        if entry.day.reach() <= day {
            found = Some(place);
        }
    }
    found
}

#[test]
fn governing_entries_of_2024(rt: HostRuntime) -> Result<(), SampleFault> {
    let timeline = made(rt.alloc(), Timeline::new(rt.alloc()), &CHANGED)?;
    govern_so(&rt, &timeline)
}

fn govern_so(rt: &impl Abort, timeline: &Timeline) -> Result<(), SampleFault> {
    for number in day("2024-01-01")?.number()..=day("2024-12-31")?.number() {
        let (place, wanted) = governing(timeline, number)?;
        same(rt, &place, &wanted, &number);
    }
    Ok(())
}

/// The place of the entry that governs a day, and the same by a look at each entry.
fn governing(
    timeline: &Timeline,
    number: u32,
) -> Result<(Option<usize>, Option<usize>), SampleFault> {
    let day = Reach::new(number).ok_or(SampleFault::Word)?;
    if timeline.len() != 1 {
        return Err(SampleFault::Subscription);
    }
    let wanted = last_dated(timeline.subscription(0).entries.as_slice(), day);
    let place = timeline.governing(0, day).map(|place| place as usize);
    Ok((place, wanted))
}
