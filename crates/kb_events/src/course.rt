//! What happens to a subscription.
ghost use Rattle.std.specs.Prelude.{◌≡◌, ◌≤◌, slice_get, Some, All, IfOk};
ghost use Rattle.kb_days.specs.Calendar.{first_day};
ghost use Rattle.kb_timeline.specs.declared.entry.Entry as entries;
ghost use Rattle.kb_events.specs.Private.Courses.{IsCourse};

use crate::cutting::cuts;
use crate::ending::life_end;
use kb_base::NoMemory;
use kb_blocking::Flag;
use kb_days::Day;
use kb_due::{Facts, chain_of};
use kb_timeline::{Entry, Subscription};
use std::alloc::Global;

/// The cuts of a subscription, the turns of its billing flag, and the end of its life as an add-on.
#[derive(Debug, Drop)]
pub(crate) struct Course {
    pub(crate) cuts: Vec<u32>,
    pub(crate) turns: Vec<Day>,
    pub(crate) end: Option<u32>,
}

/// What happens to the subscription at a place.
pub(crate) fn course_of(
    alloc: Global,
    facts: &Facts,
    subscription: &Subscription,
    sub: u32,
) -> Result<Course, NoMemory>
    ensures { IfOk result (λ course. IsCourse facts.now subscription.now sub course.cuts.items
        course.turns.items course.end) }
{
    let start = start_of(subscription);
    let turns = facts
        .blocks
        .transitions(alloc, chain_of(subscription, sub), Flag::Billing)?;
    let cuts = cuts(alloc, facts, subscription, &turns)?;
    let end = life_end(facts, subscription, start, &cuts);
    Ok(Course { cuts, turns, end })
}

/// The start of a subscription.
fn start_of(subscription: &Subscription) -> &Entry
    ensures start { slice_get subscription.now.entries 0 ≡ Some result.now }
    ensures named { All (λ (entry : entries.Entry). first_day ≤ entry.day) subscription.now.entries }
{
    let start = &subscription.entries.as_slice()[0];
    // The check has to see that the day is one that commands name.
    let _named = start.day.number();
    start
}
