//! The pieces of a subscription.
ghost use Rattle.std.specs.Prelude.{◌≡◌, ◌<◌, ◌≤◌, ◌-◌, ◌⊎◌, ℕ, true, length, map, All, None, IfOk};
ghost use Rattle.std.specs.Prelude.{OnOk};
ghost use Rattle.kb_base.specs.Runs.{runs, AreRuns};
ghost use Rattle.kb_days.specs.Calendar.{first_day, charged_days, end_of_days};
ghost use Rattle.kb_due.specs.Facts.{chain_of};
ghost use Rattle.kb_due.specs.DueDays.{due_of, due_on};
ghost use Rattle.kb_events.specs.Pieces as told;
ghost use Rattle.kb_due.specs.CellStretches.{same_cell, stretch_of, IsInCell};
ghost use Rattle.kb_events.specs.Private.Courses.{IsCourse};
ghost use Rattle.kb_events.specs.Private.Ends.{IsLifeEnd};
ghost use Rattle.kb_events.specs.Private.QuietDays.{IsQuietBetween};
ghost use Rattle.kb_events.specs.Private.Shorts.{AreShort};
ghost use Rattle.kb_events.specs.Private.Standing.{IsStanding};

use crate::course::{Course, course_of};
use crate::cutting::cut_day;
use crate::living::is_alive;
use crate::periods::push_periods;
use crate::standing::{Standing, first_standing, next_standing};
use kb_base::NoMemory;
use kb_days::{Day, Reach};
use kb_due::{Facts, Governing, Piece, chain_of, governing_on};
use kb_timeline::Subscription;
use std::alloc::Global;

/// The pieces of the subscription at a place, at a billed date: the longest runs of days with one due cell,
/// by first day.
pub fn pieces(alloc: Global, facts: &Facts, sub: u32, billed: Day) -> Result<Vec<Piece>, NoMemory>
    requires there { sub < length facts.now.timeline.subscriptions }
    ensures value { IfOk result (λ found. map stretch_of found.items ≡ told.pieces facts.now sub billed) }
    ensures longest { IfOk result (λ found. AreRuns same_cell (due_on facts.now sub billed) first_day
        end_of_days (map stretch_of found.items)) }
    ensures in_cells { IfOk result (λ found. All IsInCell (map stretch_of found.items)) }
    ensures early { IfOk result (λ found. (day : ℕ) → day < first_day → due_on facts.now sub billed day
        ≡ None) }
    ensures late { IfOk result (λ found. (day : ℕ) → end_of_days ≤ day → due_on facts.now sub billed day
        ≡ None) }
{
    let subscription = facts.timeline.subscription(sub);
    let course = course_of(alloc, facts, subscription, sub)?;
    pieces_by(alloc, facts, subscription, sub, billed, &course)
}

/// The pieces of a subscription, from cut to cut.
pub(crate) fn pieces_by(
    alloc: Global,
    facts: &Facts,
    subscription: &Subscription,
    sub: u32,
    billed: Day,
    course: &Course,
) -> Result<Vec<Piece>, NoMemory>
    requires course { IsCourse facts.now subscription.now sub course.now.cuts.items course.now.turns.items
        course.now.end }
    ensures value { IfOk result (λ found. map stretch_of found.items ≡ runs same_cell
        (due_of facts.now subscription.now sub billed) first_day charged_days) }
    ensures short { IfOk result (λ found. AreShort (map stretch_of found.items)) }
{
    let mut found = Vec::new(alloc);
    let mut standing = first_standing(facts.blocks, chain_of(subscription, sub));
    for cut in &course.cuts {
        if standing.day.number() < *cut {
            let to = cut_day(*cut);
            push_between(
                &mut found,
                facts,
                subscription,
                course.end,
                billed,
                &standing,
                to,
            )?;
            standing = next_standing(&standing, &course.turns, to);
        }
    }
    Ok(found)
}

/// Adds the due cells of the days from one up to another between which nothing happens.
fn push_between(
    found: &mut Vec<Piece>,
    facts: &Facts,
    subscription: &Subscription,
    end: Option<u32>,
    billed: Day,
    standing: &Standing,
    to: Reach,
) -> Result<(), NoMemory>
    requires named { first_day ≤ standing.now.day }
    requires in_order { standing.now.day < to }
    requires told { to ≤ end_of_days }
    ensures value { OnOk result ((sub : ℕ) → IsQuietBetween facts.now subscription.now sub standing.now.day to
        → IsStanding facts.now.blocks (chain_of subscription.now sub) standing.now.day standing.now.blocked
        standing.now.turn
        → (subscription.now.addon ≡ true → IsLifeEnd facts.now subscription.now end)
        → map stretch_of found.old.items ≡ runs same_cell (due_of facts.now subscription.now sub billed)
        first_day (standing.now.day - first_day)
        → map stretch_of found.new.items ≡ runs same_cell (due_of facts.now subscription.now sub billed)
        first_day (to - first_day)) }
    ensures short { OnOk result (AreShort (map stretch_of found.old.items) → AreShort
        (map stretch_of found.new.items)) }
{
    if standing.blocked {
        return Ok(());
    }
    if !is_alive(subscription, end, standing.day) {
        return Ok(());
    }
    let Some(governing) = governing_on(facts.catalog, &subscription.entries, standing.day) else {
        return Ok(());
    };
    if billed.number() < last_event(&governing, standing.turn) {
        return Ok(());
    }
    push_periods(
        found,
        facts,
        subscription,
        &governing,
        billed,
        standing.day,
        to,
    )
}

/// The last of the days of what governs and of a turn of the billing flag.
fn last_event(governing: &Governing, turn: Reach) -> u32
    ensures entry { governing.now.entry.day ≤ result }
    ensures phase { governing.now.start ≤ result }
    ensures turn { turn ≤ result }
    ensures some { ((result ≡ governing.now.entry.day) ⊎ (result ≡ governing.now.start)) ⊎ (result ≡ turn) }
{
    let begun = governing.entry.day.number().max(governing.start.number());
    begun.max(turn.number())
}
