//! The fees of a subscription.
ghost use Rattle.std.specs.Prelude.{◌≡◌, ◌<◌, ◌≤◌, ◌+◌, ◌-◌, ℕ, true, length, map, All, None, IfOk, IfSome};
ghost use Rattle.std.specs.Prelude.{OnOk};
ghost use Rattle.kb_base.specs.Runs.{Stretch, runs, AreRuns};
ghost use Rattle.kb_days.specs.Calendar.{first_day, charged_days, end_of_days};
ghost use Rattle.kb_due.specs.declared.cell.Cell.{Cell};
ghost use Rattle.kb_due.specs.DueDays.{fee_of, fee_on};
ghost use Rattle.kb_events.specs.Private.Cuts.{HasDay, AreCuts};
ghost use Rattle.kb_events.specs.Private.Ends.{IsLifeEnd};
ghost use Rattle.kb_events.specs.Private.QuietDays.{IsSteadyBetween};
ghost use Rattle.kb_events.specs.Pieces as told;
ghost use Rattle.kb_due.specs.CellStretches.{same_cell, stretch_of, IsInCell};

use crate::course::{Course, course_of};
use crate::cutting::cut_day;
use crate::living::is_alive;
use crate::pushing::push_run;
use crate::standing::first_reach;
use kb_base::NoMemory;
use kb_days::{Day, Reach};
use kb_due::{Facts, Piece, fee_by, governing_on};
use kb_timeline::Subscription;
use std::alloc::Global;

/// The fees of the subscription at a place, at a billed date: its fee cells, each of one day, by day.
pub fn fees(alloc: Global, facts: &Facts, sub: u32, billed: Day) -> Result<Vec<Piece>, NoMemory>
    requires there { sub < length facts.now.timeline.subscriptions }
    ensures value { IfOk result (λ found. map stretch_of found.items ≡ told.fees facts.now sub billed) }
    ensures longest { IfOk result (λ found. AreRuns same_cell (fee_on facts.now sub billed) first_day
        end_of_days (map stretch_of found.items)) }
    ensures one_day { IfOk result (λ found. All (λ (stretch : Stretch Cell). stretch.to ≡ stretch.from + 1)
        (map stretch_of found.items)) }
    ensures in_cells { IfOk result (λ found. All IsInCell (map stretch_of found.items)) }
    ensures early { IfOk result (λ found. (day : ℕ) → day < first_day → fee_on facts.now sub billed day
        ≡ None) }
    ensures late { IfOk result (λ found. (day : ℕ) → end_of_days ≤ day → fee_on facts.now sub billed day
        ≡ None) }
{
    let subscription = facts.timeline.subscription(sub);
    let course = course_of(alloc, facts, subscription, sub)?;
    fees_by(alloc, facts, subscription, billed, &course)
}

/// The fees of a subscription, from cut to cut: a phase starts on no other day.
pub(crate) fn fees_by(
    alloc: Global,
    facts: &Facts,
    subscription: &Subscription,
    billed: Day,
    course: &Course,
) -> Result<Vec<Piece>, NoMemory>
    requires cuts { AreCuts course.now.cuts.items facts.now subscription.now }
    requires ends { subscription.now.addon ≡ true → IsLifeEnd facts.now subscription.now course.now.end }
    requires cut { IfSome course.now.end (HasDay course.now.cuts.items) }
    ensures { IfOk result (λ found. map stretch_of found.items ≡ runs same_cell
        (fee_of facts.now subscription.now billed) first_day charged_days) }
{
    let mut found = Vec::new(alloc);
    let mut from = first_reach();
    for cut in &course.cuts {
        if from.number() < *cut {
            let to = cut_day(*cut);
            push_fees(
                &mut found,
                facts,
                subscription,
                course.end,
                billed,
                from,
                to,
            )?;
            from = to;
        }
    }
    Ok(found)
}

/// Adds the fees of the days from one up to another between which no entry and no phase begins: only the
/// first may have one.
fn push_fees(
    found: &mut Vec<Piece>,
    facts: &Facts,
    subscription: &Subscription,
    end: Option<u32>,
    billed: Day,
    from: Reach,
    to: Reach,
) -> Result<(), NoMemory>
    requires named { first_day ≤ from }
    requires in_order { from < to }
    requires told { to ≤ end_of_days }
    ensures { OnOk result (IsSteadyBetween facts.now subscription.now from to
        → (subscription.now.addon ≡ true → IsLifeEnd facts.now subscription.now end)
        → map stretch_of found.old.items ≡ runs same_cell (fee_of facts.now subscription.now billed) first_day
        (from - first_day)
        → map stretch_of found.new.items ≡ runs same_cell (fee_of facts.now subscription.now billed) first_day
        (to - first_day)) }
{
    if billed.reach() < from {
        return Ok(());
    }
    if !is_alive(subscription, end, from) {
        return Ok(());
    }
    let Some(governing) = governing_on(facts.catalog, &subscription.entries, from) else {
        return Ok(());
    };
    let next = Reach::new(from.number() + 1).unwrap();
    push_run(found, from, next, fee_by(facts, from, &governing))
}
