//! The fees and the pieces of a subscription, by one course.
ghost use Rattle.std.specs.Prelude.{◌≡◌, ◌<◌, ◌≤◌, ◌+◌, ℕ, length, map, All, None, IfOk};
ghost use Rattle.kb_base.specs.Runs.{Stretch, AreRuns};
ghost use Rattle.kb_days.specs.Calendar.{first_day, end_of_days};
ghost use Rattle.kb_due.specs.declared.cell.Cell.{Cell};
ghost use Rattle.kb_due.specs.DueDays.{due_on, fee_on};
ghost use Rattle.kb_due.specs.CellStretches.{same_cell, stretch_of, IsInCell};
ghost use Rattle.kb_events.specs.Pieces as told;

use crate::course::course_of;
use crate::due_pieces::pieces_by;
use crate::fee_pieces::fees_by;
use kb_base::NoMemory;
use kb_days::Day;
use kb_due::{Facts, Piece};
use std::alloc::Global;

/// The fees and the pieces of the subscription at a place, at a billed date.
pub fn fees_and_pieces(
    alloc: Global,
    facts: &Facts,
    sub: u32,
    billed: Day,
) -> Result<(Vec<Piece>, Vec<Piece>), NoMemory>
    requires there { sub < length facts.now.timeline.subscriptions }
    ensures fees { IfOk result (λ found. map stretch_of found.0.items ≡ told.fees facts.now sub billed) }
    ensures fees_longest { IfOk result (λ found. AreRuns same_cell (fee_on facts.now sub billed) first_day
        end_of_days (map stretch_of found.0.items)) }
    ensures one_day { IfOk result (λ found. All (λ (stretch : Stretch Cell). stretch.to ≡ stretch.from + 1)
        (map stretch_of found.0.items)) }
    ensures fees_in_cells { IfOk result (λ found. All IsInCell (map stretch_of found.0.items)) }
    ensures fees_early { IfOk result (λ found. (day : ℕ) → day < first_day → fee_on facts.now sub billed day
        ≡ None) }
    ensures fees_late { IfOk result (λ found. (day : ℕ) → end_of_days ≤ day → fee_on facts.now sub billed day
        ≡ None) }
    ensures pieces { IfOk result (λ found. map stretch_of found.1.items ≡ told.pieces facts.now sub billed) }
    ensures longest { IfOk result (λ found. AreRuns same_cell (due_on facts.now sub billed) first_day
        end_of_days (map stretch_of found.1.items)) }
    ensures in_cells { IfOk result (λ found. All IsInCell (map stretch_of found.1.items)) }
    ensures early { IfOk result (λ found. (day : ℕ) → day < first_day → due_on facts.now sub billed day
        ≡ None) }
    ensures late { IfOk result (λ found. (day : ℕ) → end_of_days ≤ day → due_on facts.now sub billed day
        ≡ None) }
{
    let subscription = facts.timeline.subscription(sub);
    let course = course_of(alloc, facts, subscription, sub)?;
    let fees = fees_by(alloc, facts, subscription, billed, &course)?;
    let pieces = pieces_by(alloc, facts, subscription, sub, billed, &course)?;
    Ok((fees, pieces))
}
