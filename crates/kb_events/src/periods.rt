//! The cells of days, period after period.
ghost use Rattle.std.specs.Prelude.{◌≡◌, ◌<◌, ◌≤◌, ◌+◌, ◌-◌, ℕ, map, Option, OnOk};
ghost use Rattle.kb_base.specs.Runs.{runs};
ghost use Rattle.kb_days.specs.Calendar.{first_day, last_charged};
ghost use Rattle.kb_due.specs.declared.cell.Cell.{Cell};
ghost use Rattle.kb_due.specs.CellStretches.{same_cell, stretch_of};
ghost use Rattle.kb_events.specs.Private.BegunCells.{begun_cell};
ghost use Rattle.kb_events.specs.Private.Shorts.{AreShort};

use crate::pushing::push_run;
use kb_base::NoMemory;
use kb_days::{Day, Reach};
use kb_due::{Facts, Governing, Piece, rate_by};
use kb_timeline::Subscription;

/// Adds the cells of the days from one up to another, period after period, while these begin by the billed
/// date.
pub(crate) fn push_periods(
    found: &mut Vec<Piece>,
    facts: &Facts,
    subscription: &Subscription,
    governing: &Governing,
    billed: Day,
    from: Reach,
    to: Reach,
) -> Result<(), NoMemory>
    requires named { first_day ≤ governing.now.start }
    requires begun { governing.now.start ≤ from }
    requires in_order { from ≤ to }
    requires told { to ≤ last_charged + 1 }
    ensures value { OnOk result ((key : ℕ → Option Cell) (first : ℕ) → first ≤ from
        → ((day : ℕ) → from ≤ day → day < to → key day ≡ begun_cell facts.now subscription.now governing.now
        billed day)
        → map stretch_of found.old.items ≡ runs same_cell key first (from - first)
        → map stretch_of found.new.items ≡ runs same_cell key first (to - first)) }
    ensures short { OnOk result (AreShort (map stretch_of found.old.items) → AreShort
        (map stretch_of found.new.items)) }
{
    let Some(rate) = rate_by(facts, subscription, governing) else {
        return Ok(());
    };
    let mut day = from;
    while day < to {
        let cell = rate.cell(day);
        if billed.reach() < cell.start {
            return Ok(());
        }
        let next = earlier(cell.end, to);
        push_run(found, day, next, Some(cell))?;
        day = next;
    }
    Ok(())
}

/// The earlier of two days.
fn earlier(day: Reach, other: Reach) -> Reach
    ensures first { result ≤ day }
    ensures second { result ≤ other }
    ensures greatest { (before : ℕ) → before < day → before < other → before < result }
{
    if day < other { day } else { other }
}
