//! The changes that make charges right.
ghost use Rattle.std.specs.Prelude.{◌≡◌, ◌↔◌, [], map, nat_eq, IsTrue, option_to_list, IfOk, OnOk};
ghost use Rattle.kb_base.specs.Runs.{values_on};
ghost use Rattle.kb_base.specs.Intervals.{push_run};
ghost use Rattle.kb_days.specs.Calendar.{first_day, end_of_days};
ghost use Rattle.kb_due.specs.CellStretches.{same_cell, stretch_of};
ghost use Rattle.kb_tree.specs.Repairs.{wrong_among, missing_among};
ghost use Rattle.kb_tree.specs.Covers.{AreInOrder, due_in};
ghost use Rattle.kb_tree.specs.Private.Walks.{AreChanges};

use crate::charging::{Charged, is_right, missing, wrong};
use crate::days::{Days, push_run};
use crate::item::ItemNo;
use crate::walking::{earlier, end_of_days, first_charged, next_change, passed, value_at};
use kb_base::NoMemory;
use kb_days::Reach;
use kb_due::{Cell, Piece};
use std::alloc::Global;

/// The days on which a charge is wrong, each with its number, and those on which one is missing, each with
/// the due cell.
#[derive(Drop)]
pub(crate) struct Changes {
    pub(crate) repairs: Vec<Days<ItemNo>>,
    pub(crate) bills: Vec<Days<Cell>>,
}

impl Changes {
    /// Whether nothing is wrong and nothing is missing.
    pub(crate) fn are_none(&self) -> bool
        ensures { IsTrue result ↔ ((self.now.repairs.items ≡ []) × (self.now.bills.items ≡ [])) }
    {
        self.repairs.is_empty() && self.bills.is_empty()
    }
}

/// The changes that make the charges of all days those of pieces.
pub(crate) fn changes_of(
    alloc: Global,
    live: &[Days<Charged>],
    pieces: &[Piece],
) -> Result<Changes, NoMemory>
    requires live { AreInOrder first_day end_of_days live.now }
    requires pieces { AreInOrder first_day end_of_days (map stretch_of pieces.now) }
    ensures { IfOk result (λ found. AreChanges (λ day. values_on day live.now)
        (due_in (map stretch_of pieces.now)) end_of_days found.repairs.items found.bills.items) }
{
    let mut found = Changes {
        repairs: Vec::new(alloc),
        bills: Vec::new(alloc),
    };
    let end = end_of_days();
    let mut day = first_charged();
    let mut charges = live;
    let mut due = pieces;
    while day < end {
        let charge = value_at(charges, day);
        let cell = value_at(due, day);
        let next = earlier(next_change(charges, day), next_change(due, day));
        push_change(&mut found, day, next, &charge, &cell)?;
        charges = passed(charges, next);
        due = passed(due, next);
        day = next;
    }
    Ok(found)
}

/// Adds what is wrong and what is missing on the days from one up to another.
fn push_change(
    found: &mut Changes,
    from: Reach,
    to: Reach,
    charge: &Option<Charged>,
    due: &Option<Cell>,
) -> Result<(), NoMemory>
    ensures repairs { OnOk result (found.new.repairs.items ≡ push_run nat_eq found.old.repairs.items from to
        (wrong_among (option_to_list charge.now) due.now)) }
    ensures bills { OnOk result (found.new.bills.items ≡ push_run same_cell found.old.bills.items from to
        (missing_among (option_to_list charge.now) due.now)) }
{
    if is_right(charge, due) {
        return Ok(());
    }
    push_run(&mut found.repairs, from, to, wrong(charge, due))?;
    push_run(&mut found.bills, from, to, missing(charge, due))
}
