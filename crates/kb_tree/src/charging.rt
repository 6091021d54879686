//! What a day is charged by, and what of that is wrong or missing.
ghost use Rattle.std.specs.Prelude.{◌≡◌, true, None, option_to_list};
ghost use Rattle.std.specs.List.{list_any};
ghost use Rattle.kb_due.specs.CellStretches.{same_cell};
ghost use Rattle.kb_tree.specs.Items as items;
ghost use Rattle.kb_tree.specs.Repairs.{is_due, wrong_among, missing_among};

use crate::item::ItemNo;
use kb_due::Cell;
use std::marker::Model;

/// What a day is charged by: the number of a bill, and its cell.
#[derive(Clone, Copy, PartialEq)]
pub(crate) struct Charged {
    pub(crate) number: ItemNo,
    pub(crate) cell: Cell,
}

impl Model for Charged {
    ghost use Rattle.kb_tree.specs.Items.{Charge};

    ghost Value = { Charge };

    ghost view = { λ charged. record { number = charged.number; cell = charged.cell } };

    ghost inverse = { λ charge. record { number = charge.number; cell = charge.cell } };
}

/// Whether a day is charged by its due cell, or isn't charged where none is due.
pub(crate) fn is_right(charge: &Option<Charged>, due: &Option<Cell>) -> bool
    ensures wrong { result ≡ true → wrong_among (option_to_list charge.now) due.now ≡ None }
    ensures missing { result ≡ true → missing_among (option_to_list charge.now) due.now ≡ None }
{
    match charge {
        None => due.is_none(),
        Some(charge) => is_due(due, &charge.cell),
    }
}

/// The number of the bill that charges a day, if that isn't by the due cell.
pub(crate) fn wrong(charge: &Option<Charged>, due: &Option<Cell>) -> Option<ItemNo>
    ensures { result ≡ wrong_among (option_to_list charge.now) due.now }
{
    match charge {
        None => None,
        Some(charge) => {
            if is_due(due, &charge.cell) {
                None
            } else {
                Some(charge.number)
            }
        }
    }
}

/// The due cell, if a day isn't charged by it.
pub(crate) fn missing(charge: &Option<Charged>, due: &Option<Cell>) -> Option<Cell>
    ensures { result ≡ missing_among (option_to_list charge.now) due.now }
{
    match due {
        None => None,
        Some(cell) => {
            if charges(charge, cell) {
                None
            } else {
                Some(*cell)
            }
        }
    }
}

/// Whether a cell is the due one.
fn is_due(due: &Option<Cell>, cell: &Cell) -> bool
    ensures { result ≡ is_due due.now cell.now }
{
    match due {
        None => false,
        Some(due) => *due == *cell,
    }
}

/// Whether there is a charge, and by a cell.
fn charges(charge: &Option<Charged>, cell: &Cell) -> bool
    ensures { result ≡ list_any (λ (charge : items.Charge). same_cell cell.now charge.cell)
        (option_to_list charge.now) }
{
    match charge {
        None => false,
        Some(charge) => *cell == charge.cell,
    }
}
