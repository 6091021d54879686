//! New items.

use kb_days::Reach;
use kb_due::Cell;

/// The number of an item of an account, counted from 1 in order of issue.
pub type ItemNo = u64;

/// An item that makes the charges of some days right. Its days go from `from` up to, but not including, `to`.
#[derive(Clone, Copy)]
pub enum NewItem {
    /// The days are charged by a cell.
    Bill { from: Reach, to: Reach, cell: Cell },
    /// The charge by the item of this number is taken off the days.
    Repair { of: ItemNo, from: Reach, to: Reach },
}
