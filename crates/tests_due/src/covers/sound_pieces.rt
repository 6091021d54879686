//! Whether pieces are such as a cover may be made right by.
ghost use Rattle.std.specs.Prelude.{map, All, IsTrue};
ghost use Rattle.kb_days.specs.Calendar.{end_of_days};
ghost use Rattle.kb_due.specs.CellStretches.{stretch_of, IsInCell};
ghost use Rattle.kb_tree.specs.Covers.{AreInOrder, ArePieces};

use kb_days::{END_OF_DAYS, FIRST_DAY};
use kb_due::Piece;

/// The most days of a period.
const MAX_PERIOD_DAYS: u32 = 731;

/// Whether pieces are in the order of their days, each inside the period of its cell.
pub(crate) fn are_sound(pieces: &[Piece]) -> bool
    ensures { IsTrue result → ArePieces (map stretch_of pieces.now) }
{
    are_in_order(pieces, FIRST_DAY) && are_in_cells(pieces)
}

/// Whether pieces are in the order of their days, from a day on.
fn are_in_order(pieces: &[Piece], from: u32) -> bool
    ensures { IsTrue result → AreInOrder from end_of_days (map stretch_of pieces.now) }
{
    match pieces.split_first() {
        None => from <= END_OF_DAYS,
        Some((first, later)) => {
            from <= first.from.number()
                && first.from < first.to
                && are_in_order(later, first.to.number())
        }
    }
}

/// Whether each piece is inside the period of its cell.
fn are_in_cells(pieces: &[Piece]) -> bool
    ensures { IsTrue result → All IsInCell (map stretch_of pieces.now) }
{
    match pieces.split_first() {
        None => true,
        Some((first, later)) => is_in_cell(first) && are_in_cells(later),
    }
}

/// Whether a piece is inside the period of its cell.
fn is_in_cell(piece: &Piece) -> bool
    ensures { IsTrue result → IsInCell (stretch_of piece.now) }
{
    piece.cell.start <= piece.from
        && piece.to <= piece.cell.end
        && piece.cell.end.number() <= piece.cell.start.number() + MAX_PERIOD_DAYS
}
