//! Pieces that are told one after another.
ghost use Rattle.std.specs.Prelude.{◌≡◌, ◌++◌, ◌∷◌, [], ◌&&◌, ◌==◌, Some, true, false, map, OnOk};
ghost use Rattle.kb_base.specs.Intervals.{push_run};
ghost use Rattle.kb_due.specs.CellStretches.{same_cell, stretch_of};

use kb_base::NoMemory;
use kb_days::Reach;
use kb_due::{Cell, Piece};

/// Adds the days from one up to another, if they have a cell: they make the last piece longer where it ends
/// on the first of them and has the same cell.
pub(crate) fn push_run(
    found: &mut Vec<Piece>,
    from: Reach,
    to: Reach,
    cell: Option<Cell>,
) -> Result<(), NoMemory>
    ensures { OnOk result (map stretch_of found.new.items ≡ push_run same_cell
        (map stretch_of found.old.items) from to cell) }
{
    let Some(cell) = cell else {
        return Ok(());
    };
    if lengthen(found, from, to, &cell) {
        return Ok(());
    }
    push_piece(found, Piece { from, to, cell })
}

/// Makes the last piece longer, up to the day `to`, if it ends on the day `from` and has the same cell; says
/// whether it does.
fn lengthen(found: &mut Vec<Piece>, from: Reach, to: Reach, cell: &Cell) -> bool
    ensures longer { result ≡ true → map stretch_of found.new.items ≡ push_run same_cell
        (map stretch_of found.old.items) from to (Some cell.now) }
    ensures other { result ≡ false → map stretch_of found.old.items
        ++ record { from = from; to = to; value = cell.now } ∷ []
        ≡ push_run same_cell (map stretch_of found.old.items) from to (Some cell.now) }
    ensures same { result ≡ false → found.new.items ≡ found.old.items }
{
    let Some(last) = found.last_mut() else {
        return false;
    };
    if goes_on(last, from, cell) {
        last.to = to;
        true
    } else {
        false
    }
}

/// Whether a piece ends on a day, and has a cell.
fn goes_on(last: &Piece, from: Reach, cell: &Cell) -> bool
    ensures { result ≡ ((last.now.to == from) && same_cell last.now.cell cell.now) }
{
    last.to == from && last.cell == *cell
}

/// Adds a piece.
fn push_piece(found: &mut Vec<Piece>, piece: Piece) -> Result<(), NoMemory>
    ensures { OnOk result (found.new.items ≡ found.old.items ++ piece ∷ []) }
{
    let _plan = piece.cell.plan;
    found.push(piece)?;
    Ok(())
}
