//! Until when a subscription is charged.
ghost use Rattle.std.specs.Prelude.{◌≡◌, ◌<◌, ℕ, None, map, option_map};
ghost use Rattle.std.specs.List.{last_or};
ghost use Rattle.kb_days.specs.Calendar.{first_day};
ghost use Rattle.kb_due.specs.declared.cell.Piece as piece_type;
ghost use Rattle.kb_due.specs.DueDays as due;
ghost use Rattle.kb_due.specs.Facts.{FactsValue};
ghost use Rattle.kb_events.specs.Pieces as told;
ghost use Rattle.kb_due.specs.CellStretches.{stretch_of};

use kb_days::Reach;
use kb_due::Piece;

/// The day until which a subscription is charged, of whose pieces these are all: the end of the last one,
/// which is the day after the last day with a due cell. It takes no memory.
pub fn charged_through(pieces: &[Piece]) -> Option<Reach>
    ensures last { result ≡ option_map (λ (piece : piece_type.Piece). piece.to) (last_or None pieces.now) }
    ensures value { (facts : FactsValue) (sub billed : ℕ) → map stretch_of pieces.now ≡ told.pieces facts sub
        billed
        → ((day : ℕ) → day < first_day → due.due_on facts sub billed day ≡ None)
        → result ≡ due.charged_through facts sub billed }
{
    match pieces.last() {
        None => None,
        Some(piece) => Some(piece.to),
    }
}
