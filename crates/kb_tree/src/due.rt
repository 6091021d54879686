//! The cells by which a subscription is due, where the billed date may not be there yet.
ghost use Rattle.std.specs.Prelude.{◌≡◌, ◌<◌, ℕ, length, map, IfOk};
ghost use Rattle.kb_due.specs.CellStretches.{stretch_of};
ghost use Rattle.kb_due.specs.DueDays.{due_at, fee_at};
ghost use Rattle.kb_tree.specs.Covers.{ArePieces, due_in};

use kb_base::NoMemory;
use kb_days::Day;
use kb_due::{Facts, Piece};
use kb_events::fees_and_pieces;
use std::alloc::Global;

/// The fee cells and the due cells of the subscription at a place, at a billed date.
#[tactic(auto, using(crate::proofs::Pieces::due_pieces), unfolding(kb_events::specs::Pieces::fees, kb_events::specs::Pieces::pieces))]
pub fn fee_and_due_pieces(
    alloc: Global,
    facts: &Facts,
    sub: u32,
    billed: &Option<Day>,
) -> Result<(Vec<Piece>, Vec<Piece>), NoMemory>
    requires there { sub < length facts.now.timeline.subscriptions }
    ensures fee_pieces { IfOk result (λ found. ArePieces (map stretch_of found.0.items)) }
    ensures fee { IfOk result (λ found. (day : ℕ) → due_in (map stretch_of found.0.items) day
        ≡ fee_at facts.now sub billed.now day) }
    ensures due_pieces { IfOk result (λ found. ArePieces (map stretch_of found.1.items)) }
    ensures due { IfOk result (λ found. (day : ℕ) → due_in (map stretch_of found.1.items) day
        ≡ due_at facts.now sub billed.now day) }
{
    match billed {
        None => Ok((Vec::new(alloc), Vec::new(alloc))),
        Some(billed) => fees_and_pieces(alloc, facts, sub, *billed),
    }
}
