//! What a day is charged by.

use kb_days::Reach;
use kb_money::Minor;
use kb_timeline::PlanRef;

/// What a day is charged by: a phase of a plan, by its place, whose billing period goes from `start` up to,
/// but not including, `end`, and all of whose days cost `price` minor units.
#[derive(Clone, Copy, Debug, PartialEq, Eq)]
pub struct Cell {
    pub plan: PlanRef,
    pub phase: u32,
    pub start: Reach,
    pub end: Reach,
    pub price: Minor,
}

/// The days from `from` up to, but not including, `to`, that are charged by one cell.
#[derive(Clone, Copy, Debug)]
pub struct Piece {
    pub from: Reach,
    pub to: Reach,
    pub cell: Cell,
}
