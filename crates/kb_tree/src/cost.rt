//! What days cost.
ghost use Rattle.std.specs.Prelude.{◌≡◌, ◌<◌, ◌≤◌, ◌^◌};
ghost use Rattle.kb_due.specs.CellStretches.{IsInCell};
ghost use Rattle.kb_tree.specs.Amounts.{days_cost};

use kb_days::Reach;
use kb_due::Cell;
use kb_money::part;

/// What a cell costs from one day up to, but not including, another, in minor units.
#[tactic(auto, using(crate::proofs::CellCosts::cell_costs))]
pub fn days_cost(cell: &Cell, from: Reach, to: Reach) -> u64
    requires some_day { from < to }
    requires in_cell { IsInCell (record { from = from; to = to; value = cell.now }) }
    ensures value { result ≡ days_cost cell.now from to }
    ensures bound { result ≤ 10 ^ 9 }
{
    let start = cell.start.number();
    let days = cell.end.number() - start;
    part(cell.price, days, from.number() - start, to.number() - start)
}
