//! The cells of bills.
ghost use Rattle.std.specs.Prelude.{◌≡◌, ◌<◌, ◌≤◌, ◌∷◌, [], IfOk};
ghost use Rattle.std.specs.FinMap as map;
ghost use Rattle.std.specs.List.Sorted.{IsPartitionPoint};
ghost use Rattle.kb_due.specs.declared.cell.Cell.{Cell};
ghost use Rattle.kb_tree.specs.Private.RisingBills.{NumberedCell, IsRising, AreBelow};

use crate::item::ItemNo;
use kb_base::NoMemory;
use kb_due::Cell;
use kb_sharing::SharedList;
use std::alloc::Global;
use std::marker::Model;

/// The cell of each bill so far. Bills are added in the order of their numbers, and found by halving.
#[derive(Drop)]
pub(crate) struct Cells {
    bills: SharedList<(ItemNo, Cell)>,
}

impl Model for Cells {
    ghost use Rattle.std.specs.Coded.{coded_list, coded_ℕ};
    ghost use Rattle.std.specs.FinMap as map;
    ghost use Rattle.kb_sharing.specs.Keys.{by_words, SharedEntries};
    ghost use Rattle.kb_due.specs.contracts.cell.Cell as cell_type;
    ghost use Rattle.kb_due.specs.declared.cell.Cell.{Cell};
    ghost use Rattle.kb_tree.specs.Private.RisingBills.{worded, IsRising};

    ghost Value = { SharedEntries Cell };

    ghost coded = { map.code {R = by_words} (coded_list coded_ℕ) cell_type.the_row.coded };

    ghost view = { λ cells. map.from_entries (worded cells.bills) };

    ghost invariant = { λ cells. IsRising cells.bills };
}

impl Cells {
    /// No bill. It takes no memory.
    pub(crate) fn new() -> Cells
        ensures { result ≡ map.empty }
    {
        Cells {
            bills: SharedList::new(),
        }
    }

    /// The same cells. It shares all of them.
    pub(crate) fn share(&self) -> Result<Cells, NoMemory>
        ensures { IfOk result (λ same. same ≡ self.now) }
    {
        let bills = self.bills.share()?;
        Ok(Cells { bills })
    }

    /// The cell of the bill of a number.
    pub(crate) fn get(&self, number: ItemNo) -> Option<Cell>
        ensures { result ≡ map.get self.now (number ∷ []) }
    {
        let place = count_below(&self.bills, number);
        let (at, cell) = self.bills.get(place)?;
        if number == *at { Some(*cell) } else { None }
    }

    /// The cells, with that of a bill whose number is above those of all others.
    pub(crate) fn with(&self, alloc: Global, number: ItemNo, cell: Cell) -> Result<Cells, NoMemory>
        requires above { AreBelow self.now number }
        ensures { IfOk result (λ more. more ≡ map.insert self.now (number ∷ []) cell) }
    {
        let bills = self.bills.push(alloc, (number, cell))?;
        Ok(Cells { bills })
    }
}

/// How many bills have a number below one.
fn count_below(bills: &SharedList<(ItemNo, Cell)>, number: ItemNo) -> u64
    requires rising { IsRising bills.now }
    ensures { IsPartitionPoint (λ (bill : NumberedCell). bill.0 < number)
        (λ (bill : NumberedCell). number ≤ bill.0) bills.now result }
{
    let mut low = 0;
    let mut high = bills.len();
    while low < high {
        let middle = low + (high - low) / 2;
        let Some((at, _)) = bills.get(middle) else {
            unreachable!()
        };
        if *at < number {
            low = middle + 1;
        } else {
            high = middle;
        }
    }
    low
}
