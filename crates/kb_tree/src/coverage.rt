//! Items of one kind of charge, and the cover that they make.
ghost use Rattle.std.specs.Prelude.{◌≡◌, ◌≤◌, ◌+◌, ◌*◌, ◌^◌, ◌++◌, [], length, map, All, IfOk};
ghost use Rattle.kb_days.specs.Calendar.{first_day, charged_days};
ghost use Rattle.kb_due.specs.CellStretches.{stretch_of};
ghost use Rattle.kb_tree.specs.Covers.{ArePieces, due_in, IsBelow};
ghost use Rattle.kb_tree.specs.Items.{charges_on, cell_at, numbered};
ghost use Rattle.kb_tree.specs.Repairs.{new_items};
ghost use Rattle.kb_tree.specs.Amounts.{IsPriced};

use crate::cover::Cover;
use crate::item::{ItemNo, NewItem};
use crate::steps::Steps;
use kb_base::NoMemory;
use kb_due::{Cell, Piece};
use kb_sharing::SharedList;
use std::alloc::Global;
use std::marker::Model;
use std::sync::ledger::Ledger;

/// The items of one kind of charge of a subscription, with their numbers, and the cover that they make.
/// Contracts see it as the list of the items.
pub struct Coverage {
    items: SharedList<(ItemNo, NewItem)>,
    cover: Cover,
}

impl Model for Coverage {
    ghost use Rattle.std.specs.Prelude.{List};
    ghost use Rattle.kb_tree.specs.Items.{Numbered};
    ghost use Rattle.kb_tree.specs.Covers.{IsCoverOf};

    ghost Value = { List Numbered };

    ghost view = { λ coverage. coverage.items };

    ghost invariant = { λ coverage. IsCoverOf coverage.cover coverage.items };
}

impl Drop for Coverage {
    /// Drops what no other one shares. No crate above has to show again how that is dropped.
    fn drop(self) {
        let Coverage {
            items: _items,
            cover: _cover,
        } = self;
    }
}

impl Coverage {
    /// No item. It takes no memory.
    #[tactic(auto, using(crate::proofs::NumberedItems::no_items))]
    pub fn new(alloc: Global) -> Coverage
        ensures { result ≡ [] }
    {
        Coverage {
            items: SharedList::new(),
            cover: Cover::new(alloc),
        }
    }

    /// The same items. It shares all that it holds.
    pub fn share(&self) -> Result<Coverage, NoMemory>
        ensures { IfOk result (λ same. same ≡ self.now) }
    {
        let items = self.items.share()?;
        let cover = self.cover.share()?;
        Ok(Coverage { items, cover })
    }

    /// The cell of the item of a number, if it is a bill.
    pub fn cell(&self, item: ItemNo) -> Option<Cell>
        ensures { result ≡ cell_at self.now item }
    {
        self.cover.cell(item)
    }

    /// The items with new ones, which charge each day by its due cell, as pieces tell it, and the new ones,
    /// which get the numbers from `first` on. It takes no step.
    #[tactic(auto, using(crate::proofs::NumberedItems::coverages))]
    pub fn bring_up<L: Ledger>(
        &self,
        alloc: Global,
        pieces: &[Piece],
        first: ItemNo,
        steps: &mut Steps<L>,
    ) -> Result<(Coverage, Vec<NewItem>), NoMemory>
        requires pieces { ArePieces (map stretch_of pieces.now) }
        requires below { All (IsBelow first) self.now }
        requires room { first ≤ 2 ^ 62 }
        ensures items { IfOk result (λ made. made.1.items ≡ new_items (charges_on self.now)
            (due_in (map stretch_of pieces.now)) first_day charged_days) }
        ensures coverage { IfOk result (λ made. made.0 ≡ self.now ++ numbered first made.1.items) }
        ensures priced { IfOk result (λ made. All (IsPriced (cell_at self.now)) made.1.items) }
        ensures below { IfOk result (λ made. All (IsBelow (first + length made.1.items)) made.0) }
        ensures few { IfOk result (λ made. length made.1.items ≤ 2 * charged_days) }
        ensures steps { steps.new ≡ steps.old }
    {
        let (cover, items) = self.cover.reconcile(alloc, pieces, first, steps)?;
        let all = with_items(alloc, &self.items, first, &items)?;
        Ok((Coverage { items: all, cover }, items))
    }
}

/// Items, with new ones that are numbered from one on.
fn with_items(
    alloc: Global,
    items: &SharedList<(ItemNo, NewItem)>,
    first: ItemNo,
    more: &[NewItem],
) -> Result<SharedList<(ItemNo, NewItem)>, NoMemory>
    requires room { first + length more.now ≤ 2 ^ 63 }
    ensures { IfOk result (λ all. all ≡ items.now ++ numbered first more.now) }
{
    let mut all = items.share()?;
    let mut number = first;
    for item in more {
        all = all.push(alloc, (number, *item))?;
        number += 1;
    }
    Ok(all)
}
