//! Covers.
ghost use Rattle.std.specs.Prelude.{◌≡◌, ◌+◌, ◌+ℤ◌, ◌^◌, ◌≤◌, ◌<◌, ◌++◌, ℕ, List, All, pos, false, length};
ghost use Rattle.std.specs.Prelude.{map, option_to_list, IfOk};
ghost use Rattle.std.specs.List.{list_any};
ghost use Rattle.kb_days.specs.Calendar.{first_day, charged_days, end_of_days};
ghost use Rattle.kb_due.specs.CellStretches.{stretch_of};
ghost use Rattle.kb_tree.specs.Items as items;
ghost use Rattle.kb_tree.specs.Items.{Numbered, numbered, item_has_day};
ghost use Rattle.kb_tree.specs.Repairs.{new_items, IsSettled};
ghost use Rattle.kb_tree.specs.Amounts as amounts;
ghost use Rattle.kb_tree.specs.Covers.{no_cover, charges, cell_in, due_in, charged_cell, ArePieces, IsAbove};
ghost use Rattle.kb_tree.specs.Covers.{IsCover, IsCoverOf, IsBelow, AreInOrder};
ghost use Rattle.kb_tree.specs.Private.LeftCharges.{billed_from};
ghost use Rattle.kb_tree.specs.Private.RisingBills.{AreBelow};
ghost use Rattle.kb_tree.specs.Private.Walks.{AreChanges};
ghost use Rattle.kb_tree.specs.Private.AfterCovers.{live_in, with_cells, IsCoverAfter};

use crate::cells::Cells;
use crate::changes::{Changes, changes_of};
use crate::charging::Charged;
use crate::days::Days;
use crate::item::{ItemNo, NewItem};
use crate::live::{billed_from, live_after};
use crate::making::items_of;
use crate::steps::Steps;
use crate::walking::{left_at, value_at};
use kb_base::{NoMemory, Seq};
use kb_days::Reach;
use kb_due::{Cell, Piece};
use std::alloc::Global;
use std::marker::Model;
use std::sync::Arc;
use std::sync::ledger::Ledger;

/// What each day is charged by, as bills and repairs have left it, and the cell of each bill.
#[derive(Drop)]
pub struct Cover {
    live: Option<Arc<Seq<Days<Charged>>>>,
    cells: Cells,
}

impl Model for Cover {
    ghost use Rattle.kb_tree.specs.Covers.{CoverValue, IsCover};
    ghost use Rattle.kb_tree.specs.Private.AfterCovers.{live_in};
    ghost use Rattle.std.specs.Coded.{codes, coded_list, coded_ℕ};
    ghost use Rattle.std.specs.FinMap as map;
    ghost use Rattle.kb_sharing.specs.Keys.{by_words};
    ghost use Rattle.kb_due.specs.contracts.cell.Cell as cell_type;

    ghost Value = { CoverValue };

    ghost coded = { Prim.hlevel (
      codes,
      map.code {R = by_words} (coded_list coded_ℕ)
          cell_type.the_row.coded,
    ) };

    ghost view = { λ cover. record { live = live_in cover.live; cells = cover.cells } };

    ghost invariant = { λ cover. IsCover (record { live = live_in cover.live; cells = cover.cells }) };
}

impl Cover {
    /// No charge and no bill. It takes no memory.
    pub fn new(_alloc: Global) -> Cover
        ensures { result ≡ no_cover }
    {
        Cover {
            live: None,
            cells: Cells::new(),
        }
    }

    /// The same cover. It shares all that it holds.
    pub fn share(&self) -> Result<Cover, NoMemory>
        ensures { IfOk result (λ same. same ≡ self.now) }
    {
        let live = match &self.live {
            None => None,
            Some(live) => Some(Arc::try_clone(live)?),
        };
        let cells = self.cells.share()?;
        Ok(Cover { live, cells })
    }

    /// The number of the bill that charges a day.
    pub fn live(&self, day: Reach) -> Option<ItemNo>
        ensures { option_to_list result ≡ map (λ (charge : items.Charge). charge.number)
            (charges self.now day) }
    {
        match value_at(left_at(self.stretches(), day), day) {
            None => None,
            Some(charge) => Some(charge.number),
        }
    }

    /// The cell of a bill, by its number. There is none if no bill has the number.
    pub fn cell(&self, item: ItemNo) -> Option<Cell>
        ensures { result ≡ cell_in self.now item }
    {
        self.cells.get(item)
    }

    /// The cover that charges each day by the due cell, as pieces tell it, and the items that make it so,
    /// which get the numbers from `first` on: a repair where a charge isn't by the due cell, and a bill where
    /// the due cell isn't charged. The pieces stand in order, among the days that may be charged, each inside
    /// the period of its cell. `first` is above the numbers of all bills so far, and at most 2^62. It takes
    /// no step.
    pub fn reconcile<L: Ledger>(
        &self,
        alloc: Global,
        pieces: &[Piece],
        first: ItemNo,
        steps: &mut Steps<L>,
    ) -> Result<(Cover, Vec<NewItem>), NoMemory>
        requires pieces { ArePieces (map stretch_of pieces.now) }
        requires above { IsAbove first self.now }
        requires room { first ≤ 2 ^ 62 }
        ensures items { IfOk result (λ made. made.1.items ≡ new_items (charges self.now)
            (due_in (map stretch_of pieces.now)) first_day charged_days) }
        ensures cover { IfOk result (λ made. (items : List Numbered) → IsCoverOf self.now items
            → All (IsBelow first) items → IsCoverOf made.0 (items ++ numbered first made.1.items)) }
        ensures settled { IfOk result (λ made. IsSettled (charges made.0)
            (due_in (map stretch_of pieces.now)) first_day charged_days) }
        ensures untouched { IfOk result (λ made. (day : ℕ) → due_in (map charged_cell self.now.live) day
            ≡ due_in (map stretch_of pieces.now) day → list_any (item_has_day day) made.1.items ≡ false) }
        ensures total { IfOk result (λ made. amounts.total (cell_in self.now) made.1.items
            +ℤ pos (amounts.charged (due_in (map charged_cell self.now.live)) first_day charged_days)
            ≡ pos (amounts.charged (due_in (map stretch_of pieces.now)) first_day charged_days)) }
        ensures priced { IfOk result (λ made. All (amounts.IsPriced (cell_in self.now)) made.1.items) }
        ensures above { IfOk result (λ made. IsAbove (first + length made.1.items) made.0) }
        ensures steps { steps.new ≡ steps.old }
    {
        let (cover, changes) = self.made_right(alloc, pieces, first)?;
        let items = items_of(alloc, &changes.repairs, &changes.bills)?;
        Ok((cover, items))
    }

    /// The cover made right, and the changes that do it.
    fn made_right(
        &self,
        alloc: Global,
        pieces: &[Piece],
        first: ItemNo,
    ) -> Result<(Cover, Changes), NoMemory>
        requires pieces { ArePieces (map stretch_of pieces.now) }
        requires above { IsAbove first self.now }
        requires room { first ≤ 2 ^ 62 }
        ensures old { IfOk result (λ made. IsCover self.now) }
        ensures changes { IfOk result (λ made. AreChanges (charges self.now)
            (due_in (map stretch_of pieces.now)) end_of_days made.1.repairs.items made.1.bills.items) }
        ensures after { IfOk result (λ made. IsCoverAfter self.now (due_in (map stretch_of pieces.now)) first
            made.0) }
    {
        let changes = changes_of(alloc, self.stretches(), pieces)?;
        if changes.are_none() {
            return Ok((self.share()?, changes));
        }
        let number = first + changes.repairs.len() as u64;
        let bills = billed_from(alloc, number, &changes.bills)?;
        let live = live_after(alloc, self.stretches(), &changes.repairs, &bills)?;
        let live = shared(alloc, live)?;
        let cells = with_cells(alloc, &self.cells, number, &changes.bills)?;
        Ok((Cover { live, cells }, changes))
    }

    /// The stretches of days with one charge.
    fn stretches(&self) -> &[Days<Charged>]
        ensures cover { IsCover self.now }
        ensures value { result.now ≡ self.now.live }
        ensures in_order { AreInOrder first_day end_of_days result.now }
    {
        match &self.live {
            None => &[],
            Some(live) => live.as_slice(),
        }
    }
}

/// Stretches, in a list that covers may share, with no more room than it takes.
fn shared(
    alloc: Global,
    mut live: Vec<Days<Charged>>,
) -> Result<Option<Arc<Seq<Days<Charged>>>>, NoMemory>
    ensures { IfOk result (λ shared. live_in shared ≡ live.items) }
{
    live.shrink_to_fit();
    Ok(Some(Arc::new(alloc, Seq::from_vec(live))?))
}

/// Cells, with those of bills whose numbers go on from one that is above all others.
fn with_cells(
    alloc: Global,
    cells: &Cells,
    first: ItemNo,
    bills: &[Days<Cell>],
) -> Result<Cells, NoMemory>
    requires above { AreBelow cells.now first }
    requires room { first + length bills.now < 2 ^ 64 }
    ensures { IfOk result (λ more. more ≡ with_cells cells.now (billed_from first bills.now)) }
{
    let mut more = cells.share()?;
    let mut number = first;
    for bill in bills {
        more = more.with(alloc, number, bill.value)?;
        number += 1;
    }
    Ok(more)
}
