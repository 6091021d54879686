//! The items that changes make.
ghost use Rattle.std.specs.Prelude.{◌≡◌, ◌++◌, ◌∷◌, [], map, IfOk, OnOk};
ghost use Rattle.kb_tree.specs.Repairs.{repair_of, bill_of};

use crate::days::Days;
use crate::item::{ItemNo, NewItem};
use kb_base::NoMemory;
use kb_due::Cell;
use std::alloc::Global;

/// The items that make some days right: repairs, then bills.
pub(crate) fn items_of(
    alloc: Global,
    repairs: &[Days<ItemNo>],
    bills: &[Days<Cell>],
) -> Result<Vec<NewItem>, NoMemory>
    ensures { IfOk result (λ items. items.items ≡ map repair_of repairs.now ++ map bill_of bills.now) }
{
    let mut items = Vec::new(alloc);
    push_repairs(&mut items, repairs)?;
    push_bills(&mut items, bills)?;
    Ok(items)
}

/// Adds a repair for each of these days.
fn push_repairs(items: &mut Vec<NewItem>, repairs: &[Days<ItemNo>]) -> Result<(), NoMemory>
    ensures { OnOk result (items.new.items ≡ items.old.items ++ map repair_of repairs.now) }
{
    for repair in repairs {
        push_item(
            items,
            NewItem::Repair {
                of: repair.value,
                from: repair.from,
                to: repair.to,
            },
        )?;
    }
    Ok(())
}

/// Adds a bill for each of these days.
fn push_bills(items: &mut Vec<NewItem>, bills: &[Days<Cell>]) -> Result<(), NoMemory>
    ensures { OnOk result (items.new.items ≡ items.old.items ++ map bill_of bills.now) }
{
    for bill in bills {
        push_item(
            items,
            NewItem::Bill {
                from: bill.from,
                to: bill.to,
                cell: bill.value,
            },
        )?;
    }
    Ok(())
}

/// Adds an item.
fn push_item(items: &mut Vec<NewItem>, item: NewItem) -> Result<(), NoMemory>
    ensures { OnOk result (items.new.items ≡ items.old.items ++ item ∷ []) }
{
    items.push(item)?;
    Ok(())
}
