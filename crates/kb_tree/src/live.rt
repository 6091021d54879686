//! What is charged once changes are made.
ghost use Rattle.std.specs.Prelude.{◌≡◌, ◌+◌, ◌^◌, ◌<◌, length, IfOk};
ghost use Rattle.kb_base.specs.Runs.{runs};
ghost use Rattle.kb_days.specs.Calendar.{first_day, charged_days, end_of_days};
ghost use Rattle.kb_tree.specs.Covers.{AreInOrder};
ghost use Rattle.kb_tree.specs.Private.LeftCharges.{billed_from};
ghost use Rattle.kb_tree.specs.Private.Walks.{same_charge, charge_after, charge_on};

use crate::charging::Charged;
use crate::days::{Days, push_run};
use crate::item::ItemNo;
use crate::walking::{earlier, end_of_days, first_charged, next_change, passed, value_at};
use kb_base::NoMemory;
use kb_due::Cell;
use std::alloc::Global;

/// The charges of all days, once some of these are repaired and others billed.
pub(crate) fn live_after(
    alloc: Global,
    live: &[Days<Charged>],
    repairs: &[Days<ItemNo>],
    bills: &[Days<Charged>],
) -> Result<Vec<Days<Charged>>, NoMemory>
    requires live { AreInOrder first_day end_of_days live.now }
    requires repairs { AreInOrder first_day end_of_days repairs.now }
    requires bills { AreInOrder first_day end_of_days bills.now }
    ensures { IfOk result (λ found. found.items ≡ runs same_charge (charge_on live.now repairs.now bills.now)
        first_day charged_days) }
{
    let mut found = Vec::new(alloc);
    let end = end_of_days();
    let mut day = first_charged();
    let mut before = live;
    let mut repaired = repairs;
    let mut billed = bills;
    while day < end {
        let charge = charge_after(
            value_at(before, day),
            &value_at(repaired, day),
            value_at(billed, day),
        );
        let change = earlier(next_change(before, day), next_change(repaired, day));
        let next = earlier(change, next_change(billed, day));
        push_run(&mut found, day, next, charge)?;
        before = passed(before, next);
        repaired = passed(repaired, next);
        billed = passed(billed, next);
        day = next;
    }
    Ok(found)
}

/// The charge of a day, once it may be repaired or billed.
fn charge_after(
    before: Option<Charged>,
    repaired: &Option<ItemNo>,
    billed: Option<Charged>,
) -> Option<Charged>
    ensures { result ≡ charge_after before repaired.now billed }
{
    match billed {
        Some(charge) => Some(charge),
        None => match repaired {
            Some(_) => None,
            None => before,
        },
    }
}

/// Bills with numbers from one on, as charges.
pub(crate) fn billed_from(
    alloc: Global,
    first: ItemNo,
    bills: &[Days<Cell>],
) -> Result<Vec<Days<Charged>>, NoMemory>
    requires room { first + length bills.now < 2 ^ 64 }
    ensures { IfOk result (λ found. found.items ≡ billed_from first bills.now) }
{
    let mut found = Vec::new(alloc);
    let mut number = first;
    for bill in bills {
        let value = Charged {
            number,
            cell: bill.value,
        };
        found.push(Days {
            from: bill.from,
            to: bill.to,
            value,
        })?;
        number += 1;
    }
    Ok(found)
}
