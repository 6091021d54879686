//! Credit adjustments of a levelling.
ghost use Rattle.std.specs.Prelude.{◌≡◌, ◌+◌, ◌-◌, ◌^◌, ◌≤◌, ◌++◌, ◌∷◌, [], map, nat_abs, IfOk};
ghost use Rattle.kb_credit.specs.Sizes.{size_of};
ghost use Rattle.kb_credit.specs.Levelling.{adjust};
ghost use Rattle.kb_credit.specs.Private.Passes.{item_of};
ghost use Rattle.kb_credit.specs.Private.AdjustedRows.{adjust_at, adjusted};

use crate::line::Line;
use crate::row::Row;
use kb_base::NoMemory;
use kb_sharing::SharedList;
use std::alloc::Global;

/// What is added to an invoice, by its number.
#[derive(Clone, Copy)]
pub(crate) struct Adjustment {
    pub(crate) invoice: u32,
    pub(crate) amount: i128,
}

/// The rows, after each adjustment in turn.
pub(crate) fn adjusted(
    alloc: Global,
    rows: &SharedList<Row>,
    adjustments: &[Adjustment],
) -> Result<SharedList<Row>, NoMemory>
    requires bounded { size_of (λ row. row.adjusted) rows.now
        + size_of (λ one. one.amount) adjustments.now ≤ 2 ^ 126 }
    ensures { IfOk result (λ changed. changed ≡ adjusted adjustments.now rows.now) }
{
    let mut changed = rows.share()?;
    for one in adjustments {
        changed = adjust_at(alloc, &changed, one)?;
    }
    Ok(changed)
}

/// The rows, after an adjustment of the one of its number.
fn adjust_at(
    alloc: Global,
    rows: &SharedList<Row>,
    one: &Adjustment,
) -> Result<SharedList<Row>, NoMemory>
    requires bounded { size_of (λ row. row.adjusted) rows.now + nat_abs one.now.amount ≤ 2 ^ 126 }
    ensures { IfOk result (λ changed. changed ≡ adjust_at (one.now.invoice - 1) one.now.amount rows.now) }
{
    let place = u64::from(one.invoice.saturating_sub(1));
    let Some(row) = rows.get(place) else {
        // Levelling names only invoices that are there.
        return rows.share();
    };
    let changed = adjust(row, one);
    rows.replace(alloc, place, changed)
}

/// A row after an adjustment.
fn adjust(row: &Row, one: &Adjustment) -> Row
    requires bounded { nat_abs row.now.adjusted + nat_abs one.now.amount ≤ 2 ^ 126 }
    ensures { result ≡ adjust row.now one.now.amount }
{
    Row {
        day: row.day,
        total: row.total,
        adjusted: row.adjusted + one.amount,
        paid: row.paid,
    }
}

/// The items, and those of some adjustments behind them.
pub(crate) fn with_items(
    alloc: Global,
    items: &SharedList<(u32, Line)>,
    adjustments: &[Adjustment],
) -> Result<SharedList<(u32, Line)>, NoMemory>
    ensures { IfOk result (λ longer. longer ≡ items.now ++ map item_of adjustments.now) }
{
    let mut longer = items.share()?;
    for one in adjustments {
        longer = with_item(
            alloc,
            &longer,
            one.invoice,
            Line::Cba { amount: one.amount },
        )?;
    }
    Ok(longer)
}

/// The items, and another one behind them.
pub(crate) fn with_item(
    alloc: Global,
    items: &SharedList<(u32, Line)>,
    invoice: u32,
    line: Line,
) -> Result<SharedList<(u32, Line)>, NoMemory>
    ensures { IfOk result (λ longer. longer ≡ items.now ++ (invoice, line) ∷ []) }
{
    items.push(alloc, (invoice, line))
}
