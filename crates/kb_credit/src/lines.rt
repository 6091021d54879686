//! The lines of an invoice that is issued.
ghost use Rattle.std.specs.Prelude.{◌≡◌, ◌^◌, ◌≤◌, ◌++◌, pos, map, IfOk};
ghost use Rattle.kb_sharing.specs.Sums.{sum_of};
ghost use Rattle.kb_credit.specs.Sizes.{size_of};
ghost use Rattle.kb_credit.specs.Items.{amount_of};

use crate::adjustment::with_item;
use crate::line::Line;
use crate::row::Row;
use kb_base::NoMemory;
use kb_days::Day;
use kb_sharing::SharedList;
use std::alloc::Global;

/// The row of an invoice of a day and some lines.
pub(crate) fn issued_row(day: Day, lines: &[Line]) -> Row
    requires bounded { size_of amount_of lines.now ≤ 2 ^ 120 }
    ensures { result
        ≡ record { day = day; total = sum_of amount_of lines.now; adjusted = pos 0; paid = pos 0 } }
{
    Row {
        day,
        total: total_of(lines),
        adjusted: 0,
        paid: 0,
    }
}

/// What some lines amount to, in minor units.
pub fn total_of(lines: &[Line]) -> i128
    requires bounded { size_of amount_of lines.now ≤ 2 ^ 120 }
    ensures { result ≡ sum_of amount_of lines.now }
{
    let mut sum = 0;
    for line in lines {
        sum += line.amount();
    }
    sum
}

/// The items, and the lines of an invoice behind them.
pub(crate) fn with_lines(
    alloc: Global,
    items: &SharedList<(u32, Line)>,
    invoice: u32,
    lines: &[Line],
) -> Result<SharedList<(u32, Line)>, NoMemory>
    ensures { IfOk result (λ longer. longer ≡ items.now ++ map (λ line. (invoice, line)) lines.now) }
{
    let mut longer = items.share()?;
    for line in lines {
        longer = with_item(alloc, &longer, invoice, *line)?;
    }
    Ok(longer)
}
