//! Items as lines of an invoice.
ghost use Rattle.std.specs.Prelude.{◌≡◌, ◌+◌, ◌*◌, ◌++◌, All, OnOk};
ghost use Rattle.kb_tree.specs.Items.{cell_at};
ghost use Rattle.kb_tree.specs.Amounts.{IsPriced};
ghost use Rattle.kb_tree.specs.Issues as told;
ghost use Rattle.kb_tree.specs.ItemLines.{IsItemLine};

use crate::cost::days_cost;
use crate::coverage::Coverage;
use crate::item::NewItem;
use kb_base::NoMemory;
use kb_credit::Line;

/// Adds the lines of new items of the subscription at a place: of its recurring charges, or else of its fees.
pub fn push_lines(
    lines: &mut Vec<Line>,
    sub: u32,
    recurring: bool,
    coverage: &Coverage,
    items: &[NewItem],
) -> Result<(), NoMemory>
    requires priced { All (IsPriced (cell_at coverage.now)) items.now }
    ensures lines { OnOk result (lines.new.items
        ≡ lines.old.items ++ told.lines_of sub recurring (cell_at coverage.now) items.now) }
    ensures plain { OnOk result (All IsItemLine lines.old.items → All IsItemLine lines.new.items) }
{
    for item in items {
        lines.push(line_of(sub, recurring, coverage, item))?;
    }
    Ok(())
}

/// An item as a line.
fn line_of(sub: u32, recurring: bool, coverage: &Coverage, item: &NewItem) -> Line
    requires priced { IsPriced (cell_at coverage.now) item.now }
    ensures line { result ≡ told.line_of sub recurring (cell_at coverage.now) item.now }
    ensures plain { IsItemLine result }
{
    match item {
        NewItem::Bill { from, to, cell } => Line::Bill {
            subscription: sub,
            recurring,
            from: *from,
            to: *to,
            amount: i128::from(days_cost(cell, *from, *to)),
        },
        NewItem::Repair { of, from, to } => Line::Repair {
            subscription: sub,
            of: *of,
            from: *from,
            to: *to,
            amount: match coverage.cell(*of) {
                None => 0,
                Some(cell) => -i128::from(days_cost(&cell, *from, *to)),
            },
        },
    }
}
