//! An invoice as it is shown.
ghost use Rattle.std.specs.Prelude.{◌≡◌, ◌++◌, option_to_list, option_and_then, IfOk, OnOk};
ghost use Rattle.kb_credit.specs.InvoiceRows.{numbered};
ghost use Rattle.kb_account.specs.Views.{name_at, line_name, item_view, shown_item, items_from, invoice_view};
ghost use Rattle.kb_account.specs.Private.States.{value_of};

use crate::state::State;
use kb_base::{NoMemory, Seq};
use kb_book::{InvoiceView, ItemView};
use kb_credit::{Invoices, Line};
use kb_days::{Day, Name};
use kb_timeline::Timeline;
use std::alloc::Global;

impl State {
    /// The invoice of a number, if it is there.
    pub fn invoice_view(&self, alloc: Global, invoice: u32) -> Result<Option<InvoiceView>, NoMemory>
        ensures { IfOk result (λ view. view ≡ invoice_view (value_of self.now) invoice) }
    {
        let Some(issued) = self.invoices.invoice(invoice) else {
            return Ok(None);
        };
        let Some(balance) = self.invoices.balance(invoice) else {
            return Ok(None);
        };
        let items = items_of(alloc, &self.timeline, &self.invoices, invoice)?;
        Ok(Some(InvoiceView {
            invoice,
            day: issued.day,
            total: issued.total,
            balance,
            items: Seq::from_vec(items),
        }))
    }
}

/// The items of an invoice, in order of their numbers.
fn items_of(
    alloc: Global,
    timeline: &Timeline,
    invoices: &Invoices,
    invoice: u32,
) -> Result<Vec<ItemView>, NoMemory>
    ensures { IfOk result (λ items. items.items ≡ items_from timeline.now invoice 1 invoices.now.items) }
{
    let mut items = Vec::new(alloc);
    for place in 0..invoices.items() {
        push_shown(
            &mut items,
            shown_item(timeline, invoices, invoice, place + 1),
        )?;
    }
    Ok(items)
}

/// Puts an item behind the others, if there is one.
fn push_shown(items: &mut Vec<ItemView>, item: Option<ItemView>) -> Result<(), NoMemory>
    ensures { OnOk result (items.new.items ≡ items.old.items ++ option_to_list item) }
{
    let Some(
        ItemView {
            item,
            subscription,
            line,
        },
    ) = item
    else {
        return Ok(());
    };
    items.push(ItemView {
        item,
        subscription,
        line,
    })?;
    Ok(())
}

/// The item of a number, if it is one of the invoice.
fn shown_item(timeline: &Timeline, invoices: &Invoices, invoice: u32, item: u64) -> Option<ItemView>
    ensures { result ≡ option_and_then (shown_item timeline.now invoice item)
        (numbered item invoices.now.items) }
{
    let (number, line) = invoices.item(item)?;
    if number == invoice {
        Some(item_view(timeline, item, line))
    } else {
        None
    }
}

/// An item as it is shown.
fn item_view(timeline: &Timeline, item: u64, line: Line) -> ItemView
    ensures { result ≡ item_view timeline.now item line }
{
    ItemView {
        item,
        subscription: line_name(timeline, &line),
        line,
    }
}

/// The name of the subscription of a line, if it is of one.
fn line_name(timeline: &Timeline, line: &Line) -> Option<Name>
    ensures { result ≡ line_name timeline.now line.now }
{
    match line {
        Line::Bill { subscription, .. } | Line::Repair { subscription, .. } => {
            name_at(timeline, *subscription)
        }
        Line::Charge { .. } | Line::Credit { .. } | Line::Cba { .. } => None,
    }
}

/// The name of the subscription at a place, if it is there.
fn name_at(timeline: &Timeline, place: u32) -> Option<Name>
    ensures { result ≡ name_at timeline.now place }
{
    if timeline.len() <= place {
        return None;
    }
    Some(timeline.subscription(place).name)
}
