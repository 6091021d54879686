//! Open invoices: those whose balance isn't 0.
ghost use Rattle.std.specs.Prelude.{◌≡◌, ◌^◌, ◌≤◌, ◌≤ℤ◌, pos, ◌<◌, ◌++◌, [], length, nat_lt, IfOk, OnOk};
ghost use Rattle.std.specs.Int.{int_max};
ghost use Rattle.std.specs.List.{filter};
ghost use Rattle.kb_credit.specs.Sizes.{size_of};
ghost use Rattle.kb_credit.specs.InvoiceRows.{least, balance_of};
ghost use Rattle.kb_credit.specs.Private.KeptSums.{IsSmall};
ghost use Rattle.kb_credit.specs.Private.OpenInvoices.{opening, reopened, is_due, due_sum, due_count};
ghost use Rattle.kb_credit.specs.Private.OpenInvoices.{due_days, next_due, earlier_of};

use crate::row::{Row, balance};
use kb_base::{NoMemory, Seq};
use kb_days::Day;
use std::alloc::Global;

/// The number, the day and the balance of an open invoice.
#[derive(Clone, Copy)]
pub(crate) struct OpenInvoice {
    pub(crate) invoice: u32,
    pub(crate) day: Day,
    pub(crate) balance: i128,
}

/// Adds an open invoice, if its balance isn't 0.
pub(crate) fn push_open(
    invoices: &mut Vec<OpenInvoice>,
    invoice: u32,
    day: Day,
    balance: i128,
) -> Result<(), NoMemory>
    ensures { OnOk result (invoices.new.items ≡ invoices.old.items ++ opening invoice day balance []) }
{
    if balance != 0 {
        invoices.push(OpenInvoice {
            invoice,
            day,
            balance,
        })?;
    }
    Ok(())
}

/// An invoice that may be open: its balance may be 0.
pub(crate) fn open_invoice(invoice: u32, row: &Row) -> OpenInvoice
    requires small { IsSmall row.now }
    ensures { result ≡ record { invoice = invoice; day = row.now.day; balance = balance_of row.now } }
{
    OpenInvoice {
        invoice,
        day: row.day,
        balance: balance(row),
    }
}

/// The open invoices, and one that is issued behind them, if its total isn't 0.
pub(crate) fn with_open(
    alloc: Global,
    invoices: &[OpenInvoice],
    invoice: u32,
    row: &Row,
) -> Result<Seq<OpenInvoice>, NoMemory>
    ensures { IfOk result (λ longer. longer ≡ invoices.now ++ opening invoice row.now.day row.now.total []) }
{
    let mut longer = Vec::with_capacity(alloc, invoices.len() + 1)?;
    longer.extend_from_slice(invoices)?;
    push_open(&mut longer, invoice, row.day, row.total)?;
    Ok(Seq::from_vec(longer))
}

/// The open invoices, where the balance of one is now this.
pub(crate) fn reopened(
    alloc: Global,
    invoices: &[OpenInvoice],
    changed: &OpenInvoice,
) -> Result<Seq<OpenInvoice>, NoMemory>
    ensures { IfOk result (λ open_now. open_now ≡ reopened changed.now invoices.now) }
{
    let mut kept = Vec::with_capacity(alloc, invoices.len() + 1)?;
    push_below(&mut kept, invoices, changed.invoice)?;
    push_open(&mut kept, changed.invoice, changed.day, changed.balance)?;
    push_above(&mut kept, invoices, changed.invoice)?;
    Ok(Seq::from_vec(kept))
}

/// Adds the open invoices of which the number is below another.
fn push_below(
    kept: &mut Vec<OpenInvoice>,
    invoices: &[OpenInvoice],
    invoice: u32,
) -> Result<(), NoMemory>
    ensures { OnOk result (kept.new.items
        ≡ kept.old.items ++ filter (λ one. nat_lt one.invoice invoice) invoices.now) }
{
    for one in invoices {
        if one.invoice < invoice {
            kept.push(*one)?;
        }
    }
    Ok(())
}

/// Adds the open invoices of which the number is above another.
fn push_above(
    kept: &mut Vec<OpenInvoice>,
    invoices: &[OpenInvoice],
    invoice: u32,
) -> Result<(), NoMemory>
    ensures { OnOk result (kept.new.items
        ≡ kept.old.items ++ filter (λ one. nat_lt invoice one.invoice) invoices.now) }
{
    for one in invoices {
        if invoice < one.invoice {
            kept.push(*one)?;
        }
    }
    Ok(())
}

/// Whether an open invoice is due.
fn is_due(one: &OpenInvoice) -> bool
    ensures { result ≡ is_due one.now }
{
    0 < one.balance
}

/// What is due of an open invoice: its balance, if that is above 0.
pub(crate) fn due(one: &OpenInvoice) -> i128
    ensures value { result ≡ int_max (pos 0) one.now.balance }
    ensures least { pos 0 ≤ℤ result }
{
    if one.balance < 0 { 0 } else { one.balance }
}

/// What all that are due add up to.
pub(crate) fn due_sum(invoices: &[OpenInvoice]) -> i128
    requires bounded { size_of (λ one. one.balance) invoices.now ≤ 2 ^ 126 }
    ensures { result ≡ due_sum invoices.now }
{
    let mut sum = 0;
    for one in invoices {
        sum += due(one);
    }
    sum
}

/// How many are due.
pub(crate) fn due_count(invoices: &[OpenInvoice]) -> u32
    requires few { length invoices.now < 2 ^ 32 }
    ensures { result ≡ due_count invoices.now }
{
    let mut count = 0;
    for one in invoices {
        if is_due(one) {
            count += 1;
        }
    }
    count
}

/// The earliest day of those that are due.
pub(crate) fn earliest_due(invoices: &[OpenInvoice]) -> Option<Day>
    ensures { result ≡ least (due_days invoices.now) }
{
    let mut found = None;
    for one in invoices {
        if is_due(one) {
            found = Some(earlier_of(&found, one.day));
        }
    }
    found
}

/// Of a day and what was found, the earlier.
fn earlier_of(found: &Option<Day>, day: Day) -> Day
    ensures { result ≡ earlier_of found.now day }
{
    match found {
        Some(found) if *found <= day => *found,
        _ => day,
    }
}

/// The number of the first after a number that is due.
pub(crate) fn next_due(invoices: &[OpenInvoice], after: u32) -> Option<u32>
    ensures { result ≡ next_due after invoices.now }
{
    for one in invoices {
        if after < one.invoice && is_due(one) {
            return Some(one.invoice);
        }
    }
    None
}
