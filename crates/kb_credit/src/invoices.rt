//! The invoices of an account. Beside the rows stand the open invoices and the sums, so that no call walks
//! all rows.
ghost use Rattle.std.specs.Prelude.{◌≡◌, ◌↔◌, ◌⊎◌, ◌+◌, ◌-◌, ◌^◌, ◌<◌, ◌≤◌, ◌≤ℤ◌, ◌-ℤ◌, pos, false, length};
ghost use Rattle.std.specs.Prelude.{IsTrue};
ghost use Rattle.std.specs.Prelude.{All, Contains, Option, None, option_map, option_copied, IfOk, IfSome};
ghost use Rattle.std.specs.Int.{int_max};
ghost use Rattle.kb_credit.specs.Sizes.{size_of};
ghost use Rattle.kb_credit.specs.Items.{amount_of, is_adjustment};
ghost use Rattle.kb_credit.specs.InvoiceRows.{numbered, invoice_of, balance_of, charged, paid, credit};
ghost use Rattle.kb_credit.specs.InvoiceRows.{unpaid, unpaid_count, unpaid_days, earliest_unpaid};
ghost use Rattle.kb_credit.specs.InvoiceRows.{next_unpaid};
ghost use Rattle.kb_credit.specs.InvoiceEdits.{max_sum, no_invoices, issued, paid_at, paid_on, levelled};
ghost use Rattle.kb_credit.specs.Private.KeptSums.{IsSmall};

use crate::adjustment::{adjusted, with_items};
use crate::invoice::Invoice;
use crate::levelling::level_adjustments;
use crate::line::Line;
use crate::lines::{issued_row, with_lines};
use crate::open_invoice::{
    OpenInvoice, due_count, due_sum, earliest_due, next_due, open_invoice, reopened, with_open,
};
use crate::row::{Row, balance, paid_row};
use crate::sums::{Sums, levelled, no_sums, with_issued, with_paid};
use kb_base::{NoMemory, Seq};
use kb_days::Day;
use kb_sharing::SharedList;
use std::alloc::Global;
use std::marker::Model;

/// The invoices of an account and their items, each numbered from 1.
#[derive(Drop)]
pub struct Invoices {
    rows: SharedList<Row>,
    items: SharedList<(u32, Line)>,
    open: Seq<OpenInvoice>,
    sums: Sums,
}

impl Model for Invoices {
    ghost use Rattle.kb_credit.specs.InvoiceRows.{InvoicesValue};
    ghost use Rattle.kb_credit.specs.InvoiceEdits.{AreInvoices};
    ghost use Rattle.kb_credit.specs.Private.KeptSums.{AreKept};

    ghost Value = { InvoicesValue };

    ghost view = { λ all. record { rows = all.rows; items = all.items } };

    ghost invariant = { λ all. AreInvoices (record { rows = all.rows; items = all.items })
        × AreKept all.rows all.«open» all.sums };
}

impl Invoices {
    /// No invoice.
    pub fn new(alloc: Global) -> Invoices
        ensures { result ≡ no_invoices }
    {
        Invoices {
            rows: SharedList::new(),
            items: SharedList::new(),
            open: Seq::new(alloc),
            sums: no_sums(),
        }
    }

    /// The invoices, and another one with the next number.
    pub fn issue(&self, alloc: Global, day: Day, lines: &[Line]) -> Result<Invoices, NoMemory>
        requires room { length self.now.rows < 2 ^ 32 - 1 }
        requires some { 0 < length lines.now }
        requires plain { All (λ line. is_adjustment line ≡ false) lines.now }
        requires bounded { size_of (λ row. row.total) self.now.rows + size_of amount_of lines.now ≤ max_sum }
        ensures issued { IfOk result (λ invoices. invoices ≡ issued self.now day lines.now) }
    {
        let number = self.len() + 1;
        let row = issued_row(day, lines);
        Ok(Invoices {
            open: with_open(alloc, self.open.as_slice(), number, &row)?,
            items: with_lines(alloc, &self.items, number, lines)?,
            sums: with_issued(&self.sums, &row),
            rows: self.rows.push(alloc, row)?,
        })
    }

    /// The invoices, where what is paid on one moves by an amount.
    pub fn pay(&self, alloc: Global, invoice: u32, amount: i128) -> Result<Invoices, NoMemory>
        requires numbered { 1 ≤ invoice }
        requires there { invoice ≤ length self.now.rows }
        requires bounded { size_of (λ row. row.paid) (paid_at (invoice - 1) amount self.now.rows) ≤ max_sum }
        ensures paid { IfOk result (λ invoices. invoices ≡ paid_on self.now invoice amount) }
    {
        let place = u64::from(invoice - 1);
        let Some(row) = self.rows.get(place) else {
            unreachable!()
        };
        let changed = paid_row(row, amount);
        let now = open_invoice(invoice, &changed);
        Ok(Invoices {
            open: reopened(alloc, self.open.as_slice(), &now)?,
            items: self.items.share()?,
            sums: with_paid(&self.sums, amount),
            rows: self.rows.replace(alloc, place, changed)?,
        })
    }

    /// The invoices, levelled: what is paid beyond an invoice is made credit, and credit is used on what is
    /// unpaid, the lowest number first.
    pub fn level(&self, alloc: Global) -> Result<Invoices, NoMemory>
        ensures levelled { IfOk result (λ invoices. invoices ≡ levelled self.now) }
        ensures no_negative { IfOk result (λ invoices. All (λ row. pos 0 ≤ℤ balance_of row) invoices.rows) }
        ensures credit { IfOk result (λ invoices. credit invoices.rows
            ≡ int_max (pos 0) (paid self.now.rows -ℤ charged self.now.rows)) }
        ensures unpaid { IfOk result (λ invoices. unpaid invoices.rows
            ≡ int_max (pos 0) (charged self.now.rows -ℤ paid self.now.rows)) }
        ensures one_side { IfOk result (λ invoices.
            (unpaid invoices.rows ≡ pos 0) ⊎ (credit invoices.rows ≡ pos 0)) }
        ensures again { IfOk result (λ invoices. levelled invoices ≡ invoices) }
    {
        let (adjustments, open) = level_adjustments(alloc, self.open.as_slice(), &self.sums)?;
        Ok(Invoices {
            rows: adjusted(alloc, &self.rows, &adjustments)?,
            items: with_items(alloc, &self.items, &adjustments)?,
            open,
            sums: levelled(&self.sums),
        })
    }

    /// What is left to pay of an invoice, in minor units; if it is negative, what was paid or given back too
    /// much. There is none if no invoice has the number.
    pub fn balance(&self, invoice: u32) -> Option<i128>
        ensures { result ≡ option_map balance_of (numbered invoice self.now.rows) }
    {
        match self.row(invoice) {
            None => None,
            Some(row) => Some(balance(row)),
        }
    }

    /// The day and the total of an invoice. There is none if no invoice has the number.
    pub fn invoice(&self, invoice: u32) -> Option<Invoice>
        ensures { result ≡ option_map invoice_of (numbered invoice self.now.rows) }
    {
        match self.row(invoice) {
            None => None,
            Some(row) => Some(Invoice {
                day: row.day,
                total: row.total,
            }),
        }
    }

    /// An item, and the number of its invoice. There is none if no item has the number.
    pub fn item(&self, item: u64) -> Option<(u32, Line)>
        ensures { result ≡ numbered item self.now.items }
    {
        let place = item.checked_sub(1)?;
        match self.items.get(place) {
            None => None,
            Some((invoice, line)) => Some((*invoice, *line)),
        }
    }

    /// How many invoices there are.
    pub fn len(&self) -> u32
        ensures { result ≡ length self.now.rows }
    {
        self.rows.len() as u32
    }

    /// Whether there is no invoice.
    pub fn is_empty(&self) -> bool
        ensures { IsTrue result ↔ (length self.now.rows ≡ 0) }
    {
        self.rows.len() == 0
    }

    /// How many items there are.
    pub fn items(&self) -> u64
        ensures { result ≡ length self.now.items }
    {
        self.items.len()
    }

    /// What all invoices total, in minor units.
    pub fn charged(&self) -> i128
        ensures { result ≡ charged self.now.rows }
    {
        self.sums.charged
    }

    /// What is paid on all invoices, in minor units.
    pub fn paid(&self) -> i128
        ensures { result ≡ paid self.now.rows }
    {
        self.sums.paid
    }

    /// The credit of the account, in minor units.
    pub fn credit(&self) -> i128
        ensures { result ≡ credit self.now.rows }
    {
        self.sums.credit
    }

    /// What is unpaid of all invoices, in minor units.
    pub fn unpaid(&self) -> i128
        ensures { result ≡ unpaid self.now.rows }
    {
        due_sum(self.open.as_slice())
    }

    /// How many invoices are unpaid.
    pub fn unpaid_count(&self) -> u32
        ensures { result ≡ unpaid_count self.now.rows }
    {
        due_count(self.open.as_slice())
    }

    /// The day of the earliest unpaid invoice, whatever its number.
    pub fn earliest_unpaid(&self) -> Option<Day>
        ensures value { result ≡ earliest_unpaid self.now.rows }
        ensures unpaid { IfSome result (λ day. Contains (unpaid_days self.now.rows) day) }
        ensures earliest { IfSome result (λ day. All (λ other. day ≤ other) (unpaid_days self.now.rows)) }
        ensures none { (result ≡ None) ↔ (unpaid self.now.rows ≡ pos 0) }
    {
        earliest_due(self.open.as_slice())
    }

    /// The lowest number of an unpaid invoice after a number.
    pub fn next_unpaid(&self, after: u32) -> Option<u32>
        ensures { result ≡ next_unpaid after self.now.rows }
    {
        next_due(self.open.as_slice(), after)
    }

    /// The row of an invoice. There is none if no invoice has the number.
    fn row(&self, invoice: u32) -> Option<&Row>
        ensures value { option_copied result ≡ numbered invoice self.now.rows }
        ensures small { IfSome result (λ row. IsSmall row.now) }
    {
        let place = invoice.checked_sub(1)?;
        self.rows.get(u64::from(place))
    }
}
