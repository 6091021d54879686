//! The sums of one invoice.
ghost use Rattle.std.specs.Prelude.{◌≡◌, ◌^◌, ◌≤◌, ◌+ℤ◌, nat_abs};
ghost use Rattle.kb_credit.specs.InvoiceRows.{balance_of};
ghost use Rattle.kb_credit.specs.Private.KeptSums.{IsSmall};

use kb_days::Day;

/// The day of an invoice and its sums, in minor units.
#[derive(Clone, Copy)]
pub struct Row {
    pub day: Day,
    /// Of its items, except the credit adjustments.
    pub total: i128,
    /// Of its credit adjustments.
    pub adjusted: i128,
    pub paid: i128,
}

/// What is left to pay of an invoice; if it is negative, what was paid or given back too much.
pub(crate) fn balance(row: &Row) -> i128
    requires small { IsSmall row.now }
    ensures { result ≡ balance_of row.now }
{
    row.total + row.adjusted - row.paid
}

/// The row, where what is paid moves by an amount.
pub(crate) fn paid_row(row: &Row, amount: i128) -> Row
    requires small { nat_abs (row.now.paid +ℤ amount) ≤ 2 ^ 120 }
    ensures { result ≡ record row.now { paid = row.now.paid +ℤ amount } }
{
    Row {
        day: row.day,
        total: row.total,
        adjusted: row.adjusted,
        paid: row.paid + amount,
    }
}
