//! The invoices of an account after a command.
ghost use Rattle.std.specs.Prelude.{◌≡◌, ◌-◌, ◌+◌, ◌^◌, ◌<◌, ◌≤◌, ◌≤ℤ◌, pos, false, length, nat_abs, All};
ghost use Rattle.std.specs.Prelude.{IfOk};
ghost use Rattle.kb_credit.specs.Sizes.{size_of};
ghost use Rattle.kb_credit.specs.Items.{amount_of, is_adjustment};
ghost use Rattle.kb_credit.specs.InvoiceRows.{balance_of};
ghost use Rattle.kb_credit.specs.InvoiceEdits.{max_sum, levelled, paid_on};
ghost use Rattle.kb_book.specs.Steps.{with_invoice};
ghost use Rattle.kb_account.specs.Private.Moves.{with_move};

use crate::begun::Move;
use kb_base::NoMemory;
use kb_credit::{Invoices, Line};
use kb_days::Day;
use std::alloc::Global;

/// The invoices with one of today for these lines, if there are any, and with what moves, levelled.
pub(crate) fn invoices_after(
    alloc: Global,
    invoices: &Invoices,
    today: Day,
    lines: &[Line],
    moved: Move,
) -> Result<Invoices, NoMemory>
    requires room { length invoices.now.rows < 2 ^ 32 - 1 }
    requires plain { All (λ line. is_adjustment line ≡ false) lines.now }
    requires totals { size_of (λ row. row.total) invoices.now.rows + size_of amount_of lines.now ≤ max_sum }
    requires paid { size_of (λ row. row.paid) invoices.now.rows + nat_abs moved.amount ≤ max_sum }
    requires there { moved.invoice ≤ length invoices.now.rows }
    ensures after { IfOk result (λ after. after
        ≡ levelled (with_move moved (with_invoice invoices.now today lines.now))) }
    ensures levelled { IfOk result (λ after. All (λ row. pos 0 ≤ℤ balance_of row) after.rows) }
{
    if lines.is_empty() {
        let after = moved_and_levelled(alloc, invoices, moved)?;
        return Ok(after);
    }
    let issued = invoices.issue(alloc, today, lines)?;
    let after = moved_and_levelled(alloc, &issued, moved)?;
    Ok(after)
}

/// The invoices with what moves, levelled.
fn moved_and_levelled(alloc: Global, invoices: &Invoices, moved: Move) -> Result<Invoices, NoMemory>
    requires paid { size_of (λ row. row.paid) invoices.now.rows + nat_abs moved.amount ≤ max_sum }
    requires there { moved.invoice ≤ length invoices.now.rows }
    ensures after { IfOk result (λ after. after ≡ levelled (with_move moved invoices.now)) }
    ensures levelled { IfOk result (λ after. All (λ row. pos 0 ≤ℤ balance_of row) after.rows) }
{
    if moved.invoice == 0 {
        let levelled = invoices.level(alloc)?;
        return Ok(levelled);
    }
    let levelled = paid_and_levelled(alloc, invoices, moved.invoice, moved.amount)?;
    Ok(levelled)
}

/// The invoices, where what is paid on one moves by an amount, levelled.
#[tactic(auto, using(crate::proofs::MovedInvoices::moves))]
fn paid_and_levelled(
    alloc: Global,
    invoices: &Invoices,
    invoice: u32,
    amount: i128,
) -> Result<Invoices, NoMemory>
    requires paid { size_of (λ row. row.paid) invoices.now.rows + nat_abs amount ≤ max_sum }
    requires numbered { 1 ≤ invoice }
    requires there { invoice ≤ length invoices.now.rows }
    ensures after { IfOk result (λ after. after ≡ levelled (paid_on invoices.now invoice amount)) }
    ensures levelled { IfOk result (λ after. All (λ row. pos 0 ≤ℤ balance_of row) after.rows) }
{
    let paid = invoices.pay(alloc, invoice, amount)?;
    let levelled = paid.level(alloc)?;
    Ok(levelled)
}
