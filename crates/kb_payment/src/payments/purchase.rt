//! Purchases.
ghost use Rattle.std.specs.Prelude.{◌≡◌, ◌≤◌, ◌≤ℤ◌, pos, None, IfOk};
ghost use Rattle.kb_payment.specs.PaymentSums.{attempt_of, open_purchases, with_attempt};
ghost use Rattle.kb_payment.specs.PaymentEdits.{amount_of, is_too_large, purchase_of, purchase_fault};
ghost use Rattle.kb_payment.specs.PaymentEdits.{max_purchase};
ghost use Rattle.kb_payment.specs.Private.KeptSums.{latest};

use super::{MAX_PURCHASE, Payments};
use crate::attempt::{Attempt, Kind, Status};
use crate::fault::PayFault;
use crate::kept_attempt::with_kept;
use crate::on_invoice::OnInvoice;
use kb_base::NoMemory;
use kb_days::{Day, Name};
use std::alloc::Global;
use std::cmp::max;

impl Payments {
    /// Why a purchase is refused, if it is.
    pub(super) fn purchase_fault(
        &self,
        key: Name,
        invoice: u32,
        balance: i128,
        amount: Option<u64>,
    ) -> Option<PayFault>
        ensures { result ≡ purchase_fault self.now key invoice balance amount }
    {
        if self.attempt(key).is_some() {
            return Some(PayFault::KeyReused);
        }
        if balance <= 0 {
            return Some(PayFault::NothingDue);
        }
        if self.has_open_purchase(invoice) {
            return Some(PayFault::AttemptOpen);
        }
        if is_too_large(balance, amount) {
            return Some(PayFault::AmountTooLarge);
        }
        None
    }

    /// The payments with a purchase more, which begins as unknown.
    pub(super) fn with_purchase(
        &self,
        alloc: Global,
        key: Name,
        invoice: u32,
        amount: u64,
        day: Day,
        auto: bool,
    ) -> Result<Payments, NoMemory>
        requires fresh { attempt_of self.now key ≡ None }
        requires idle { open_purchases self.now invoice ≡ pos 0 }
        requires bounded { amount ≤ max_purchase }
        ensures { IfOk result (λ payments.
            payments ≡ with_attempt self.now key (purchase_of invoice amount day auto)) }
    {
        let attempt = Attempt {
            kind: Kind::Purchase,
            invoice,
            of: None,
            amount,
            day,
            status: Status::Unknown,
            auto,
        };
        let kept = OnInvoice {
            has_open: true,
            automatic: latest(auto, day, self.on_invoice(invoice).automatic),
        };
        Ok(Payments {
            attempts: with_kept(alloc, &self.attempts, key, attempt)?,
            taken: self.taken.share()?,
            invoices: self.invoices.with(alloc, invoice, kept)?,
        })
    }
}

/// The day of the latest automatic payment, with a purchase of a day more.
fn latest(auto: bool, day: Day, last: Option<Day>) -> Option<Day>
    ensures { result ≡ latest auto day last }
{
    if !auto {
        return last;
    }
    match last {
        Some(last) => Some(max(day, last)),
        None => Some(day),
    }
}

/// Whether an amount that is asked for is more than the balance, or than one purchase may pay.
fn is_too_large(balance: i128, amount: Option<u64>) -> bool
    ensures { result ≡ is_too_large balance amount }
{
    match amount {
        Some(amount) => balance < i128::from(amount) || MAX_PURCHASE < amount,
        None => false,
    }
}

/// What a purchase pays.
pub(super) fn amount_of(balance: i128, amount: Option<u64>) -> u64
    requires due { pos 0 ≤ℤ balance }
    ensures { result ≡ amount_of balance amount }
{
    match amount {
        Some(amount) => amount,
        None => balance.unsigned_abs().min(u128::from(MAX_PURCHASE)) as u64,
    }
}
