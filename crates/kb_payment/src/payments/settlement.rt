//! Settlements.
ghost use Rattle.std.specs.Prelude.{◌≡◌, ◌||◌, pos, true, false, None, Some, IfOk, if◌then◌else◌};
ghost use Rattle.kb_payment.specs.Attempts.{is_open, is_success, signed, with_status};
ghost use Rattle.kb_payment.specs.PaymentSums.{attempt_of, with_attempt};

use super::Payments;
use crate::attempt::{Attempt, Kind, Status};
use crate::kept_attempt::with_kept;
use crate::on_invoice::OnInvoice;
use kb_base::NoMemory;
use kb_days::Name;
use std::alloc::Global;

impl Payments {
    /// The payments with another status of an open attempt.
    pub(super) fn with_status(
        &self,
        alloc: Global,
        key: Name,
        attempt: &Attempt,
        status: Status,
    ) -> Result<Payments, NoMemory>
        requires there { attempt_of self.now key ≡ Some attempt.now }
        requires opened { is_open attempt.now.status ≡ true }
        ensures { IfOk result
            (λ payments. payments ≡ with_attempt self.now key (with_status attempt.now status)) }
    {
        match attempt.of {
            None => self.with_settled_purchase(alloc, key, attempt, status),
            Some(of) if status.has_failed() => self.with_failed(alloc, key, of, attempt, status),
            Some(of) => self.with_standing(alloc, key, of, attempt, status),
        }
    }

    /// The payments with another status of an open purchase.
    fn with_settled_purchase(
        &self,
        alloc: Global,
        key: Name,
        attempt: &Attempt,
        status: Status,
    ) -> Result<Payments, NoMemory>
        requires there { attempt_of self.now key ≡ Some attempt.now }
        requires opened { is_open attempt.now.status ≡ true }
        requires purchase { attempt.now.of ≡ None }
        ensures { IfOk result
            (λ payments. payments ≡ with_attempt self.now key (with_status attempt.now status)) }
    {
        let kept = OnInvoice {
            has_open: status.is_open(),
            automatic: self.on_invoice(attempt.invoice).automatic,
        };
        let settled = Attempt { status, ..*attempt };
        Ok(Payments {
            attempts: with_kept(alloc, &self.attempts, key, settled)?,
            taken: self.taken.share()?,
            invoices: self.invoices.with(alloc, attempt.invoice, kept)?,
        })
    }

    /// The payments with another status of an open refund, which may succeed yet or has.
    fn with_standing(
        &self,
        alloc: Global,
        key: Name,
        of: Name,
        attempt: &Attempt,
        status: Status,
    ) -> Result<Payments, NoMemory>
        requires there { attempt_of self.now key ≡ Some attempt.now }
        requires opened { is_open attempt.now.status ≡ true }
        requires named { attempt.now.of ≡ Some of }
        requires stands { (is_success status || is_open status) ≡ true }
        ensures { IfOk result
            (λ payments. payments ≡ with_attempt self.now key (with_status attempt.now status)) }
    {
        let settled = Attempt { status, ..*attempt };
        Ok(Payments {
            attempts: with_kept(alloc, &self.attempts, key, settled)?,
            taken: self.taken.share()?,
            invoices: self.invoices.share()?,
        })
    }

    /// The payments with another status of an open refund, which has failed: it takes nothing of the purchase
    /// of its key any more.
    fn with_failed(
        &self,
        alloc: Global,
        key: Name,
        of: Name,
        attempt: &Attempt,
        status: Status,
    ) -> Result<Payments, NoMemory>
        requires there { attempt_of self.now key ≡ Some attempt.now }
        requires opened { is_open attempt.now.status ≡ true }
        requires named { attempt.now.of ≡ Some of }
        requires fails { (is_success status || is_open status) ≡ false }
        ensures { IfOk result
            (λ payments. payments ≡ with_attempt self.now key (with_status attempt.now status)) }
    {
        let settled = Attempt { status, ..*attempt };
        let taken = self.taken_of(of) - attempt.amount;
        Ok(Payments {
            attempts: with_kept(alloc, &self.attempts, key, settled)?,
            taken: self.taken.with(alloc, of, taken)?,
            invoices: self.invoices.share()?,
        })
    }
}

/// By how much what is paid moves when an open attempt gets a status.
pub(super) fn moved_by(attempt: &Attempt, status: Status) -> i128
    ensures { result ≡ (if is_success status then signed attempt.now.kind attempt.now.amount else pos 0) }
{
    if !status.is_success() {
        return 0;
    }
    match attempt.kind {
        Kind::Purchase => i128::from(attempt.amount),
        Kind::Refund | Kind::Chargeback => -i128::from(attempt.amount),
    }
}
