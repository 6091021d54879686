//! Refunds and chargebacks.
ghost use Rattle.std.specs.Prelude.{◌≡◌, None, Some, IfOk, IfErr};
ghost use Rattle.kb_payment.specs.PaymentSums.{with_attempt};
ghost use Rattle.kb_payment.specs.PaymentEdits.{give_back_fault};
ghost use Rattle.kb_payment.specs.Private.GivenBack.{IsCovered, IsGiveBack};

use super::Payments;
use crate::attempt::Attempt;
use crate::fault::PayFault;
use crate::kept_attempt::with_kept;
use kb_base::NoMemory;
use kb_days::Name;
use std::alloc::Global;

impl Payments {
    /// The purchase of a key, if this amount of it may be given back by an attempt of another key.
    pub(super) fn purchase_to_give_back(
        &self,
        key: Name,
        of: Name,
        amount: u64,
    ) -> Result<Attempt, PayFault>
        ensures covered { IfOk result (λ purchase. IsCovered self.now key of purchase amount) }
        ensures allowed { IfOk result (λ purchase. give_back_fault self.now key of amount ≡ None) }
        ensures fault { IfErr result (λ fault. give_back_fault self.now key of amount ≡ Some fault) }
    {
        if self.attempt(key).is_some() {
            return Err(PayFault::KeyReused);
        }
        let Some(purchase) = self.attempt(of) else {
            return Err(PayFault::NoPayment);
        };
        if !purchase.is_paid_purchase() {
            return Err(PayFault::PaymentState);
        }
        if purchase.amount - self.taken_of(of) < amount {
            return Err(PayFault::AmountTooLarge);
        }
        Ok(purchase)
    }

    /// The payments with a refund or a chargeback more, of the purchase of a key.
    pub(super) fn with_give_back(
        &self,
        alloc: Global,
        key: Name,
        of: Name,
        attempt: Attempt,
    ) -> Result<Payments, NoMemory>
        requires { IsGiveBack self.now key of attempt }
        ensures { IfOk result (λ payments. payments ≡ with_attempt self.now key attempt) }
    {
        let taken = self.taken_of(of) + attempt.amount;
        Ok(Payments {
            attempts: with_kept(alloc, &self.attempts, key, attempt)?,
            taken: self.taken.with(alloc, of, taken)?,
            invoices: self.invoices.share()?,
        })
    }
}
