//! The payments of an account.
ghost use Rattle.std.specs.Prelude.{◌≡◌, ◌≤ℤ◌, ℕ, pos, neg_ℤ, int_lt, None, Some, Err, IfOk, IfErr, IfSome};
ghost use Rattle.std.specs.Prelude.{All, List, true};
ghost use Rattle.std.specs.List.{AllPairs};
ghost use Rattle.kb_payment.specs.Attempts.{is_open};
ghost use Rattle.kb_payment.specs.PaymentSums.{attempt_of, open_purchases, has_automatic_since, open_keys};
ghost use Rattle.kb_payment.specs.PaymentSums.{IsOpenKey};
ghost use Rattle.kb_payment.specs.PaymentSums.{paid_on, StayFinal, Moves};
ghost use Rattle.kb_payment.specs.PaymentEdits.{no_payments, purchased, purchase_fault, refunded};
ghost use Rattle.kb_payment.specs.PaymentEdits.{charged_back, give_back_fault, settled, settle_fault};
ghost use Rattle.kb_payment.specs.SoundPayments.{ArePayments};
ghost use Rattle.kb_payment.specs.Private.LentEntries.{open_among};

mod give_back;
mod kept;
mod purchase;
mod settlement;

use crate::attempt::{Attempt, Kind, Status};
use crate::fault::PayFault;
use crate::kept_attempt::KeptAttempt;
use crate::on_invoice::OnInvoice;
use kb_base::NoMemory;
use kb_days::{Day, Name};
use kb_sharing::SharedMap;
use purchase::amount_of;
use settlement::moved_by;
use std::alloc::Global;
use std::marker::Model;

/// The most that one purchase pays, in minor units.
pub const MAX_PURCHASE: u64 = 1_000_000_000_000;

/// The payments of an account: one attempt for each payment key. An edited value shares what stays as it was.
#[derive(Drop)]
pub struct Payments {
    attempts: SharedMap<Name, KeptAttempt>,
    /// What is given back of each purchase, or may yet be.
    taken: SharedMap<Name, u64>,
    /// What is kept of the purchases on each invoice, by its number.
    invoices: SharedMap<u32, OnInvoice>,
}

impl Model for Payments {
    ghost use Rattle.std.specs.FinMap.{entries};
    ghost use Rattle.kb_payment.specs.PaymentSums.{PaymentsValue};
    ghost use Rattle.kb_payment.specs.SoundPayments.{ArePayments};
    ghost use Rattle.kb_payment.specs.Private.KeptSums.{AreKept};

    ghost Value = { PaymentsValue };

    ghost view = { λ payments. entries payments.attempts };

    ghost invariant = { λ payments. ArePayments (entries payments.attempts)
        × AreKept (entries payments.attempts) (entries payments.taken) (entries payments.invoices) };
}

impl Payments {
    /// No attempt yet.
    pub fn new(alloc: Global) -> Payments
        ensures { result ≡ no_payments }
    {
        Payments {
            attempts: SharedMap::new(),
            taken: SharedMap::new(),
            invoices: SharedMap::new(),
        }
    }

    /// The attempt of a payment key. It takes no memory.
    #[tactic(auto, using(crate::proofs::MapEntries::found_entry))]
    pub fn attempt(&self, key: Name) -> Option<Attempt>
        ensures attempt { result ≡ attempt_of self.now key }
        ensures sound { ArePayments self.now }
    {
        match self.attempts.get(&key) {
            None => None,
            Some(kept) => Some(kept.attempt()),
        }
    }

    /// Whether a purchase on the invoice of a number is open. It takes no memory.
    pub fn has_open_purchase(&self, invoice: u32) -> bool
        ensures { result ≡ int_lt (pos 0) (open_purchases self.now invoice) }
    {
        self.on_invoice(invoice).has_open
    }

    /// Whether the invoice of a number has an automatic payment of a day or later. It takes no memory.
    pub fn has_automatic_since(&self, invoice: u32, day: Day) -> bool
        ensures { result ≡ has_automatic_since self.now invoice day }
    {
        match self.on_invoice(invoice).automatic {
            Some(latest) => day <= latest,
            None => false,
        }
    }

    /// The keys of the open attempts, in order of the keys. It looks at all attempts.
    pub fn open_attempts(&self, alloc: Global) -> Result<Vec<Name>, NoMemory>
        ensures keys { IfOk result (λ keys. keys.items ≡ open_keys self.now) }
        ensures open { IfOk result (λ keys. All (IsOpenKey self.now) keys.items) }
        ensures apart { IfOk result (λ keys. AllPairs (λ (one other : List ℕ). one ≡ other → ⊥) keys.items) }
    {
        let entries = self.attempts.entries(alloc)?;
        Ok(open_among(alloc, &entries)?)
    }

    /// Begins to pay an amount on an invoice of this balance: the amount that is asked for, or else as much
    /// of the balance as one purchase may pay. Refused as `KeyReused` if the key has an attempt, as
    /// `NothingDue` if the balance is 0, as `AttemptOpen` if a purchase on the invoice is open, and as
    /// `AmountTooLarge` if the amount is above the balance or `MAX_PURCHASE`.
    #[tactic(auto, using(crate::proofs::EditLaws::purchase_idle, crate::proofs::EditLaws::begun_unmoved, crate::proofs::EditLaws::begun_lasting))]
    pub fn purchase(
        &self,
        alloc: Global,
        key: Name,
        invoice: u32,
        balance: i128,
        amount: Option<u64>,
        day: Day,
        auto: bool,
    ) -> Result<Payments, PayFault>
        requires due { pos 0 ≤ℤ balance }
        ensures purchased { IfOk result (λ payments. payments
            ≡ purchased self.now key invoice balance amount day auto) }
        ensures refused { IfSome (purchase_fault self.now key invoice balance amount)
            (λ fault. result ≡ Err fault) }
        ensures memory { purchase_fault self.now key invoice balance amount ≡ None
            → IfErr result (λ fault. fault ≡ PayFault.NoMemory) }
        ensures unmoved { IfOk result (λ payments. (asked : ℕ)
            → paid_on payments asked ≡ paid_on self.now asked) }
        ensures lasting { IfOk result (λ payments. StayFinal self.now payments) }
    {
        if let Some(fault) = self.purchase_fault(key, invoice, balance, amount) {
            return Err(fault);
        }
        let amount = amount_of(balance, amount);
        Ok(self.with_purchase(alloc, key, invoice, amount, day, auto)?)
    }

    /// Begins to give back an amount of a purchase. Refused as `KeyReused` if the key has an attempt, as
    /// `NoPayment` if the purchase isn't there, as `PaymentState` if it isn't a successful purchase, and as
    /// `AmountTooLarge` if the amount is above what is left of it.
    #[tactic(auto, using(crate::proofs::GiveBacks::refund_is, crate::proofs::EditLaws::begun_unmoved, crate::proofs::EditLaws::begun_lasting))]
    pub fn refund(
        &self,
        alloc: Global,
        key: Name,
        of: Name,
        amount: u64,
        day: Day,
    ) -> Result<Payments, PayFault>
        ensures refunded { IfOk result (λ payments. payments ≡ refunded self.now key of amount day) }
        ensures refused { IfSome (give_back_fault self.now key of amount) (λ fault. result ≡ Err fault) }
        ensures memory { give_back_fault self.now key of amount ≡ None
            → IfErr result (λ fault. fault ≡ PayFault.NoMemory) }
        ensures unmoved { IfOk result (λ payments. (asked : ℕ)
            → paid_on payments asked ≡ paid_on self.now asked) }
        ensures lasting { IfOk result (λ payments. StayFinal self.now payments) }
    {
        let purchase = self.purchase_to_give_back(key, of, amount)?;
        let refund = Attempt {
            kind: Kind::Refund,
            invoice: purchase.invoice,
            of: Some(of),
            amount,
            day,
            status: Status::Unknown,
            auto: false,
        };
        Ok(self.with_give_back(alloc, key, of, refund)?)
    }

    /// Notes that an amount of a purchase was taken back by the customer's bank. Refused as a refund is.
    #[tactic(auto, using(crate::proofs::GiveBacks::chargeback_is, crate::proofs::EditLaws::chargeback_moved, crate::proofs::EditLaws::begun_lasting))]
    pub fn chargeback(
        &self,
        alloc: Global,
        key: Name,
        of: Name,
        amount: u64,
        day: Day,
    ) -> Result<Payments, PayFault>
        ensures charged_back { IfOk result (λ payments. payments ≡ charged_back self.now key of amount day) }
        ensures refused { IfSome (give_back_fault self.now key of amount) (λ fault. result ≡ Err fault) }
        ensures memory { give_back_fault self.now key of amount ≡ None
            → IfErr result (λ fault. fault ≡ PayFault.NoMemory) }
        ensures moved { IfOk result (λ payments. IfSome (attempt_of self.now of)
            (λ purchase. Moves self.now payments purchase.invoice (neg_ℤ (pos amount)))) }
        ensures lasting { IfOk result (λ payments. StayFinal self.now payments) }
    {
        let purchase = self.purchase_to_give_back(key, of, amount)?;
        let chargeback = Attempt {
            kind: Kind::Chargeback,
            invoice: purchase.invoice,
            of: Some(of),
            amount,
            day,
            status: Status::Success,
            auto: false,
        };
        Ok(self.with_give_back(alloc, key, of, chargeback)?)
    }

    /// Gives an open attempt a status, and says by how much what is paid on its invoice moves. Refused as
    /// `NoPayment` if the key has no attempt, and as `PaymentState` if the attempt isn't open.
    pub fn settle(
        &self,
        alloc: Global,
        key: Name,
        status: Status,
    ) -> Result<(Payments, i128), PayFault>
        ensures settled { IfOk result (λ settled_by. settled_by.0 ≡ settled self.now key status) }
        ensures refused { IfSome (settle_fault self.now key) (λ fault. result ≡ Err fault) }
        ensures memory { settle_fault self.now key ≡ None
            → IfErr result (λ fault. fault ≡ PayFault.NoMemory) }
        ensures moved { IfOk result (λ settled_by. IfSome (attempt_of self.now key)
            (λ attempt. Moves self.now settled_by.0 attempt.invoice settled_by.1)) }
        ensures lasting { IfOk result (λ settled_by. StayFinal self.now settled_by.0) }
    {
        let Some(attempt) = self.attempt(key) else {
            return Err(PayFault::NoPayment);
        };
        if !attempt.status.is_open() {
            return Err(PayFault::PaymentState);
        }
        Ok(self.settle_open(alloc, key, &attempt, status)?)
    }

    /// Gives an open attempt that is at hand a status, as `settle` does.
    #[tactic(auto, using(crate::proofs::EditLaws::settlement_moved, crate::proofs::EditLaws::settlement_lasting))]
    pub fn settle_open(
        &self,
        alloc: Global,
        key: Name,
        attempt: &Attempt,
        status: Status,
    ) -> Result<(Payments, i128), NoMemory>
        requires there { attempt_of self.now key ≡ Some attempt.now }
        requires opened { is_open attempt.now.status ≡ true }
        ensures settled { IfOk result (λ settled_by. settled_by.0 ≡ settled self.now key status) }
        ensures moved { IfOk result (λ settled_by. IfSome (attempt_of self.now key)
            (λ found. Moves self.now settled_by.0 found.invoice settled_by.1)) }
        ensures lasting { IfOk result (λ settled_by. StayFinal self.now settled_by.0) }
    {
        // The check has to see that the payments are sound.
        let _attempts = &self.attempts;
        let payments = self.with_status(alloc, key, attempt, status)?;
        Ok((payments, moved_by(attempt, status)))
    }
}

/// The keys of the open attempts among some.
fn open_among(alloc: Global, entries: &[(&Name, &KeptAttempt)]) -> Result<Vec<Name>, NoMemory>
    ensures { IfOk result (λ keys. keys.items ≡ open_among entries.now) }
{
    let mut keys = Vec::new(alloc);
    for entry in entries {
        if entry.1.attempt().status.is_open() {
            keys.push(*entry.0)?;
        }
    }
    Ok(keys)
}
