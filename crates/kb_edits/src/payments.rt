//! Payments, refunds and chargebacks.
ghost use Rattle.std.specs.Prelude.{◌≡◌, ◌≤ℤ◌, pos, true, false, All, Some, None, option_map, OnOk, IfOk};
ghost use Rattle.std.specs.Prelude.{Err, IfErr, IfSome};
ghost use Rattle.kb_credit.specs.InvoiceRows.{numbered, balance_of};
ghost use Rattle.kb_payment.specs.PaymentSums.{attempt_of};
ghost use Rattle.kb_payment.specs.PaymentEdits as told;
ghost use Rattle.kb_book.specs.Rows.{first_refusal, IsUnprepared};
ghost use Rattle.kb_book.specs.Inner.{invoice_due};
ghost use Rattle.kb_book.specs.PaymentRows.{pay_rows, give_back_rows, refusal_of, balance_at};

use crate::words::is_own_key;
use kb_book::{Refusal, Unprepared};
use kb_codec::{Amount, Chargeback, InvoiceNo, Pay, Refund};
use kb_credit::Invoices;
use kb_days::{Day, Name};
use kb_payment::{PayFault, Payments};
use std::alloc::Global;

/// The payments with a purchase more: of the amount that is asked for, or else of what is unpaid of the
/// invoice, up to 10^12 minor units. It is refused, in this order, as `BadName` if the payment key is the
/// platform's own, as `KeyReused`, `NoInvoice`, `NothingDue`, `AttemptOpen` and `AmountTooLarge`.
#[tactic(auto, using(crate::proofs::PayFaults::pay_faults))]
pub fn pay(
    alloc: Global,
    payments: &Payments,
    invoices: &Invoices,
    today: Day,
    pay: &Pay,
) -> Result<Payments, Unprepared>
    requires levelled { All (λ row. pos 0 ≤ℤ balance_of row) invoices.now.rows }
    ensures accepted { OnOk result (first_refusal (pay_rows payments.now invoices.now pay.now) ≡ None) }
    ensures purchased { IfOk result (λ more. more
        ≡ told.purchased payments.now pay.now.payment pay.now.invoice
        (balance_at invoices.now pay.now.invoice) pay.now.amount today false) }
    ensures refused { IfErr result (IsUnprepared (first_refusal
        (pay_rows payments.now invoices.now pay.now))) }
    ensures without_memory { IfSome (first_refusal (pay_rows payments.now invoices.now pay.now))
        (λ refusal. result ≡ Err (Unprepared.Refused refusal)) }
{
    if is_own_key(pay.payment) {
        return Err(Unprepared::Refused(Refusal::BadName));
    }
    if payments.attempt(pay.payment).is_some() {
        return Err(Unprepared::Refused(Refusal::KeyReused));
    }
    let invoice = pay.invoice.number();
    let Some(balance) = balance_on(invoices, invoice) else {
        return Err(Unprepared::Refused(Refusal::NoInvoice));
    };
    let amount = pay.amount.map(Amount::units);
    payments
        .purchase(alloc, pay.payment, invoice, balance, amount, today, false)
        .map_err(unprepared)
}

/// The payments with the automatic payment of an invoice that is due, under a key that has no attempt yet.
#[tactic(auto, using(crate::proofs::DueInvoices::due_invoices))]
pub fn pay_automatically(
    alloc: Global,
    payments: &Payments,
    invoices: &Invoices,
    today: Day,
    key: Name,
    invoice: InvoiceNo,
) -> Result<Payments, Unprepared>
    requires levelled { All (λ row. pos 0 ≤ℤ balance_of row) invoices.now.rows }
    requires fresh { attempt_of payments.now key ≡ None }
    requires due { invoice_due true payments.now invoices.now today ≡ Some invoice }
    ensures purchased { IfOk result (λ more. more ≡ told.purchased payments.now key invoice
        (balance_at invoices.now invoice) None today true) }
    ensures memory { IfErr result (λ fault. fault ≡ Unprepared.NoMemory) }
{
    let number = invoice.number();
    let Some(balance) = balance_on(invoices, number) else {
        unreachable!()
    };
    match payments.purchase(alloc, key, number, balance, None, today, true) {
        Ok(more) => Ok(more),
        // What is due is no more than one purchase may pay, and nothing else stands against it.
        Err(_) => Err(Unprepared::NoMemory),
    }
}

/// The payments with a refund more. It is refused, in this order, as `BadName` if the payment key is the
/// platform's own, as `KeyReused`, `NoPayment`, `PaymentState` and `AmountTooLarge`.
#[tactic(auto, using(crate::proofs::PayFaults::pay_faults))]
pub fn refund(
    alloc: Global,
    payments: &Payments,
    today: Day,
    refund: &Refund,
) -> Result<Payments, Unprepared>
    ensures accepted { OnOk result (first_refusal
        (give_back_rows payments.now refund.now.payment refund.now.of refund.now.amount) ≡ None) }
    ensures refunded { IfOk result (λ more. more
        ≡ told.refunded payments.now refund.now.payment refund.now.of refund.now.amount today) }
    ensures refused { IfErr result (IsUnprepared (first_refusal
        (give_back_rows payments.now refund.now.payment refund.now.of refund.now.amount))) }
    ensures without_memory { IfSome (first_refusal (give_back_rows payments.now refund.now.payment
        refund.now.of refund.now.amount)) (λ refusal. result ≡ Err (Unprepared.Refused refusal)) }
{
    if is_own_key(refund.payment) {
        return Err(Unprepared::Refused(Refusal::BadName));
    }
    payments
        .refund(
            alloc,
            refund.payment,
            refund.of,
            refund.amount.units(),
            today,
        )
        .map_err(unprepared)
}

/// The payments with a chargeback more. It is refused as a refund is.
#[tactic(auto, using(crate::proofs::PayFaults::pay_faults))]
pub fn chargeback(
    alloc: Global,
    payments: &Payments,
    today: Day,
    chargeback: &Chargeback,
) -> Result<Payments, Unprepared>
    ensures accepted { OnOk result (first_refusal
        (give_back_rows payments.now chargeback.now.payment chargeback.now.of chargeback.now.amount)
        ≡ None) }
    ensures charged_back { IfOk result (λ more. more
        ≡ told.charged_back payments.now chargeback.now.payment chargeback.now.of chargeback.now.amount
        today) }
    ensures refused { IfErr result (IsUnprepared (first_refusal
        (give_back_rows payments.now chargeback.now.payment chargeback.now.of chargeback.now.amount))) }
    ensures without_memory { IfSome (first_refusal (give_back_rows payments.now chargeback.now.payment
        chargeback.now.of chargeback.now.amount)) (λ refusal. result ≡ Err (Unprepared.Refused refusal)) }
{
    if is_own_key(chargeback.payment) {
        return Err(Unprepared::Refused(Refusal::BadName));
    }
    payments
        .chargeback(
            alloc,
            chargeback.payment,
            chargeback.of,
            chargeback.amount.units(),
            today,
        )
        .map_err(unprepared)
}

/// What is left to pay of an invoice, if it is there.
#[tactic(auto, using(crate::proofs::Balances::numbered_levelled))]
fn balance_on(invoices: &Invoices, invoice: u32) -> Option<i128>
    requires levelled { All (λ row. pos 0 ≤ℤ balance_of row) invoices.now.rows }
    ensures balance { result ≡ option_map balance_of (numbered invoice invoices.now.rows) }
    ensures due { IfSome result (λ balance. pos 0 ≤ℤ balance) }
{
    invoices.balance(invoice)
}

/// A fault of payments, as it is told of a command.
fn unprepared(fault: PayFault) -> Unprepared
    ensures refused { (fault ≡ PayFault.NoMemory → ⊥) → result ≡ Unprepared.Refused (refusal_of fault) }
    ensures memory { fault ≡ PayFault.NoMemory → result ≡ Unprepared.NoMemory }
{
    match fault {
        PayFault::KeyReused => Unprepared::Refused(Refusal::KeyReused),
        PayFault::NoPayment => Unprepared::Refused(Refusal::NoPayment),
        PayFault::NothingDue => Unprepared::Refused(Refusal::NothingDue),
        PayFault::AttemptOpen => Unprepared::Refused(Refusal::AttemptOpen),
        PayFault::PaymentState => Unprepared::Refused(Refusal::PaymentState),
        PayFault::AmountTooLarge => Unprepared::Refused(Refusal::AmountTooLarge),
        PayFault::NoMemory => Unprepared::NoMemory,
    }
}
