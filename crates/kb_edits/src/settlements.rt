//! The settlement of an attempt.
ghost use Rattle.std.specs.Prelude.{◌≡◌, None, Some, Err, OnOk, IfOk, IfErr, IfSome};
ghost use Rattle.kb_payment.specs.PaymentSums.{attempt_of, Moves};
ghost use Rattle.kb_payment.specs.PaymentEdits as told;
ghost use Rattle.kb_payment.specs.SoundPayments.{ArePayments};
ghost use Rattle.kb_book.specs.Rows.{first_refusal, IsUnprepared};
ghost use Rattle.kb_book.specs.PaymentRows.{settle_rows};

use kb_book::{Refusal, Unprepared};
use kb_codec::Settle;
use kb_payment::{Attempt, Payments};
use std::alloc::Global;

/// What a settlement makes of payments.
#[derive(Drop)]
pub struct Settled {
    pub payments: Payments,
    /// The attempt, as it stood before.
    pub attempt: Attempt,
    /// By how much what is paid on the attempt's invoice moves, in minor units.
    pub moved: i128,
}

/// The payments with a status of an attempt, and what moves with it. It is refused as `PaymentState` unless
/// the attempt is open and has another status.
pub fn settle(alloc: Global, payments: &Payments, settle: &Settle) -> Result<Settled, Unprepared>
    ensures accepted { OnOk result (first_refusal
        (settle_rows payments.now settle.now.payment settle.now.status) ≡ None) }
    ensures settled { IfOk result (λ done. done.payments
        ≡ told.settled payments.now settle.now.payment settle.now.status) }
    ensures attempt { IfOk result (λ done. attempt_of payments.now settle.now.payment ≡ Some done.attempt) }
    ensures moved { IfOk result (λ done. Moves payments.now done.payments done.attempt.invoice done.moved) }
    ensures sound { IfOk result (λ done. ArePayments payments.now) }
    ensures refused { IfErr result (IsUnprepared (first_refusal
        (settle_rows payments.now settle.now.payment settle.now.status))) }
    ensures without_memory { IfSome (first_refusal (settle_rows payments.now settle.now.payment
        settle.now.status)) (λ refusal. result ≡ Err (Unprepared.Refused refusal)) }
{
    let Some(attempt) = payments.attempt(settle.payment) else {
        return Err(Unprepared::Refused(Refusal::PaymentState));
    };
    if !attempt.status.is_open() || attempt.status == settle.status {
        return Err(Unprepared::Refused(Refusal::PaymentState));
    }
    let (payments, moved) = payments.settle_open(alloc, settle.payment, &attempt, settle.status)?;
    Ok(Settled {
        payments,
        attempt,
        moved,
    })
}
