//! Why an edit of payments is refused.
ghost use Rattle.std.specs.Prelude.{◌≡◌};

use kb_base::NoMemory;
use thiserror::Error;

/// Why an edit of payments is refused. Each call says which of these it gives, and in which order it looks
/// for them. A refusal leaves the payments as they are.
#[derive(Clone, Copy, Debug, PartialEq, Eq, Error)]
pub enum PayFault {
    /// The payment key has an attempt.
    #[error("the payment key has an attempt already: choose another key")]
    KeyReused,
    /// The payment named isn't there.
    #[error("there is no payment of this key")]
    NoPayment,
    /// The invoice has a balance of 0.
    #[error("nothing is due on the invoice")]
    NothingDue,
    /// The invoice has an open purchase.
    #[error("a payment on the invoice is under way: wait until it is settled")]
    AttemptOpen,
    /// The payment named isn't a successful purchase, or isn't open where it is to be settled.
    #[error("the payment isn't in a state that allows this")]
    PaymentState,
    /// It is more than is unpaid, than one payment may be, or than is left of the purchase.
    #[error("the amount is more than is unpaid, or than is left of the payment")]
    AmountTooLarge,
    /// Memory ran out.
    #[error("out of memory")]
    NoMemory,
}

impl From<NoMemory> for PayFault {
    ghost use Rattle.kb_payment.specs.declared.fault.PayFault.TheVariants.{NoMemory};

    ghost from_gives = { λ _ fault. fault ≡ NoMemory };

    fn from(_: NoMemory) -> PayFault {
        PayFault::NoMemory
    }
}
