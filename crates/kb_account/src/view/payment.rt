//! A payment as it is shown.
ghost use Rattle.std.specs.Prelude.{◌≡◌};
ghost use Rattle.kb_account.specs.Views.{attempt_view, payment_view};
ghost use Rattle.kb_account.specs.Private.States.{value_of};

use crate::state::State;
use kb_book::PaymentView;
use kb_days::Name;
use kb_payment::Attempt;

impl State {
    /// The payment of a key, if it is there.
    pub fn payment_view(&self, payment: Name) -> Option<PaymentView>
        ensures { result ≡ payment_view (value_of self.now) payment }
    {
        match self.payments.attempt(payment) {
            None => None,
            Some(attempt) => Some(attempt_view(payment, &attempt)),
        }
    }
}

/// An attempt as it is shown.
fn attempt_view(payment: Name, attempt: &Attempt) -> PaymentView
    ensures { result ≡ attempt_view payment attempt.now }
{
    PaymentView {
        payment,
        kind: attempt.kind,
        invoice: attempt.invoice,
        amount: attempt.amount,
        status: attempt.status,
    }
}
