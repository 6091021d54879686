//! What is kept beside the attempts.
ghost use Rattle.std.specs.Prelude.{◌≡◌, ℕ, pos, if◌then◌else◌};
ghost use Rattle.kb_payment.specs.PaymentSums.{taken_of, open_purchases, has_automatic_since};
ghost use Rattle.kb_payment.specs.SoundPayments.{ArePayments};
ghost use Rattle.kb_payment.specs.Private.KeptSums.{is_since};

use super::Payments;
use crate::on_invoice::OnInvoice;
use kb_days::Name;

impl Payments {
    /// What is given back of the purchase of a key, or may yet be, in minor units.
    #[tactic(auto, using(crate::proofs::MapEntries::found_entry))]
    pub(super) fn taken_of(&self, key: Name) -> u64
        ensures taken { pos result ≡ taken_of self.now key }
        ensures sound { ArePayments self.now }
    {
        match self.taken.get(&key) {
            Some(taken) => *taken,
            None => 0,
        }
    }

    /// What is kept of the purchases on the invoice of a number.
    #[tactic(auto, using(crate::proofs::MapEntries::found_entry))]
    pub(super) fn on_invoice(&self, invoice: u32) -> OnInvoice
        ensures opens { (if result.has_open then pos 1 else pos 0) ≡ open_purchases self.now invoice }
        ensures automatic { (day : ℕ) → is_since result.automatic day
            ≡ has_automatic_since self.now invoice day }
    {
        match self.invoices.get(&invoice) {
            Some(kept) => *kept,
            None => OnInvoice {
                has_open: false,
                automatic: None,
            },
        }
    }
}
