//! Numbers of invoices.
ghost use Rattle.std.specs.Prelude.{◌≡◌, ◌≤◌, ◌<◌, ◌^◌, ◌↔◌, ℕ, IsSome, IfSome};

use std::marker::Model;

/// The number of an invoice in its account: 1 to 4294967295.
#[derive(Clone, Copy)]
pub struct InvoiceNo {
    number: u32,
}

impl Model for InvoiceNo {
    ghost Value = { ℕ };

    ghost view = { λ invoice. invoice.number };

    ghost invariant = { λ invoice. (1 ≤ invoice.number) × (invoice.number < 2 ^ 32) };

    ghost inverse = { λ number. record { number = number } };
}

impl InvoiceNo {
    /// The invoice with this number; none for 0.
    pub fn new(number: u32) -> Option<InvoiceNo>
        ensures accepted { IsSome result ↔ (1 ≤ number) }
        ensures value { IfSome result (λ invoice. invoice ≡ number) }
    {
        if number == 0 {
            None
        } else {
            Some(InvoiceNo { number })
        }
    }

    /// Counted from 1.
    pub fn number(self) -> u32
        ensures value { result ≡ self }
        ensures first { 1 ≤ result }
    {
        self.number
    }
}
