//! Amounts that a command names.
ghost use Rattle.std.specs.Prelude.{◌≡◌, ◌≤◌, ◌↔◌, ℕ, IsSome, IfSome};
ghost use Rattle.kb_codec.specs.declared.amount.TheConstants.{MAX_AMOUNT};

use std::marker::Model;

/// The greatest amount, in minor units.
pub const MAX_AMOUNT: u64 = 1_000_000_000_000;

/// An amount in minor units, such as cents: 1 to 10^12.
#[derive(Clone, Copy)]
pub struct Amount {
    units: u64,
}

impl Model for Amount {
    ghost Value = { ℕ };

    ghost view = { λ amount. amount.units };

    ghost invariant = { λ amount. (1 ≤ amount.units) × (amount.units ≤ MAX_AMOUNT) };

    ghost inverse = { λ units. record { units = units } };
}

impl Amount {
    /// The amount of so many minor units; none outside 1 to 10^12.
    pub fn new(units: u64) -> Option<Amount>
        ensures accepted { IsSome result ↔ ((1 ≤ units) × (units ≤ MAX_AMOUNT)) }
        ensures value { IfSome result (λ amount. amount ≡ units) }
    {
        if (1..=MAX_AMOUNT).contains(&units) {
            Some(Amount { units })
        } else {
            None
        }
    }

    /// Minor units.
    pub fn units(self) -> u64
        ensures value { result ≡ self }
        ensures least { 1 ≤ result }
        ensures most { result ≤ MAX_AMOUNT }
    {
        self.units
    }
}
