//! Prices.
ghost use Rattle.std.specs.Prelude.{◌≡◌, ◌≤◌, ◌↔◌, ℕ, IsSome, IfSome};
ghost use Rattle.kb_money.specs.declared.minor.TheConstants.{MAX_MINOR};

use std::marker::Model;

/// The greatest price, in minor units.
pub const MAX_MINOR: u64 = 1_000_000_000;

/// A price in minor units, such as cents: 0 to 10^9.
#[derive(Clone, Copy, Debug, PartialEq, Eq)]
pub struct Minor {
    units: u64,
}

impl Model for Minor {
    ghost Value = { ℕ };

    ghost view = { λ price. price.units };

    ghost invariant = { λ price. price.units ≤ MAX_MINOR };

    ghost inverse = { λ units. record { units = units } };
}

impl Minor {
    /// The price of so many minor units; none above 10^9.
    pub fn new(units: u64) -> Option<Minor>
        ensures accepted { IsSome result ↔ (units ≤ MAX_MINOR) }
        ensures value { IfSome result (λ price. price ≡ units) }
    {
        if units <= MAX_MINOR {
            Some(Minor { units })
        } else {
            None
        }
    }

    /// Minor units.
    pub fn units(self) -> u64
        ensures value { result ≡ self }
        ensures bound { result ≤ MAX_MINOR }
    {
        self.units
    }
}
