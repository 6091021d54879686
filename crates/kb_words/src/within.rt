//! Numbers in a range.
ghost use Rattle.std.specs.Prelude.{◌≡◌, ◌≤◌, ◌↔◌, IsSome, IfSome};

use std::fmt;
use std::marker::Model;

/// A number from `LEAST` to `MOST`.
#[derive(Clone, Copy)]
pub struct Within<const LEAST: u32, const MOST: u32> {
    number: u32,
}

impl<const LEAST: u32, const MOST: u32> Model for Within<LEAST, MOST> {
    ghost use Rattle.std.specs.Prelude.{ℕ, ◌≤◌};

    ghost Value = { ℕ };

    ghost view = { λ within. within.number };

    ghost invariant = { λ within. (LEAST ≤ within.number) × (within.number ≤ MOST) };

    ghost inverse = { λ number. record { number = number } };
}

impl<const LEAST: u32, const MOST: u32> Within<LEAST, MOST> {
    /// The number, if it is in the range.
    pub fn new(number: u32) -> Option<Within<LEAST, MOST>>
        ensures accepted { IsSome result ↔ ((LEAST ≤ number) × (number ≤ MOST)) }
        ensures value { IfSome result (λ within. within ≡ number) }
    {
        if LEAST <= number && number <= MOST {
            Some(Within { number })
        } else {
            None
        }
    }

    /// The number.
    pub fn get(self) -> u32
        ensures value { result ≡ self.entry }
        ensures least { LEAST ≤ result }
        ensures most { result ≤ MOST }
    {
        self.number
    }
}

impl<const LEAST: u32, const MOST: u32> fmt::Debug for Within<LEAST, MOST> {
    fn fmt<W: fmt::Write>(&self, f: &mut fmt::Formatter<W>) -> fmt::Result {
        fmt::Debug::fmt(&self.number, f)
    }
}
