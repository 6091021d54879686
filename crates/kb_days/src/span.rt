//! How long something lasts.
ghost use Rattle.std.specs.Prelude.{◌≡◌, ◌≤◌, ◌↔◌, ℕ, IsSome, IfSome};

use std::marker::Model;

/// How many days, weeks, months or years a span has: 1 to 1200.
#[derive(Clone, Copy, Debug, PartialEq, Eq, PartialOrd)]
pub struct Count {
    number: u32,
}

impl Model for Count {
    ghost Value = { ℕ };

    ghost view = { λ count. count.number };

    ghost invariant = { λ count. (1 ≤ count.number) × (count.number ≤ 1200) };

    ghost inverse = { λ number. record { number = number } };
}

impl Count {
    /// The count with this number; none outside 1 to 1200.
    pub fn new(number: u32) -> Option<Count>
        ensures accepted { IsSome result ↔ ((1 ≤ number) × (number ≤ 1200)) }
        ensures value { IfSome result (λ count. count ≡ number) }
    {
        if (1..=1200).contains(&number) {
            Some(Count { number })
        } else {
            None
        }
    }

    /// The number that is counted to.
    pub fn number(self) -> u32
        ensures value { result ≡ self }
        ensures first { 1 ≤ result }
        ensures last { result ≤ 1200 }
    {
        self.number
    }
}

/// How long something lasts, such as a phase of a plan.
#[derive(Clone, Copy, Debug, PartialEq, Eq, PartialOrd)]
pub enum Span {
    Days(Count),
    Weeks(Count),
    Months(Count),
    Years(Count),
    /// It has no end.
    Unlimited,
}
