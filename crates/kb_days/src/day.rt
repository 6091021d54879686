//! Numbers of days, each in the range that its type says.
ghost use Rattle.std.specs.Prelude.{◌≡◌, ◌≤◌, ◌↔◌, ℕ, IsSome, IfSome};
ghost use Rattle.kb_days.specs.Calendar.{first_day, last_day, first_reach, last_reach};

use std::marker::Model;

/// 2000-01-01: the first day that a command may name.
pub const FIRST_DAY: u32 = 10_957;

/// 2099-12-31: the last day that a command may name.
pub const LAST_DAY: u32 = 47_481;

/// 2102-01-31: the last day that may be charged, since a period that begins on a `Day` is over by then.
pub const LAST_CHARGED: u32 = 48_242;

/// 2102-02-01: from this day on nothing is ever charged.
pub const END_OF_DAYS: u32 = LAST_CHARGED + 1;

/// 1997-05-19: the first day of `Reach`.
pub const FIRST_REACH: u32 = 10_000;

/// 2104-02-28: the last day of `Reach`.
pub const LAST_REACH: u32 = 49_000;

/// A day that a command may name: a number of days from 1970-01-01, from `FIRST_DAY` to `LAST_DAY`.
#[derive(Clone, Copy, Debug, PartialEq, Eq, Hash, PartialOrd, Ord)]
pub struct Day {
    number: u32,
}

impl Model for Day {
    ghost Value = { ℕ };

    ghost view = { λ day. day.number };

    ghost invariant = { λ day. (first_day ≤ day.number) × (day.number ≤ last_day) };

    ghost inverse = { λ number. record { number = number } };
}

impl Day {
    /// The day with this number; none outside `FIRST_DAY` to `LAST_DAY`.
    pub fn new(number: u32) -> Option<Day>
        ensures accepted { IsSome result ↔ ((first_day ≤ number) × (number ≤ last_day)) }
        ensures value { IfSome result (λ day. day ≡ number) }
    {
        if (FIRST_DAY..=LAST_DAY).contains(&number) {
            Some(Day { number })
        } else {
            None
        }
    }

    /// Days from 1970-01-01.
    pub fn number(self) -> u32
        ensures value { result ≡ self }
        ensures first { first_day ≤ result }
        ensures last { result ≤ last_day }
    {
        self.number
    }

    /// The same day, among those that may follow from it.
    pub fn reach(self) -> Reach
        ensures value { result ≡ self }
        ensures first { first_day ≤ result }
        ensures last { result ≤ last_day }
    {
        Reach {
            number: self.number,
        }
    }
}

/// A day that may follow from a named one, such as the end of a period: a number of days from 1970-01-01,
/// from `FIRST_REACH` to `LAST_REACH`.
#[derive(Clone, Copy, Debug, PartialEq, Eq, PartialOrd)]
pub struct Reach {
    number: u32,
}

impl Model for Reach {
    ghost Value = { ℕ };

    ghost view = { λ day. day.number };

    ghost invariant = { λ day. (first_reach ≤ day.number) × (day.number ≤ last_reach) };

    ghost inverse = { λ number. record { number = number } };
}

impl Reach {
    /// The day with this number; none outside `FIRST_REACH` to `LAST_REACH`.
    pub fn new(number: u32) -> Option<Reach>
        ensures accepted { IsSome result ↔ ((first_reach ≤ number) × (number ≤ last_reach)) }
        ensures value { IfSome result (λ day. day ≡ number) }
    {
        if (FIRST_REACH..=LAST_REACH).contains(&number) {
            Some(Reach { number })
        } else {
            None
        }
    }

    /// The day with this number.
    pub(crate) fn within(number: u32) -> Reach
        requires first { first_reach ≤ number }
        requires last { number ≤ last_reach }
        ensures { result ≡ number }
    {
        Reach { number }
    }

    /// Days from 1970-01-01.
    pub fn number(self) -> u32
        ensures value { result ≡ self }
        ensures first { first_reach ≤ result }
        ensures last { result ≤ last_reach }
    {
        self.number
    }
}

/// A billing cycle day: the number of a day in its month, 1 to 31.
#[derive(Clone, Copy, Debug, PartialEq, Eq)]
pub struct Bcd {
    number: u32,
}

impl Model for Bcd {
    ghost Value = { ℕ };

    ghost view = { λ bcd. bcd.number };

    ghost invariant = { λ bcd. (1 ≤ bcd.number) × (bcd.number ≤ 31) };

    ghost inverse = { λ number. record { number = number } };
}

impl Bcd {
    /// The cycle day with this number; none outside 1 to 31.
    pub fn new(number: u32) -> Option<Bcd>
        ensures accepted { IsSome result ↔ ((1 ≤ number) × (number ≤ 31)) }
        ensures value { IfSome result (λ bcd. bcd ≡ number) }
    {
        if (1..=31).contains(&number) {
            Some(Bcd { number })
        } else {
            None
        }
    }

    /// The cycle day with this number.
    pub(crate) fn within(number: u32) -> Bcd
        requires first { 1 ≤ number }
        requires last { number ≤ 31 }
        ensures { result ≡ number }
    {
        Bcd { number }
    }

    /// The number of the day in its month.
    pub fn number(self) -> u32
        ensures value { result ≡ self }
        ensures first { 1 ≤ result }
        ensures last { result ≤ 31 }
    {
        self.number
    }
}
