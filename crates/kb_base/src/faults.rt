//! Counts of faults.
ghost use Rattle.std.specs.Prelude.{◌≡◌, ◌≤◌, ◌<◌, ℕ};
ghost use Rattle.kb_base.specs.Faults.{next_count, add_counts, Rose};

use crate::fault::Failed;
use std::marker::Model;

/// How many calls of an object have failed: a u64, which never falls and stands still at its last value.
#[derive(Clone, Copy, Debug, PartialEq, Eq)]
pub struct FaultCount {
    count: u64,
}

impl Model for FaultCount {
    ghost use Rattle.std.specs.Prelude.{ℕ};

    ghost Value = { ℕ };

    ghost view = { λ faults. faults.count };

    ghost inverse = { λ count. record { count = count } };
}

impl FaultCount {
    /// No call has failed.
    pub fn new() -> FaultCount
        ensures { result ≡ 0 }
    {
        FaultCount { count: 0 }
    }

    /// Counts a call that failed.
    pub fn fail(&mut self) -> Failed
        ensures counted { self.new ≡ next_count self.old }
        ensures rose { Rose self.old self.new }
        ensures rising { self.old ≤ self.new }
    {
        self.count = self.count.saturating_add(1);
        Failed
    }

    /// Counts the failed calls of another object too, such as those of a disk that is given back.
    pub fn add(&mut self, other: FaultCount)
        ensures counted { self.new ≡ add_counts self.old other }
        ensures rose { 0 < other → Rose self.old self.new }
        ensures rising { self.old ≤ self.new }
        ensures calm { other ≡ 0 → self.new ≡ self.old }
    {
        self.count = self.count.saturating_add(other.count);
    }

    /// How many calls have failed.
    pub fn number(self) -> u64
        ensures { result ≡ self }
    {
        self.count
    }
}
