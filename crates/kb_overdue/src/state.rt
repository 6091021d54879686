//! One overdue state.
ghost use Rattle.std.specs.Prelude.{◌≡◌, ◌≤◌, ◌↔◌, ℕ, IsSome, IfSome};
ghost use Rattle.kb_overdue.specs.Thresholds.{max_threshold};

use kb_days::Name;
use std::marker::Model;

/// The most days, invoices or minor units that a condition wants.
pub const MAX_THRESHOLD: u64 = 1_000_000_000_000;

/// The number that a condition wants at least: 1 to `MAX_THRESHOLD` days, invoices or minor units.
#[derive(Clone, Copy, Debug, PartialEq, Eq)]
pub struct Threshold {
    number: u64,
}

impl Model for Threshold {
    ghost Value = { ℕ };

    ghost view = { λ threshold. threshold.number };

    ghost invariant = { λ threshold. (1 ≤ threshold.number) × (threshold.number ≤ max_threshold) };

    ghost inverse = { λ number. record { number = number } };
}

impl Threshold {
    /// The threshold with this number; none outside 1 to `MAX_THRESHOLD`.
    pub fn new(number: u64) -> Option<Threshold>
        ensures accepted { IsSome result ↔ ((1 ≤ number) × (number ≤ max_threshold)) }
        ensures value { IfSome result (λ threshold. threshold ≡ number) }
    {
        if (1..=MAX_THRESHOLD).contains(&number) {
            Some(Threshold { number })
        } else {
            None
        }
    }

    /// The number.
    pub fn number(self) -> u64
        ensures value { result ≡ self }
        ensures first { 1 ≤ result }
        ensures last { result ≤ max_threshold }
    {
        self.number
    }
}

/// A state of an account that doesn't pay. It is taken if each condition that is stated holds, and blocks
/// what its flags say.
#[derive(Clone, Copy, Debug, PartialEq, Eq)]
pub struct OverdueState {
    pub name: Name,
    /// At least so many days since the day of the earliest unpaid invoice.
    pub days: Option<Threshold>,
    /// At least so many unpaid invoices.
    pub count: Option<Threshold>,
    /// At least so many minor units unpaid.
    pub total: Option<Threshold>,
    pub block_change: bool,
    pub block_entitlement: bool,
    pub block_billing: bool,
}
