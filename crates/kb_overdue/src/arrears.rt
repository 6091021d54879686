//! What an account owes, and the overdue state that this puts it into.
ghost use Rattle.std.specs.Prelude.{◌≡◌, ◌≤◌, ◌<◌, ◌↔◌, ℕ, length, slice_get, Some, None, IsSome, IfSome};
ghost use Rattle.std.specs.Prelude.{Any};
ghost use Rattle.kb_overdue.specs.declared.state.OverdueState.{OverdueState};
ghost use Rattle.kb_overdue.specs.ConfigRules.{max_states};
ghost use Rattle.kb_overdue.specs.OverdueDays.{is_met, days_since, is_reached, is_reached_at, first_reached};
ghost use Rattle.kb_overdue.specs.OverdueDays.{state_on, Holds};

use crate::config::Config;
use crate::state::{OverdueState, Threshold};
use kb_days::Day;

/// What an account owes, as its invoices say on some day.
#[derive(Clone, Copy)]
pub struct Arrears {
    /// The day of the earliest unpaid invoice; none if nothing is unpaid.
    pub earliest: Option<Day>,
    /// How many invoices are unpaid: their balance is above 0.
    pub count: u32,
    /// The sum of the unpaid balances, in minor units.
    pub total: i128,
}

/// The place, from 0, of the state of a day: the most severe one whose stated conditions all hold. None is
/// CLEAR. It takes no memory.
pub fn state_on(config: &Config, arrears: &Arrears, day: Day) -> Option<u32>
    ensures state { result ≡ state_on config.now arrears.now day }
    ensures clear { arrears.now.earliest ≡ None → result ≡ None }
    ensures there { IfSome result (λ place. place < length config.now) }
    ensures holds { (place : ℕ) (state : OverdueState) → result ≡ Some place
        → slice_get config.now place ≡ Some state → Holds arrears.now day state }
    ensures severest { (taken place : ℕ) (state : OverdueState) → result ≡ Some taken
        → slice_get config.now place ≡ Some state → Holds arrears.now day state → taken ≤ place }
    ensures overdue { IsSome result ↔ Any (λ state. Holds arrears.now day state) config.now }
{
    place_on(config.states(), arrears, day)
}

/// The place of the state of a day.
#[tactic(auto, unfolding(crate::specs::OverdueDays::state_on))]
fn place_on(states: &[OverdueState], arrears: &Arrears, day: Day) -> Option<u32>
    requires few { length states.now ≤ max_states }
    ensures { result ≡ state_on states.now arrears.now day }
{
    let earliest = arrears.earliest?;
    first_reached(days_since(earliest, day), arrears, states)
}

/// How many days have passed since a day: less than 0 before it.
fn days_since(earliest: Day, day: Day) -> i128
    ensures { result ≡ days_since earliest day }
{
    i128::from(day.number()) - i128::from(earliest.number())
}

/// The place of the first state that is reached.
#[tactic(auto, using(kb_base::proofs::FirstPlaces::places))]
fn first_reached(days: i128, arrears: &Arrears, states: &[OverdueState]) -> Option<u32>
    requires few { length states.now ≤ max_states }
    ensures { result ≡ first_reached days arrears.now states.now }
{
    for place in 0..states.len() {
        if is_reached_at(days, arrears, states, place) {
            return Some(place as u32);
        }
    }
    None
}

/// Whether the state at a place is reached.
#[tactic(auto, unfolding(crate::specs::OverdueDays::is_reached_at))]
fn is_reached_at(days: i128, arrears: &Arrears, states: &[OverdueState], place: usize) -> bool
    requires { place < length states.now }
    ensures { result ≡ is_reached_at days arrears.now states.now place }
{
    is_reached(days, arrears, &states[place])
}

/// Whether each condition of a state that is stated holds.
fn is_reached(days: i128, arrears: &Arrears, state: &OverdueState) -> bool
    ensures { result ≡ is_reached days arrears.now state.now }
{
    is_met(state.days, days)
        && is_met(state.count, i128::from(arrears.count))
        && is_met(state.total, arrears.total)
}

/// Whether a condition is not stated, or holds for a value: it is at least the number.
fn is_met(condition: Option<Threshold>, value: i128) -> bool
    ensures { result ≡ is_met condition value }
{
    match condition {
        None => true,
        Some(least) => i128::from(least.number()) <= value,
    }
}
