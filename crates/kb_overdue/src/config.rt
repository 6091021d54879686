//! The overdue states of a shop.
ghost use Rattle.std.specs.Prelude.{◌≡◌, ◌<◌, ◌≤◌, ◌↔◌, length, Err, Some, IsOk, IfOk};
ghost use Rattle.std.specs.List.{list_any};
ghost use Rattle.kb_overdue.specs.declared.config.ConfigFault.{ConfigFault};
ghost use Rattle.kb_overdue.specs.declared.config.ConfigRule.TheVariants.{Names, Conditions};
ghost use Rattle.kb_overdue.specs.ConfigRules.{max_states, has_name_of, is_unconditional, is_broken_at};
ghost use Rattle.kb_overdue.specs.ConfigRules.{first_offender, fault_of, rule_number, AreStates};

use crate::state::OverdueState;
use kb_base::Seq;
use std::marker::Model;
use thiserror::Error;

/// The most states that there may be.
pub const MAX_STATES: usize = 16;

/// A rule that overdue states have to keep, with what is told where it is broken. They are tried in this
/// order.
#[derive(Clone, Copy, Debug, Error)]
pub enum ConfigRule {
    /// 1: there are at most `MAX_STATES` states.
    #[error("there are more than {} states: take some out", MAX_STATES)]
    Count,
    /// 2: no two states have one name, and none is named CLEAR.
    #[error("a state has the name of an earlier one, or is named CLEAR: give it another name")]
    Names,
    /// 3: each state has a condition.
    #[error("a state has no condition: state its days, its count or its total")]
    Conditions,
}

/// The first rule that some states break, and the place, from 0, of the first offender: that behind the last
/// one that there may be for too many.
#[derive(Clone, Copy, Debug, Error)]
#[error("rule {}, at place {index} from 0: {rule}", .rule.number())]
pub struct ConfigFault {
    pub rule: ConfigRule,
    pub index: u32,
}

/// The overdue states of a shop, from the most severe, with the three rules kept.
#[derive(Debug, Drop)]
pub struct Config {
    states: Seq<OverdueState>,
}

impl Model for Config {
    ghost use Rattle.std.specs.Prelude.{List};
    ghost use Rattle.kb_overdue.specs.declared.state.OverdueState.{OverdueState};
    ghost use Rattle.kb_overdue.specs.ConfigRules.{AreStates};

    ghost Value = { List OverdueState };

    ghost view = { λ config. config.states };

    ghost invariant = { λ config. AreStates config.states };
}

impl ConfigRule {
    /// The number by which the rule is told: 1 to 3.
    pub fn number(self) -> u32
        ensures { result ≡ rule_number self }
    {
        match self {
            ConfigRule::Count => 1,
            ConfigRule::Names => 2,
            ConfigRule::Conditions => 3,
        }
    }
}

impl Config {
    /// These states, if they keep the three rules; else the first rule that they break, and its
    /// first offender. It takes no memory.
    pub fn check(states: Vec<OverdueState>) -> Result<Config, ConfigFault>
        ensures valid { IsOk result ↔ AreStates states.items }
        ensures same { IfOk result (λ config. config ≡ states.items) }
        ensures fault { (fault : ConfigFault)
            → ((result ≡ Err fault) ↔ (fault_of states.items ≡ Some fault)) }
    {
        match fault_of(&states) {
            Some(fault) => Err(fault),
            None => Ok(Config {
                states: Seq::from_vec(states),
            }),
        }
    }

    /// The states, from the most severe.
    #[tactic(auto, using(crate::proofs::KeptRules::few_states))]
    pub fn states(&self) -> &[OverdueState]
        ensures same { result.now ≡ self.now }
        ensures valid { AreStates result.now }
        ensures few { length result.now ≤ max_states }
    {
        self.states.as_slice()
    }
}

/// The fault of some states.
#[tactic(auto, using(crate::proofs::ToldFaults::told))]
fn fault_of(states: &[OverdueState]) -> Option<ConfigFault>
    ensures { result ≡ fault_of states.now }
{
    if states.len() > MAX_STATES {
        return Some(ConfigFault {
            rule: ConfigRule::Count,
            index: MAX_STATES as u32,
        });
    }
    if let Some(index) = first_badly_named(states) {
        return Some(ConfigFault {
            rule: ConfigRule::Names,
            index,
        });
    }
    if let Some(index) = first_unconditional(states) {
        return Some(ConfigFault {
            rule: ConfigRule::Conditions,
            index,
        });
    }
    None
}

/// The place of the first state whose name stands earlier or is CLEAR.
#[tactic(auto, using(kb_base::proofs::FirstPlaces::places))]
fn first_badly_named(states: &[OverdueState]) -> Option<u32>
    requires few { length states.now ≤ max_states }
    ensures { result ≡ first_offender states.now Names }
{
    for place in 0..states.len() {
        if is_badly_named(states, place) {
            return Some(place as u32);
        }
    }
    None
}

/// The place of the first state without a condition.
#[tactic(auto, using(kb_base::proofs::FirstPlaces::places))]
fn first_unconditional(states: &[OverdueState]) -> Option<u32>
    requires few { length states.now ≤ max_states }
    ensures { result ≡ first_offender states.now Conditions }
{
    for place in 0..states.len() {
        if is_unconditional_at(states, place) {
            return Some(place as u32);
        }
    }
    None
}

/// Whether the name of the state at a place stands earlier or is CLEAR.
#[tactic(auto, unfolding(crate::specs::ConfigRules::is_broken_at))]
fn is_badly_named(states: &[OverdueState], place: usize) -> bool
    requires { place < length states.now }
    ensures { result ≡ is_broken_at states.now Names place }
{
    let state = &states[place];
    has_name_among(state, &states[..place]) || state.name.as_str() == "CLEAR"
}

/// Whether one of some states has the name of this one.
fn has_name_among(state: &OverdueState, states: &[OverdueState]) -> bool
    ensures { result ≡ list_any (has_name_of state.now) states.now }
{
    for other in states {
        if state.name == other.name {
            return true;
        }
    }
    false
}

/// Whether the state at a place has no condition.
#[tactic(auto, unfolding(crate::specs::ConfigRules::is_broken_at))]
fn is_unconditional_at(states: &[OverdueState], place: usize) -> bool
    requires { place < length states.now }
    ensures { result ≡ is_broken_at states.now Conditions place }
{
    is_unconditional(&states[place])
}

/// Whether a state has none of the three conditions.
fn is_unconditional(state: &OverdueState) -> bool
    ensures { result ≡ is_unconditional state.now }
{
    state.days.is_none() && state.count.is_none() && state.total.is_none()
}
