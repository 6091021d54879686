//! Overdue states: what a shop does with who doesn't pay, as types that can only hold sound rules; and which
//! state an account is in on a day.
//!
//! The rule kept here: the states are listed from the most severe, at most 16 of them, each with a
//! name of its own that isn't CLEAR and with at least one condition. An account is in the first of
//! them whose stated conditions all hold, by what it owes. Layers above ask by `state_on`.
#![tactic(auto)]

mod arrears;
mod config;
mod state;

pub use arrears::{Arrears, state_on};
pub use config::{Config, ConfigFault, ConfigRule, MAX_STATES};
pub use state::{MAX_THRESHOLD, OverdueState, Threshold};
