//! Blocking states: what of an account, a bundle or a subscription is blocked on a day.
//!
//! The rule kept here: on each day each scope and service has its last state, and a flag is on for a
//! subscription where such a state of its account, its bundle or itself has it on. Layers above ask for a
//! day, or for the days on which a flag turns.
#![tactic(auto)]

mod blocks;
mod chain;
mod flags;
mod matter;
mod state;
mod stay;
mod stretch;
mod threads;
mod turning;

pub use blocks::{AddFault, Blocks, MAX_STATES};
pub use state::{BlockState, Chain, Flag, Flags, Scope};
