//! When phases start, and in which billing period a day lies.
//!
//! The rule kept here: phases follow one another from an anchor on, step by step, and billing periods lie
//! between boundaries that no pause and no step of the code shifts. Layers above ask for the phase and the
//! period of a day.
#![tactic(auto)]

mod periods;
mod phases;

pub use periods::period_of;
pub use phases::{PhaseAt, begun_phase, next_start, phase_at, phase_starts};
