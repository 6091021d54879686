//! Desks: lanes side by side, of which one is asked at its place.
//!
//! The rule kept here: an account's name alone decides its lane, so each command of an account finds the same
//! one, in whatever order and by whomever it is sent. The lane at a place does what it does by itself, and
//! goes on; each other lane stays as it is. Layers above ask several one after another.
#![tactic(auto)]

mod choice;
mod places;
mod stops;
mod tellings;

pub use choice::lane_of;
pub use places::{drain_in, look_up_in, perform_in};
pub use stops::any_stopped;
pub use tellings::{is_full_reply, is_full_step, is_taken_text};
