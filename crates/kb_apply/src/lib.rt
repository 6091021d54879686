//! Lanes that answer lines.
//!
//! The rule kept here: each line of JSON is answered by one line, and what it asks for is done before the
//! next is read. A command goes to the lane of its account, a text to all lanes; then what the line left to
//! do is done too. A line that is no request, or is refused, is answered and changes nothing. Layers above
//! make the lanes and end the run.
#![tactic(auto)]

mod addressed;
mod answer;
mod apply;
mod determined;
mod drains;
mod lanes;
mod look_ups;
mod texts;

pub use apply::apply_lanes;
pub use determined::runs_are_determined;
pub use lanes::Lanes;
