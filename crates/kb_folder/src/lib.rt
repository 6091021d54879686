//! A shop's folder: its lanes founded, opened from a vault, and given back to it.
//!
//! The rule kept here: when a folder is founded, both texts are read before a lane is touched, and each lane
//! gets, in order, a journal of its own in which the same two commands stand; a lane that isn't empty is left
//! as it is, and ends the run. When it is opened, the header of lane 0 tells how many lanes there are, and
//! each of them is opened, in the order of their numbers, or none is. What can't be opened is left with the
//! bytes that it had, the fault tells why, and no lane stays out. Layers above run over lanes that are open,
//! and give all of them back.
#![tactic(auto)]

mod among;
mod founding;
mod lanes;
mod lanes_returning;
mod loading;
mod opening;
mod returning;
mod texts;
mod unfounded;
mod unopened;
mod writing;

pub use founding::found_lanes;
pub use lanes_returning::put_back;
pub use opening::open_lanes;
pub use unfounded::Unfounded;
pub use unopened::Unopened;
