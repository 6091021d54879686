//! The outside, as traits: where bytes come from and where they go, connections and the door where they come
//! in, and the day on which a program runs.
//!
//! The rule kept here: a call fails only where its object's count of faults rose, one that succeeds leaves
//! the count as it was, and a failed call moves no byte. The counts are ghost, so a body that is generic over
//! the traits can't raise one by itself. A link counts the faults of its two directions apart, and a clock
//! always gives a day that a command may name. Layers above are proved against the traits alone, and write by
//! `write_all` and `send_bytes`; the objects in memory serve their tests.
#![tactic(auto)]

mod bytes_sink;
mod bytes_source;
mod calls;
mod clock;
mod door;
mod fixed_clock;
mod link;
mod link_sips;
mod link_writing;
mod list_door;
mod named_day;
mod pair_link;
mod sink;
mod sips;
mod source;
mod writing;

pub use bytes_sink::BytesSink;
pub use bytes_source::BytesSource;
pub use calls::Calls;
pub use clock::Clock;
pub use door::Door;
pub use fixed_clock::FixedClock;
pub use kb_base::{Failed, NoMemory};
pub use link::Link;
pub use link_writing::send_bytes;
pub use list_door::ListDoor;
pub use named_day::day_or_today;
pub use pair_link::PairLink;
pub use sink::Sink;
pub use sips::Sips;
pub use source::Source;
pub use writing::write_all;
