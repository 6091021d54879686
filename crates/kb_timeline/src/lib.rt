//! Timelines: the subscriptions of an account, each with its start, its changes and its cancellation.
//!
//! The rule kept here: the past may be edited. A change on a day takes the place of all changes dated on or
//! after it, a cancellation keeps what is dated behind it, and the start is never removed. Each bundle has a
//! lead, its first subscription. Layers above ask which entry governs a day, and hand in edits, each of which
//! gives a new timeline and leaves the old one.
#![tactic(auto)]

mod edit_fault;
mod entries;
mod entry;
mod places;
mod sharing;
mod subscription;
mod threads;
mod timeline;

pub use edit_fault::{EditFault, Limit};
pub use entries::{Entries, MAX_ENTRIES};
pub use entry::{Entry, PlanRef};
pub use subscription::Subscription;
pub use timeline::{MAX_SUBSCRIPTIONS, Timeline};
