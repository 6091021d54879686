//! A lane: accounts on a journal.
//!
//! The rule kept here: a lane's accounts and texts are what the history in its journal leads to. A command is
//! refused, or gets its kept reply, and touches no disk; or it is written down first and taken in after, and
//! its reply is the machine's. All memory is taken before the disk is written to. What a command leaves to do
//! stands in an outbox, whose entries are handled one at a time up to its end; a payment is asked for once,
//! and settled by exactly what its gateway answered, or tells of it when it is looked up. To bill a lane is
//! to give each of its accounts its bill of a day, by name, and to handle after each what that leaves to do.
//! Layers above hand lanes on under a lock, and add no rule of their own.
#![tactic(auto)]

mod accept;
mod bill_work;
mod bills;
mod drain_bounds;
mod draining;
mod drains;
mod janitor;
mod lane;
mod load;
mod log;
mod order;
mod outbox;
mod payload;
mod queries;
mod replayed;
mod settlement;
mod tally;
mod work;
mod written;

pub use bill_work::lane_work_is_bounded;
pub use bills::bill;
pub use drain_bounds::drains_are_bounded;
pub use drains::drain;
pub use lane::Lane;
pub use payload::payload_of;
pub use queries::account_asked;
pub use tally::Tally;
