//! What every other crate speaks of and no shop has a word for: want of memory, failures and counts of
//! faults, lists of records, bytes that are written one behind another, histories; and, for contracts alone,
//! longest runs of days, pieces of bytes, and machines over lines.
//!
//! The rule kept here: each of these is defined once, with its laws, and knows nothing of billing. The layers
//! above hand in a key over days or a machine over lines or requests, and cite the laws.
#![tactic(auto)]

mod fault;
mod faults;
mod history;
mod past;
mod pushes;
mod seq;
mod sharing;

pub use fault::{Failed, NoMemory};
pub use faults::FaultCount;
pub use history::History;
pub use pushes::{push, push_count, push_sum};
pub use seq::Seq;
pub use sharing::shared;
