//! Journals: lists of byte records on a disk.
//!
//! The rule kept here: at each moment a crash leaves bytes that stand for the records so far, or for these
//! and the one whose append has begun and isn't acknowledged. Layers above keep the list that a journal
//! holds (`Holds`), and carry it on by the clauses of `append`.
#![tactic(auto)]

mod block;
mod contents;
mod ending;
mod fault;
mod header;
mod journal;
mod read;
mod records;
mod write;

pub use block::MAX_RECORD;
pub use fault::{AppendFault, CreateFault, LoadFault};
pub use journal::Journal;
pub use records::Records;
