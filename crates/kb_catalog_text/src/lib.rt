//! The texts in which a shop hands in its catalog and its overdue rules, in TOML, and one shop's texts as an
//! example.
//!
//! The rule kept here: a text is read by its tables' keys in order, as exactly the value that it says, or
//! refused by the first fault in that order, by name: a key is missing, of another kind or out of range, or
//! not known in its table. The text is kept beside the value, unchanged. Layers above take texts in by `read`
//! and `read_overdue`, and make accounts to try the platform on by the shop's texts.
#![tactic(auto)]

mod cases;
mod condition;
mod entries;
mod fault;
mod format;
mod from_value;
mod key_fault;
mod keys;
mod kinds;
mod list;
mod overdue;
mod phase;
mod plan;
mod prices;
mod product;
mod reading;
mod rules;
mod shop;
mod span_unit;
mod state;
mod version;
mod words;

pub use fault::TextFault;
pub use reading::{Checked, CheckedOverdue, MAX_BYTES, read, read_overdue};
pub use shop::{OVERDUE, SHOP};
