//! Lines of JSON: requests read, and answers said.
//!
//! The rule kept here: a line is read as exactly the request that its JSON says, or refused by the first of
//! its faults, by one table of the kinds of requests, the members of each kind and what each member's value
//! is. Each thing that can be said has one text, on one line and without blanks, whose members stand in the
//! order of the format. What tells of something that may have been written down is said as it is, or not to
//! its end; in place of anything else it may be said that memory ran out. Layers above hand on what is asked,
//! and tell what came of a line by `tell`.
#![tactic(auto)]

mod answer;
mod asked;
mod commands;
mod draft;
mod fault;
mod field;
mod found;
mod kind;
mod line;
mod member;
mod object;
mod queries;
mod reading;
mod refusal;
mod reply;
mod request;
mod said;
mod said_words;
mod values;
mod view;
mod words;
mod wrong;

pub use answer::{MEMORY_TEXT, answer_text};
pub use fault::{JsonFault, RequestFault};
pub use line::tell;
pub use reading::read_request;
pub use request::{Request, What};
pub use said::Said;
pub use said_words::state_word;
