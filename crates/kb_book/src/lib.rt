//! An account's book, and what a command makes of it, by definition: the step, its answers, and what always
//! holds.
//!
//! The rule kept here: a command is refused by the first of its refusals, in their order, and leaves the book
//! as it was; or it is accepted, and the new book and its answer follow from the account's own commands and
//! the texts of the world alone. After each accepted command every day of every subscription has exactly its
//! due charge or none, the invoices total what these days cost, credit is by how much payments exceed that,
//! items are only added, and a command that comes again acts no more. Layers above are measured against these
//! definitions, and hold no rule of their own.
#![tactic(auto)]

mod answer;
mod query;
mod refusal;
mod reply;
mod step;
mod unprepared;
mod views;
mod wish;

pub use answer::Answer;
pub use query::Query;
pub use refusal::Refusal;
pub use reply::LaneReply;
pub use step::Step;
pub use unprepared::Unprepared;
pub use views::{AccountView, InvoiceView, ItemView, PaymentView, SubscriptionView, View};
pub use wish::{Wish, asked_day};
