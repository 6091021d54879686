//! Billing pieces: the due cells of all days at once, by intervals.
//!
//! The rule kept here: nothing that a day is charged by changes but on an event, and on the boundaries of
//! billing periods; so the days between are charged alike, and are never visited one by one. Layers above
//! take the pieces of a subscription.
#![tactic(auto)]

mod charged;
mod charges;
mod course;
mod cutting;
mod due_pieces;
mod ending;
mod fee_pieces;
mod living;
mod periods;
mod pushing;
mod standing;

pub use charged::charged_through;
pub use charges::fees_and_pieces;
pub use due_pieces::pieces;
pub use fee_pieces::fees;
