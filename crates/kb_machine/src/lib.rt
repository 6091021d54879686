//! The machine: the texts of a shop and the books of its accounts, and what a command makes of them.
//!
//! The rule kept here: a command gets the reply that the definitions give, and only a new one changes
//! anything: a text adds to what accounts are looked at by, any other command changes the book of its own
//! account alone. `prepare` changes nothing, and what it gives is taken in without memory, but for the room
//! of a new account: so a layer above can write a command down before it is taken in.
#![tactic(auto)]

mod account;
mod books;
mod change;
mod due_book;
mod kept_text;
mod machine;
mod texts;

pub use account::account_of;
pub use change::{Change, Opened, Planned};
pub use due_book::DueBook;
pub use machine::Machine;
