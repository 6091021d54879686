//! An account: its book, and what a command makes of it.
//!
//! The rule kept here: a command is refused by the first of its refusals and changes nothing; or its answer
//! was kept, and is given again; or the next book and its answer are exactly what the definitions of
//! `kb_book` make of the book, the world's texts and the day. What a book has is shared with the next one
//! as far as it stays. Layers above write the command down between `prepare` and `commit`.
#![tactic(auto)]

mod begun;
mod billing;
mod book;
mod command;
mod due;
mod edits;
mod invoicing;
mod kept;
mod kept_answer;
mod key;
mod next;
mod settling;
mod state;
mod step;
mod view;
mod world;

pub use book::Book;
pub use due::auto_key;
pub use next::{Next, Prepared};
pub use view::{StateRow, Sums};
pub use world::World;
