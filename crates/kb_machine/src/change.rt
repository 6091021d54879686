//! What a command is planned to change.

use crate::kept_text::KeptText;
use kb_account::{Book, Next};
use kb_book::{Answer, LaneReply};
use kb_catalog::Catalog;
use kb_days::Name;
use kb_overdue::Config;
use kb_sharing::SharedMap;

/// What a new command makes of a machine, with all memory taken.
#[derive(Drop)]
pub enum Change {
    /// The catalog with a version more, and the keys of catalog texts.
    Catalog {
        catalog: Catalog,
        keys: SharedMap<Name, KeptText>,
        number: u32,
    },
    /// The states of an overdue text, and the keys of overdue texts.
    Overdue {
        config: Config,
        keys: SharedMap<Name, KeptText>,
        number: u32,
    },
    /// What the book of an account prepared.
    Book {
        account: Name,
        next: Next,
    },
}

/// An account that is opened: its book, and the answer to that command.
#[derive(Drop)]
pub struct Opened {
    pub account: Name,
    pub book: Book,
    pub answer: Answer,
}

/// What is planned for a command that isn't refused.
#[derive(Drop)]
pub enum Planned {
    /// The command is new, and changes this.
    Change(Change),
    /// The command is new, and opens this account.
    Opened(Opened),
    /// The command was accepted before: this is its reply.
    Again(LaneReply),
}
