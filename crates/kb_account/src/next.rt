//! What a book prepares.

use crate::book::Book;
use kb_book::Answer;

/// The book that a command makes, and its answer.
#[derive(Drop)]
pub struct Next {
    pub(crate) book: Book,
    pub(crate) answer: Answer,
}

/// What a book prepares for a command that isn't refused.
#[derive(Drop)]
pub enum Prepared {
    /// The command is new: this is the book after it.
    Next(Next),
    /// The command was accepted before: this is the answer that was kept.
    Kept(Answer),
}
