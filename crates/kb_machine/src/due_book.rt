//! A book, with what is due of it.

use kb_account::Book;
use kb_tree::Issue;
use std::marker::Model;

/// The book of an account as it stands, and the items that bring it up to what is due.
#[derive(Drop)]
pub struct DueBook<'a> {
    pub(crate) book: &'a Book,
    pub(crate) issue: Issue,
}

impl<'a> Model for DueBook<'a> {
    ghost use Rattle.kb_machine.specs.Plans.{DueBook};

    ghost Value = { DueBook };

    ghost view = { λ due. record { book = due.book.now; issue = due.issue } };
}
