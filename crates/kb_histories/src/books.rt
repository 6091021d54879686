//! What holds of books for the sake of their attempts.
ghost use Rattle.kb_histories.specs.PaymentKeys.{ReplaysAreKeyed};
ghost use Rattle.kb_histories.specs.Names.{NamesStay, ReplaysAreNamed};
ghost use Rattle.kb_histories.specs.Dues.{DueCommandsAreNamed, DueCommandsAreNew};

/// The keys of automatic payments stay apart from those that were used.
pub fn keys_are_apart()
    ensures replayed { ReplaysAreKeyed }
{}

/// Books stay found under the names of their accounts.
pub fn books_are_named()
    ensures stay { NamesStay }
    ensures replayed { ReplaysAreNamed }
{}

/// The command that a book asks for by itself names the book's own account, and it is new.
pub fn due_commands_are_new()
    ensures named { DueCommandsAreNamed }
    ensures new { DueCommandsAreNew }
{}
