//! What an account depends on.
ghost use Rattle.kb_histories.specs.OwnCommands.{OwnCommandsReplied, OwnCommandsReply, OwnCommandsSuffice};

/// The book of an account is what its own commands and the texts lead to, and each of these is new to those
/// before it: no command on another account moves it.
pub fn own_commands_suffice()
    ensures suffice { OwnCommandsSuffice }
{}

/// A command on an account, or a text, gets the reply that it gets after the account's own commands and the
/// texts alone, unless it is refused as one account too many; each one of a history got that reply.
pub fn own_commands_reply()
    ensures reply { OwnCommandsReply }
    ensures replied { OwnCommandsReplied }
{}
