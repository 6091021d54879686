//! The request keys of commands.
ghost use Rattle.std.specs.Prelude.{◌≡◌};
ghost use Rattle.kb_codec.specs.Senders as told;

use kb_codec::Command;
use kb_days::Name;

/// The request key of a command of a caller.
pub(crate) fn key_of(command: &Command) -> Option<Name>
    ensures { result ≡ told.key_of command.now }
{
    match command {
        Command::Catalog(members) => Some(members.key),
        Command::OverdueRules(members) => Some(members.key),
        Command::Act { key, .. } => Some(*key),
        Command::Auto(_) | Command::Settle(_) | Command::Overdue(_) => None,
    }
}
