//! Commands as bytes, and back.
ghost use Rattle.std.specs.Prelude.{◌≡◌, IfOk, IfSome, Some, None};
ghost use Rattle.kb_codec.specs.CommandBytes.{spelling};
ghost use Rattle.kb_codec.specs.Commands.{IsCommand};
ghost use Rattle.kb_codec.specs.declared.command.Command.{Command as AnyCommand};
ghost use Rattle.kb_codec.specs.Reading.{Reads};
ghost use Rattle.kb_codec.specs.SpellingsApart.{NoSpellingBeginsAnother};
ghost use Rattle.kb_codec.specs.Private.Parts.{command_in, ended, whole};

use crate::command::Command;
use crate::reading::read_plain;
use crate::rest::Rest;
use crate::texts::{read_catalog_text, read_overdue_rules};
use crate::writing::put_command;
use kb_base::NoMemory;
use std::alloc::Global;

/// Room for the bytes of any command without a text.
const ROOM: usize = 400;

/// The one spelling of a command. An `Err` comes only if memory runs out.
pub fn encode(alloc: Global, command: &Command) -> Result<Vec<u8>, NoMemory>
    ensures { IfOk result (λ bytes. bytes.items ≡ spelling command.now) }
{
    let mut bytes = Vec::with_capacity(alloc, ROOM)?;
    put_command(&mut bytes, command)?;
    Ok(bytes)
}

/// The command of which all of these bytes are the spelling; none if they are no command's. Memory is taken
/// for a text alone.
pub fn decode(alloc: Global, bytes: &[u8]) -> Result<Option<Command>, NoMemory>
    ensures spelled { IfOk result (λ found. IfSome found (λ command. spelling command ≡ bytes.now)) }
    ensures sound { IfOk result (λ found. IfSome found IsCommand) }
    ensures all { IfOk result (λ found. (command : AnyCommand) → IsCommand command
        → spelling command ≡ bytes.now → found ≡ Some command) }
{
    read_whole(alloc, bytes)
}

/// No spelling begins another one, so no length has to stand before a command.
pub fn no_spelling_begins_another()
    ensures apart { NoSpellingBeginsAnother }
{}

/// The command that all of these bytes are.
#[tactic(auto, unfolding(crate::specs::Private::Parts::whole))]
fn read_whole(alloc: Global, bytes: &[u8]) -> Result<Option<Command>, NoMemory>
    ensures { IfOk result (λ found. found ≡ whole bytes.now) }
{
    let mut rest = Rest::new(bytes);
    let found = read_command(alloc, &mut rest)?;
    Ok(ended(found, &rest))
}

/// What was read, if nothing is left.
fn ended(found: Option<Command>, rest: &Rest<'_>) -> Option<Command>
    ensures { result ≡ ended found rest.now }
{
    if rest.is_empty() { found } else { None }
}

/// A command, from its kind on.
#[tactic(auto, unfolding(crate::specs::Private::Parts::command_in))]
fn read_command(alloc: Global, rest: &mut Rest<'_>) -> Result<Option<Command>, NoMemory>
    ensures { IfOk result (λ found. Reads command_in rest.old found rest.new) }
{
    let Some(kind) = rest.byte() else {
        return Ok(None);
    };
    match kind {
        0 => Ok(None),
        1 => read_catalog_text(alloc, rest),
        2 => read_overdue_rules(alloc, rest),
        _ => Ok(read_plain(kind, rest)),
    }
}
