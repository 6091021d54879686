//! A command with its day, as bytes.
ghost use Rattle.std.specs.Prelude.{◌≡◌, ◌<◌, ◌^◌, ℕ, IfOk, OnOk, IfSome, Some, length};
ghost use Rattle.std.specs.Int.{w32, to_be_bytes};
ghost use Rattle.kb_codec.specs.declared.command.Command.{Command as AnyCommand};
ghost use Rattle.kb_codec.specs.Commands.{IsDay};
ghost use Rattle.kb_codec.specs.Members.{day_bytes};
ghost use Rattle.kb_journal.specs.Format.{IsSized};
ghost use Rattle.kb_codec.specs.Entries.{payload, IsEntry};
ghost use Rattle.kb_lane.specs.Private.Parts.{both_of};

use kb_base::NoMemory;
use kb_codec::{Command, decode, encode};
use kb_days::Day;
use kb_journal::MAX_RECORD;
use std::alloc::Global;

/// A command with the day on which it came, as it is written down: in 5 to 65,536 bytes. A longer one finds
/// no memory; no command has one, since a text has at most 60,000 bytes.
pub fn payload_of(alloc: Global, today: Day, command: &Command) -> Result<Vec<u8>, NoMemory>
    ensures payload { IfOk result (λ bytes. bytes.items ≡ payload (today, command.now)) }
    ensures sized { IfOk result (λ bytes. IsSized bytes.items) }
    ensures dated { OnOk result (IsDay today) }
{
    let spelling = encode(alloc, command)?;
    let mut bytes = Vec::with_capacity(alloc, spelling.len() + 4)?;
    bytes.extend_from_slice(&day_bytes(today))?;
    bytes.extend_from_slice(&spelling)?;
    if MAX_RECORD < bytes.len() {
        return Err(NoMemory);
    }
    Ok(bytes)
}

/// A day in four bytes.
#[tactic(auto, unfolding(kb_codec::specs::Members::day_bytes, kb_codec::specs::Members::four_bytes))]
fn day_bytes(today: Day) -> [u8; 4]
    ensures bytes { result ≡ day_bytes today }
    ensures dated { IsDay today }
{
    today.number().to_be_bytes()
}

/// The command that is written down in all of these bytes, with its day; none if they are no payload.
#[tactic(auto, using(crate::proofs::Payloads::short_payload, crate::proofs::Payloads::front_payload))]
pub fn read_payload(alloc: Global, bytes: &[u8]) -> Result<Option<(Day, Command)>, NoMemory>
    ensures written { IfOk result (λ found. IfSome found (λ entry. payload entry ≡ bytes.now)) }
    ensures sound { IfOk result (λ found. IfSome found IsEntry) }
    ensures all { IfOk result (λ found. (today : ℕ) (command : AnyCommand) → IsEntry (today, command)
        → payload (today, command) ≡ bytes.now → found ≡ Some (today, command)) }
{
    if bytes.len() < 4 {
        return Ok(None);
    }
    let (front, rest) = bytes.split_at(4);
    let today = day_of(front);
    let command = decode(alloc, rest)?;
    Ok(both(today, command))
}

/// A day and a command, if both are there.
fn both(today: Option<Day>, command: Option<Command>) -> Option<(Day, Command)>
    ensures { result ≡ both_of today command }
{
    match (today, command) {
        (Some(today), Some(command)) => Some((today, command)),
        _ => None,
    }
}

/// The day that four bytes tell, if a command may name it.
#[tactic(auto, using(crate::proofs::Payloads::day_written, crate::proofs::Payloads::day_read))]
fn day_of(bytes: &[u8]) -> Option<Day>
    requires four { length bytes.now ≡ 4 }
    ensures written { IfSome result (λ day. day_bytes day ≡ bytes.now) }
    ensures sound { IfSome result IsDay }
    ensures all { (day : ℕ) → IsDay day → day_bytes day ≡ bytes.now → result ≡ Some day }
{
    Day::new(number_of(bytes))
}

/// The number that four bytes tell.
fn number_of(bytes: &[u8]) -> u32
    requires four { length bytes.now ≡ 4 }
    ensures written { to_be_bytes w32 result ≡ bytes.now }
    ensures small { result < 2 ^ 32 }
{
    u32::from_be_bytes([bytes[0], bytes[1], bytes[2], bytes[3]])
}
