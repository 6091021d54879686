//! Replies, refusals and faults as texts.
ghost use Rattle.std.specs.Prelude.{◌≡◌, [], ◌∷◌, IfOk, map};
ghost use Rattle.kb_json.specs.Answers.{status, accepted, limit_of, refused, full};
ghost use Rattle.kb_json.specs.Answers.{reply_json, step_json, fault_json};
ghost use Rattle.kb_json.specs.JsonTexts.{object_of, count};
ghost use Rattle.kb_json.specs.Private.Fields.{field_json, IsTextOf};

use crate::draft::Draft;
use crate::fault::RequestFault;
use crate::field::{Field, count, count_if, sum, word};
use crate::refusal::{refusal_name, refusal_number};
use kb_base::NoMemory;
use kb_book::{Answer, LaneReply, Refusal, Step};
use std::alloc::Global;

/// The reply of a lane.
pub(crate) fn reply_text(alloc: Global, reply: &LaneReply) -> Result<Vec<u8>, NoMemory>
    ensures { IfOk result (λ text. IsTextOf (reply_json reply.now) text.items) }
{
    match *reply {
        LaneReply::Accepted(answer) => accepted_text(alloc, &answer),
        LaneReply::Version(versions) => counted_text(alloc, "ok", "version", u64::from(versions)),
        LaneReply::States(states) => counted_text(alloc, "ok", "states", u64::from(states)),
        LaneReply::Refused(refusal) => refused_text(alloc, refusal),
        LaneReply::DiskFault => plain_text(alloc, "disk"),
        LaneReply::Stopped(count) => counted_text(alloc, "stopped", "count", count),
        LaneReply::Full { commands, size } => full_text(alloc, commands, size),
        LaneReply::NoMemory => plain_text(alloc, "memory"),
    }
}

/// What came of looking up open payments.
pub(crate) fn step_text(alloc: Global, step: Step) -> Result<Vec<u8>, NoMemory>
    ensures { IfOk result (λ text. IsTextOf (step_json step) text.items) }
{
    match step {
        Step::Idle | Step::Done => plain_text(alloc, "ok"),
        Step::DiskFault => plain_text(alloc, "disk"),
        Step::Stopped(count) => counted_text(alloc, "stopped", "count", count),
        Step::Full { commands, size } => full_text(alloc, commands, size),
        Step::NoMemory => plain_text(alloc, "memory"),
    }
}

/// A line that is no request.
pub(crate) fn fault_text(alloc: Global, fault: &RequestFault) -> Result<Vec<u8>, NoMemory>
    ensures { IfOk result (λ text. IsTextOf (fault_json fault.now) text.items) }
{
    match fault {
        RequestFault::Json(json) => {
            counted_text(alloc, "bad", "fault", u64::from(json.number()))
        },
        RequestFault::BadName => refused_text(alloc, Refusal::BadName),
        RequestFault::BadDate => refused_text(alloc, Refusal::BadDate),
        RequestFault::Text(text) => {
            counted_text(alloc, "text", "fault", u64::from(text.number()))
        },
        RequestFault::NoMemory => plain_text(alloc, "memory"),
    }
}

/// An accepted command.
fn accepted_text(alloc: Global, answer: &Answer) -> Result<Vec<u8>, NoMemory>
    ensures { IfOk result (λ text. IsTextOf (accepted answer.now) text.items) }
{
    let rows = [
        ("status", word("ok")),
        ("command", count(answer.command)),
        ("invoice", count_if(wide(answer.invoice))),
        ("total", sum(&answer.total)),
        ("credit", sum(&answer.credit)),
        ("unpaid", sum(&answer.unpaid)),
    ];
    text_of(alloc, &rows)
}

/// A number of 32 bits in 64.
fn wide(number: Option<u32>) -> Option<u64>
    ensures { result ≡ number }
{
    match number {
        None => None,
        Some(number) => Some(u64::from(number)),
    }
}

/// A refusal.
pub(crate) fn refused_text(alloc: Global, refusal: Refusal) -> Result<Vec<u8>, NoMemory>
    ensures { IfOk result (λ text. IsTextOf (refused refusal) text.items) }
{
    let number = count(u64::from(refusal_number(refusal)));
    let name = word(refusal_name(refusal));
    match limit_of(refusal) {
        None => {
            let status = word("refused");
            text_of(
                alloc,
                &[("status", status), ("number", number), ("name", name)],
            )
        }
        Some((which, limit)) => {
            let rows = [
                ("status", word("refused")),
                ("number", number),
                ("name", name),
                ("which", count(u64::from(which))),
                ("limit", count(u64::from(limit))),
            ];
            text_of(alloc, &rows)
        }
    }
}

/// Which limit would be passed, and its number.
fn limit_of(refusal: Refusal) -> Option<(u32, u32)>
    ensures { result ≡ limit_of refusal }
{
    match refusal {
        Refusal::Limit { which, limit } => Some((which, limit)),
        _ => None,
    }
}

/// A status.
fn plain_text(alloc: Global, name: &str) -> Result<Vec<u8>, NoMemory>
    ensures { IfOk result (λ text. IsTextOf (status name.now []) text.items) }
{
    text_of(alloc, &[("status", word(name))])
}

/// A status and a number.
fn counted_text(alloc: Global, name: &str, member: &str, number: u64) -> Result<Vec<u8>, NoMemory>
    ensures { IfOk result (λ text. IsTextOf (status name.now ((member.now, count number) ∷ [])) text.items) }
{
    let number = count(number);
    text_of(alloc, &[("status", word(name)), (member, number)])
}

/// A journal without room.
fn full_text(alloc: Global, commands: u64, size: u64) -> Result<Vec<u8>, NoMemory>
    ensures { IfOk result (λ text. IsTextOf (full commands size) text.items) }
{
    let rows = [
        ("status", word("full")),
        ("commands", count(commands)),
        ("size", count(size)),
    ];
    text_of(alloc, &rows)
}

/// An object of these members.
pub(crate) fn text_of(alloc: Global, rows: &[(&str, Field)]) -> Result<Vec<u8>, NoMemory>
    ensures { IfOk result (λ text. IsTextOf
        (object_of (map (λ row. (row.0.now, field_json row.1)) rows.now)) text.items) }
{
    let mut draft = Draft::new(alloc)?;
    draft.object(alloc, rows)?;
    Ok(draft.into_bytes())
}
