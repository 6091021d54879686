//! Commands, sent to a lane one after another.
ghost use Rattle.std.specs.Prelude.{◌≡◌, ◌<◌, ◌^◌, [], true, length, IfOk, OnOk};
ghost use Rattle.kb_codec.specs.Senders.{is_callers};
ghost use Rattle.kb_lane.specs.Lanes.{machine_of};
ghost use Rattle.kb_make.specs.Makes.{IsDoneWith, Sends, is_refused, sent};
ghost use Rattle.kb_make.specs.Private.Sending.{busy_of, told_refused};

use crate::gateway::PaidAtOnce;
use crate::generator::Generator;
use kb_base::NoMemory;
use kb_book::{LaneReply, Step};
use kb_codec::Command;
use kb_days::Day;
use kb_disk::MemoryDisk;
use kb_lane::{Lane, drain};
use std::alloc::Global;

/// A lane in memory whose gateway takes each payment.
pub(crate) type MemoryLane = Lane<MemoryDisk, PaidAtOnce>;

/// Sends all commands of a seed, and counts those that are refused. If a lane can't take one, that is told as
/// want of memory.
pub(crate) fn send_all(
    lane: &mut MemoryLane,
    alloc: Global,
    generator: Generator,
) -> Result<u64, NoMemory>
    requires idle { lane.old.outbox ≡ [] }
    requires few { length generator < 2 ^ 64 }
    ensures { IfOk result (λ refused. Sends (machine_of lane.old) generator (machine_of lane.new) refused) }
{
    let mut generator = generator;
    let mut refused = 0;
    'sent: while let Some(entry) = generator.next() {
        let (today, command) = &entry;
        refused += u64::from(send(lane, alloc, *today, command)?);
    }
    Ok(refused)
}

/// Sends a command and does what it leaves to do, and tells whether it was refused.
fn send(
    lane: &mut MemoryLane,
    alloc: Global,
    today: Day,
    command: &Command,
) -> Result<bool, NoMemory>
    requires callers { is_callers command.now ≡ true }
    requires idle { lane.old.outbox ≡ [] }
    ensures idle { OnOk result (lane.new.outbox ≡ []) }
    ensures done { OnOk result (IsDoneWith today (sent (machine_of lane.old) (today, command.now))
        (machine_of lane.new)) }
    ensures refused { IfOk result (λ refused.
        refused ≡ is_refused (machine_of lane.old) (today, command.now)) }
{
    let refused = perform(lane, alloc, today, command)?;
    finish(lane, alloc, today)?;
    Ok(refused)
}

/// Sends a command, and tells whether it was refused.
pub(crate) fn perform(
    lane: &mut MemoryLane,
    alloc: Global,
    today: Day,
    command: &Command,
) -> Result<bool, NoMemory>
    requires callers { is_callers command.now ≡ true }
    requires idle { lane.old.outbox ≡ [] }
    ensures sent { OnOk result (busy_of lane.new ≡ sent (machine_of lane.old) (today, command.now)) }
    ensures refused { IfOk result (λ refused.
        refused ≡ is_refused (machine_of lane.old) (today, command.now)) }
{
    told_refused(lane.perform(alloc, today, command))
}

/// Whether a reply tells that its command is refused.
fn told_refused(reply: LaneReply) -> Result<bool, NoMemory>
    ensures { result ≡ told_refused reply }
{
    match reply {
        LaneReply::Accepted(_) | LaneReply::Version(_) | LaneReply::States(_) => Ok(false),
        LaneReply::Refused(_) => Ok(true),
        LaneReply::DiskFault
        | LaneReply::Stopped(_)
        | LaneReply::Full { .. }
        | LaneReply::NoMemory => Err(NoMemory),
    }
}

/// Does all that a lane has left to do.
fn finish(lane: &mut MemoryLane, alloc: Global, today: Day) -> Result<(), NoMemory>
    ensures idle { OnOk result (lane.new.outbox ≡ []) }
    ensures done { OnOk result (IsDoneWith today (busy_of lane.old) (machine_of lane.new)) }
{
    match drain(lane, alloc, today) {
        Step::Idle => Ok(()),
        _ => Err(NoMemory),
    }
}
