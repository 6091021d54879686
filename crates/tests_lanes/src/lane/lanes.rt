//! Lanes in memory, and what they reply to a command.

use kb_book::{LaneReply, Step};
use kb_codec::{Command, decode};
use kb_days::Day;
use kb_disk::MemoryDisk;
use kb_gateway::{ListGateway, Seen, Told};
use kb_journal::{Journal, LoadFault};
use kb_lane::Lane;
use kb_samples::day;
use std::alloc::Global;
use std::test::Fail;

/// A lane on a disk and with a gateway in memory.
pub(crate) type TestLane = Lane<MemoryDisk, ListGateway>;

/// An empty lane, on a disk whose calls of these numbers fail.
pub(crate) fn empty(alloc: Global, failing: &[u64]) -> Result<TestLane, Fail> {
    let disk = MemoryDisk::new(alloc, Vec::new(alloc), failing.to_vec(alloc)?)?;
    made(alloc, disk, silent(alloc))
}

/// An empty lane whose gateway answers orders and look-ups so, and whose calls of these numbers fail.
pub(crate) fn with_gateway(
    alloc: Global,
    told: &[Told],
    seen: &[Seen],
    failing: &[u64],
) -> Result<TestLane, Fail> {
    let disk = MemoryDisk::new(alloc, Vec::new(alloc), Vec::new(alloc))?;
    let told = told.to_vec(alloc)?;
    let seen = seen.to_vec(alloc)?;
    let gateway = ListGateway::new(alloc, told, seen, failing.to_vec(alloc)?);
    made(alloc, disk, gateway)
}

/// An empty lane whose gateway fails at its first call and has seen the payment then, on a disk whose call
/// of this number fails.
pub(crate) fn on_disk(alloc: Global, failing: u64) -> Result<TestLane, Fail> {
    let failing = [failing].to_vec(alloc)?;
    let disk = MemoryDisk::new(alloc, Vec::new(alloc), failing)?;
    let seen = [Seen::Told(Told::Processed)].to_vec(alloc)?;
    let gateway = ListGateway::new(alloc, Vec::new(alloc), seen, [1].to_vec(alloc)?);
    made(alloc, disk, gateway)
}

/// An empty lane whose gateway accepts an order, on a disk whose call of this number fails.
pub(crate) fn paying_on_disk(alloc: Global, failing: u64) -> Result<TestLane, Fail> {
    let failing = [failing].to_vec(alloc)?;
    let disk = MemoryDisk::new(alloc, Vec::new(alloc), failing)?;
    let told = [Told::Processed].to_vec(alloc)?;
    let gateway = ListGateway::new(alloc, told, Vec::new(alloc), Vec::new(alloc));
    made(alloc, disk, gateway)
}

/// Handles entries of the outbox until a step isn't done: how many were, and that step.
pub(crate) fn drained(lane: &mut TestLane, alloc: Global, today: Day) -> (u32, Step) {
    for count in 0..100 {
        match lane.handle_next(alloc, today) {
            Step::Done => {}
            step => return (count, step),
        }
    }
    (100, Step::Done)
}

/// Looks up the open payments of a lane.
pub(crate) fn looked_up(lane: &mut TestLane, alloc: Global, today: Day) -> Step {
    lane.janitor(alloc, today)
}

/// How many calls the gateway heard.
pub(crate) fn calls_in(lane: TestLane) -> Option<usize> {
    let (_, gateway) = lane.into_parts();
    gateway.said().map(|said| said.len())
}

/// How often the gateway was asked.
pub(crate) fn asked_in(lane: TestLane) -> Option<usize> {
    let (_, gateway) = lane.into_parts();
    gateway.asked().map(|asked| asked.len())
}

/// A gateway that has nothing to say.
fn silent(alloc: Global) -> ListGateway {
    ListGateway::new(alloc, Vec::new(alloc), Vec::new(alloc), Vec::new(alloc))
}

fn made(alloc: Global, disk: MemoryDisk, gateway: ListGateway) -> Result<TestLane, Fail> {
    match Lane::create(alloc, disk, gateway, 0, 1) {
        Ok(lane) => Ok(lane),
        Err(_) => Err("a lane".into()),
    }
}

/// A lane that is loaded from the disk of another.
pub(crate) fn again(alloc: Global, lane: TestLane) -> Result<TestLane, Fail> {
    let (disk, gateway) = lane.into_parts();
    match Lane::load(alloc, disk, gateway, 0) {
        Ok(lane) => Ok(lane),
        Err(_) => Err("a lane".into()),
    }
}

/// The place at which the lane of a journal is stuck.
pub(crate) fn stuck_at(alloc: Global, journal: Journal<MemoryDisk>) -> Result<u64, Fail> {
    match Lane::load(alloc, journal.into_disk(), silent(alloc), 0) {
        Err((LoadFault::NotAJournal(place), _, _)) => Ok(place),
        _ => Err("a stuck record".into()),
    }
}

/// An empty journal.
pub(crate) fn journal(alloc: Global) -> Result<Journal<MemoryDisk>, Fail> {
    let disk = MemoryDisk::new(alloc, Vec::new(alloc), Vec::new(alloc))?;
    match Journal::create(disk, 0, 1) {
        Ok(journal) => Ok(journal),
        Err(_) => Err("a journal".into()),
    }
}

/// Adds a record to a journal.
pub(crate) fn put(journal: &mut Journal<MemoryDisk>, record: &[u8]) -> Result<(), Fail> {
    if record.is_empty() || record.len() > 100 {
        return Err("a record".into());
    }
    match journal.append(record) {
        Ok(_) => Ok(()),
        Err(_) => Err("a whole disk".into()),
    }
}

/// How many commands of a lane are acknowledged.
pub(crate) fn count_of(lane: &TestLane) -> u64 {
    lane.count()
}

/// What a lane replies to the command of some bytes: a word and a number.
pub(crate) fn told(
    lane: &mut TestLane,
    alloc: Global,
    today: Day,
    bytes: &[u8],
) -> Result<String, Fail> {
    match decode(alloc, bytes)? {
        Some(command) => performed_on(lane, alloc, today, &command),
        None => Err("a command".into()),
    }
}

/// What it replies to a command on 2024-03-01.
pub(crate) fn performed(
    lane: &mut TestLane,
    alloc: Global,
    command: &Command,
) -> Result<String, Fail> {
    performed_on(lane, alloc, day("2024-03-01")?, command)
}

fn performed_on(
    lane: &mut TestLane,
    alloc: Global,
    today: Day,
    command: &Command,
) -> Result<String, Fail> {
    match command {
        Command::Auto(_) | Command::Settle(_) | Command::Overdue(_) => Err("a caller's".into()),
        _ => text_of(alloc, lane.perform(alloc, today, command)),
    }
}

fn text_of(alloc: Global, reply: LaneReply) -> Result<String, Fail> {
    let (word, number) = word_of(reply);
    Ok(format!(in alloc; "{word} {number}")?)
}

/// A reply as a word and a number.
fn word_of(reply: LaneReply) -> (&'static str, u64) {
    match reply {
        LaneReply::Accepted(answer) => ("ok", answer.command),
        LaneReply::Version(number) => ("version", number as u64),
        LaneReply::States(number) => ("states", number as u64),
        LaneReply::Refused(_) => ("refused", 0),
        LaneReply::DiskFault => ("disk", 0),
        LaneReply::Stopped(count) => ("stopped", count),
        LaneReply::Full { commands, .. } => ("full", commands),
        LaneReply::NoMemory => ("memory", 0),
    }
}
