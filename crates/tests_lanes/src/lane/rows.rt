//! Commands on lanes, and their replies.
//!
//! A line has the bytes of a command and its reply behind ` > `: `#12` is a byte, `=USD` three letters, and
//! any other word a name.

use crate::compare::same;
use crate::lane::lanes::{
    TestLane, again, count_of, empty, journal, performed, put, stuck_at, told,
};
use kb_catalog_text::{OVERDUE, SHOP, read, read_overdue};
use kb_codec::{Catalog, Command, OverdueRules};
use kb_days::Name;
use kb_disk::MemoryDisk;
use kb_journal::Journal;
use kb_samples::{day, name};
use std::alloc::Global;
use std::process::Abort;
use std::test::Fail;

const ACCOUNTS: &str = "\
#11 a1 k3 #0 > refused 0
#3 a1 k1 =USD #1 #0 > ok 1
#3 a1 k1 =USD #1 #0 > ok 1
#3 a1 k9 =USD #1 #0 > refused 0
#12 a1 k2 #0 #0 #0 #0 #0 #0 #1 #244 > ok 2
#11 a1 k3 #0 > ok 3
#12 a1 k2 #0 #0 #0 #0 #0 #0 #1 #244 > ok 2
#11 a2 k3 #0 > refused 0
#3 a2 k1 =USD #5 #1 > ok 1";

/// Behind those of `ACCOUNTS`, where the lane was loaded.
const AGAIN: &str = "\
#12 a1 k2 #0 #0 #0 #0 #0 #0 #1 #244 > ok 2
#3 a2 k1 =USD #5 #1 > ok 1
#3 a1 k9 =USD #1 #0 > refused 0
#11 a1 k4 #0 > ok 4";

/// Records, and the place of the one that is stuck: no command, one without its account, one that came
/// before.
const STUCK: [(&str, u64); 3] = [
    ("#7", 16),
    ("#0 #0 #77 #71 #11 a1 k3 #0", 16),
    (
        "#0 #0 #77 #71 #3 a1 k1 =USD #1 #0\n#0 #0 #77 #71 #3 a1 k1 =USD #1 #0",
        37,
    ),
];

/// The second command meets a fault of the disk.
const STOPS: &str = "\
#3 a1 k1 =USD #1 #0 > ok 1
#12 a1 k2 #0 #0 #0 #0 #0 #0 #1 #244 > disk 0
#11 a1 k3 #0 > stopped 1
#3 a1 k1 =USD #1 #0 > ok 1
#11 a2 k3 #0 > refused 0";

/// Holds the replies to the commands of a table on a new lane, and how many are acknowledged at the end.
fn hold(
    rt: &impl Abort,
    alloc: Global,
    failing: &[u64],
    table: &str,
    count: u64,
) -> Result<(), Fail> {
    let mut lane = empty(alloc, failing)?;
    hold_all(rt, alloc, &mut lane, table, count)
}

fn hold_all(
    rt: &impl Abort,
    alloc: Global,
    lane: &mut TestLane,
    table: &str,
    count: u64,
) -> Result<(), Fail> {
    hold_lines(rt, alloc, lane, table)?;
    same(rt, &count_of(lane), &count, &table);
    Ok(())
}

/// Holds the replies to the commands of a table.
pub(crate) fn hold_lines(
    rt: &impl Abort,
    alloc: Global,
    lane: &mut TestLane,
    table: &str,
) -> Result<(), Fail> {
    for line in table.split('\n') {
        hold_line(rt, alloc, lane, line)?;
    }
    Ok(())
}

fn hold_line(rt: &impl Abort, alloc: Global, lane: &mut TestLane, line: &str) -> Result<(), Fail> {
    let (command, reply) = line.split_once(" > ").unwrap_or((line, ""));
    let said = said_on(alloc, lane, command)?;
    same(rt, &said.as_str(), &reply, &command);
    Ok(())
}

/// What a lane replies to the command of a line, on 2024-03-01.
fn said_on(alloc: Global, lane: &mut TestLane, command: &str) -> Result<String, Fail> {
    let bytes = bytes_of(alloc, command)?;
    told(lane, alloc, day("2024-03-01")?, &bytes)
}

/// The bytes of a line.
fn bytes_of(alloc: Global, line: &str) -> Result<Vec<u8>, Fail> {
    let mut bytes = Vec::new(alloc);
    for word in line.split(' ') {
        put_word(&mut bytes, word)?;
    }
    Ok(bytes)
}

fn put_word(bytes: &mut Vec<u8>, word: &str) -> Result<(), Fail> {
    if let Some(number) = word.strip_prefix('#') {
        bytes.push(number.parse::<u8>()?)?;
        return Ok(());
    }
    if let Some(letters) = word.strip_prefix('=') {
        bytes.extend_from_slice(letters.as_bytes())?;
        return Ok(());
    }
    bytes.push(u8::try_from(word.len())?)?;
    bytes.extend_from_slice(word.as_bytes())?;
    Ok(())
}

#[test]
fn commands_on_accounts(rt: HostRuntime) -> Result<(), Fail> {
    hold(&rt, rt.alloc(), &[], ACCOUNTS, 4)
}

#[test]
fn disks_that_fail(rt: HostRuntime) -> Result<(), Fail> {
    // The lane is made by three calls of its disk. Each command that is written down makes four.
    for call in 8..12 {
        hold(&rt, rt.alloc(), &[call], STOPS, 1)?;
    }
    Ok(())
}

#[test]
fn lanes_that_are_loaded(rt: HostRuntime) -> Result<(), Fail> {
    hold_loaded(&rt, rt.alloc())
}

fn hold_loaded(rt: &impl Abort, alloc: Global) -> Result<(), Fail> {
    let mut lane = empty(alloc, &[])?;
    hold_all(rt, alloc, &mut lane, ACCOUNTS, 4)?;
    hold_again(rt, alloc, lane)
}

/// Loads a lane from the disk of this one, and goes on with it.
fn hold_again(rt: &impl Abort, alloc: Global, lane: TestLane) -> Result<(), Fail> {
    let mut lane = again(alloc, lane)?;
    hold_more(rt, alloc, &mut lane)
}

fn hold_more(rt: &impl Abort, alloc: Global, lane: &mut TestLane) -> Result<(), Fail> {
    same(rt, &count_of(lane), &4, &"loaded");
    hold_all(rt, alloc, lane, AGAIN, 5)
}

#[test]
fn records_that_are_stuck(rt: HostRuntime) -> Result<(), Fail> {
    for (records, place) in STUCK {
        hold_stuck(&rt, rt.alloc(), records, place)?;
    }
    Ok(())
}

fn hold_stuck(rt: &impl Abort, alloc: Global, records: &str, place: u64) -> Result<(), Fail> {
    let found = stuck_in(alloc, records)?;
    same(rt, &found, &place, &records);
    Ok(())
}

/// The place at which the lane of these records is stuck.
fn stuck_in(alloc: Global, records: &str) -> Result<u64, Fail> {
    let mut journal = journal(alloc)?;
    put_all(alloc, &mut journal, records)?;
    stuck_at(alloc, journal)
}

fn put_all(alloc: Global, journal: &mut Journal<MemoryDisk>, records: &str) -> Result<(), Fail> {
    for record in records.split('\n') {
        put(journal, &bytes_of(alloc, record)?)?;
    }
    Ok(())
}

#[test]
fn texts(rt: HostRuntime) -> Result<(), Fail> {
    hold_texts(&rt, rt.alloc())
}

fn hold_texts(rt: &impl Abort, alloc: Global) -> Result<(), Fail> {
    let mut lane = empty(alloc, &[])?;
    hold_texts_on(rt, alloc, &mut lane)
}

fn hold_texts_on(rt: &impl Abort, alloc: Global, lane: &mut TestLane) -> Result<(), Fail> {
    for (key, reply) in [
        ("init", "version 1"),
        ("init", "version 1"),
        ("k1", "refused 0"),
    ] {
        let said = after_catalog(alloc, lane, key)?;
        same(rt, &said.as_str(), &reply, &key);
    }
    for reply in ["states 2", "states 2"] {
        let said = after_overdue(alloc, lane)?;
        same(rt, &said.as_str(), &reply, &reply);
    }
    same(rt, &count_of(lane), &2, &"texts");
    Ok(())
}

/// The reply to the shop's catalog text under a key.
fn after_catalog(alloc: Global, lane: &mut TestLane, key: &str) -> Result<String, Fail> {
    let key = name(key)?;
    let text = SHOP.as_bytes().to_vec(alloc)?;
    after_text(alloc, lane, key, text)
}

/// The reply to a catalog text under a key.
fn after_text(
    alloc: Global,
    lane: &mut TestLane,
    key: Name,
    text: Vec<u8>,
) -> Result<String, Fail> {
    match read(alloc, text) {
        Ok(text) => performed(lane, alloc, &Command::Catalog(Catalog { key, text })),
        Err(_) => Err("a text".into()),
    }
}

/// The reply to the shop's overdue text.
fn after_overdue(alloc: Global, lane: &mut TestLane) -> Result<String, Fail> {
    let key = name("init")?;
    match read_overdue(alloc, OVERDUE.as_bytes().to_vec(alloc)?) {
        Ok(text) => performed(
            lane,
            alloc,
            &Command::OverdueRules(OverdueRules { key, text }),
        ),
        Err(_) => Err("a text".into()),
    }
}

#[test]
fn no_65th_version(rt: HostRuntime) -> Result<(), Fail> {
    let mut lane = empty(rt.alloc(), &[])?;
    hold_versions(&rt, rt.alloc(), &mut lane)
}

/// A lane takes 64 versions of a catalog, a year apart. One more is refused, and accounts go on.
fn hold_versions(rt: &impl Abort, alloc: Global, lane: &mut TestLane) -> Result<(), Fail> {
    for number in 1..66 {
        let said = after_version(alloc, lane, number)?;
        let wanted = match number {
            65 => "refused 0".to_string(alloc)?,
            _ => format!(in alloc; "version {number}")?,
        };
        same(rt, &said, &wanted, &number);
    }
    hold_lines(rt, alloc, lane, ACCOUNTS)
}

/// The reply to the shop's catalog text, from the first day of a year on, under a key of its own.
fn after_version(alloc: Global, lane: &mut TestLane, number: u32) -> Result<String, Fail> {
    let key = numbered(alloc, number)?;
    let text = shop_from(alloc, number.saturating_add(2000))?;
    after_text(alloc, lane, key, text.into_bytes())
}

/// The key of this number.
fn numbered(alloc: Global, number: u32) -> Result<Name, Fail> {
    let key = format!(in alloc; "k{number}")?;
    Ok(name(&key)?)
}

/// The shop's catalog text, from the first day of a year on.
fn shop_from(alloc: Global, year: u32) -> Result<String, Fail> {
    let (before, behind) = SHOP.split_once("2020-01-01").ok_or("no day")?;
    Ok(format!(in alloc; "{before}{year}-01-01{behind}")?)
}
