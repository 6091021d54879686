//! What crashes and failed calls leave of a journal.

use crate::compare::same;
use crate::journal::journals::count_of;
use kb_base::NoMemory;
use kb_disk::{Disk, MemoryDisk};
use kb_journal::{Journal, LoadFault};
use std::alloc::{AllocError, Global};
use std::test::Fail;

/// Makes a journal and adds three records, which takes 15 calls of the disk. How many were acknowledged, and
/// the disk.
fn add_three(disk: MemoryDisk) -> (usize, MemoryDisk) {
    let mut journal = match Journal::create(disk, 0, 1) {
        Ok(journal) => journal,
        Err((_, disk)) => return (0, disk),
    };
    let mut acknowledged = 0;
    for record in [[5, 6], [0, 1], [255, 1]] {
        if let Ok(number) = journal.append(&record) {
            acknowledged = number as usize + 1;
        }
    }
    (acknowledged, journal.into_disk())
}

/// How many of three records are acknowledged if a call fails, and the bytes then.
fn bytes_left(alloc: Global, failing: u64) -> Result<(usize, Vec<u8>), NoMemory> {
    let disk = MemoryDisk::new(alloc, Vec::new(alloc), [failing].to_vec(alloc)?)?;
    let (acknowledged, disk) = add_three(disk);
    Ok((acknowledged, disk.into_bytes()))
}

#[test]
fn each_call_fails_in_turn(rt: HostRuntime) -> Result<(), Fail> {
    let alloc = rt.alloc();
    for failing in 1..17 {
        let (acknowledged, bytes) = bytes_left(alloc, failing)?;
        same(
            &rt,
            &(acknowledged, count_of(alloc, &bytes)),
            &left_by(failing),
            &failing,
        );
    }
    Ok(())
}

/// How many records are acknowledged if a call fails, and what the bytes tell then. A failed call changes no
/// byte, so the record whose last sync fails is there.
fn left_by(failing: u64) -> (usize, Result<usize, LoadFault>) {
    match failing {
        1 | 2 => (0, Err(LoadFault::NotAJournal(0))),
        3..7 => (0, Ok(0)),
        7 => (0, Ok(1)),
        8..11 => (1, Ok(1)),
        11 => (1, Ok(2)),
        12..15 => (2, Ok(2)),
        15 => (2, Ok(3)),
        _ => (3, Ok(3)),
    }
}

/// What a load answers if a call fails, how many faults the disk has then, and its bytes.
fn failed_load(
    alloc: Global,
    bytes: &[u8],
    failing: u64,
) -> Result<(Option<LoadFault>, u64, Vec<u8>), NoMemory> {
    let disk = MemoryDisk::new(alloc, bytes.to_vec(alloc)?, [failing].to_vec(alloc)?)?;
    match Journal::load(alloc, disk, 0) {
        Ok((journal, _)) => Ok((
            None,
            journal.faults() as u64,
            journal.into_disk().into_bytes(),
        )),
        Err((fault, disk)) => Ok((Some(fault), disk.faults(), disk.into_bytes())),
    }
}

#[test]
fn each_call_of_a_load_fails_in_turn(rt: HostRuntime) -> Result<(), Fail> {
    let alloc = rt.alloc();
    let (_, bytes) = bytes_left(alloc, 0)?;
    for failing in 1..5 {
        let told = if failing < 4 {
            (Some(LoadFault::DiskFault), 1)
        } else {
            (None, 0)
        };
        let (fault, faults, left) = failed_load(alloc, &bytes, failing)?;
        same(
            &rt,
            &((fault, faults), left.as_slice()),
            &(told, bytes.as_slice()),
            &"",
        );
    }
    Ok(())
}

#[test]
fn a_crash_leaves_the_records_so_far(rt: HostRuntime) -> Result<(), Fail> {
    let alloc = rt.alloc();
    let (_, bytes) = bytes_left(alloc, 0)?;
    for backwards in [false, true] {
        let (strange, image) = written_in_steps(alloc, backwards)?;
        same(
            &rt,
            &(strange, image.as_slice()),
            &(0, bytes.as_slice()),
            &"",
        );
    }
    Ok(())
}

/// The writes that add three records, byte by byte. How often before one of them an image doesn't tell the
/// records so far, and the last image.
fn written_in_steps(alloc: Global, backwards: bool) -> Result<(u32, Vec<u8>), AllocError> {
    let mut image = Vec::new(alloc);
    let made = b"KBJRNL01\x00\x01\x00\x00\x00\x00\x00\x00\x00";
    let none = Err(LoadFault::NotAJournal(0));
    let mut strange = write_in_steps(alloc, &mut image, 0, made, backwards, none)?;
    for (number, [one, two]) in [[5, 6], [0, 1], [255, 1]].into_iter().enumerate() {
        let gate = 16 + 7 * number.min(3);
        let block = [0, 0, 0, 2, one, two, 0];
        let told = Ok(number);
        let behind = write_in_steps(alloc, &mut image, gate + 1, &block, backwards, told)?;
        let opened = write_in_steps(alloc, &mut image, gate, &[1], backwards, told)?;
        strange = strange.saturating_add(behind).saturating_add(opened);
    }
    Ok((strange, image))
}

/// Writes bytes one by one, from the first or from the last on. How often before one of them an image doesn't
/// tell what it should.
fn write_in_steps(
    alloc: Global,
    image: &mut Vec<u8>,
    at: usize,
    bytes: &[u8],
    backwards: bool,
    told: Result<usize, LoadFault>,
) -> Result<u32, AllocError> {
    let mut strange = 0_u32;
    for turn in 0..bytes.len() {
        if count_of(alloc, image) != told {
            strange = strange.saturating_add(1);
        }
        let place = if backwards {
            bytes.len() - 1 - turn
        } else {
            turn
        };
        put(image, at.saturating_add(place), bytes[place])?;
    }
    Ok(strange)
}

/// Puts a byte at a place; a gap before it is filled with 0.
fn put(image: &mut Vec<u8>, at: usize, byte: u8) -> Result<(), AllocError> {
    let at = at.min(1000);
    if image.len() <= at {
        image.resize(at + 1, 0)?;
    }
    if let Some(there) = image.get_mut(at) {
        *there = byte;
    }
    Ok(())
}
