//! A disk in memory: what its calls answer, and the bytes that they leave.

use crate::compare::same;
use kb_base::Failed;
use kb_disk::{Disk, MemoryDisk};
use std::test::Fail;

/// The number of the call that fails, the answers of the seven calls (-1 where one failed), and the bytes at
/// the end.
const ROWS: [(u64, [i64; 7], [u8; 4]); 8] = [
    (0, [2, 0, 2, 0, 0, 0, 0], [1, 2, 8, 0]),
    (1, [-1, 0, 2, 0, 0, 0, 0], [1, 2, 8, 0]),
    (2, [2, -1, 1, 0, 0, 0, 0], [7, 7, 8, 0]),
    (3, [2, 0, -1, 0, 0, 0, 0], [1, 2, 8, 0]),
    (4, [2, 0, 2, -1, 0, 0, 0], [1, 2, 3, 0]),
    (5, [2, 0, 2, 0, -1, 0, 1], [1, 2, 8, 9]),
    (6, [2, 0, 2, 0, 0, -1, 0], [1, 2, 8, 0]),
    (7, [2, 0, 2, 0, 0, 0, -1], [1, 2, 8, 0]),
];

#[test]
fn each_call_fails_in_turn(rt: HostRuntime) -> Result<(), Fail> {
    let alloc = rt.alloc();
    for (failing, answers, bytes) in ROWS {
        let mut disk = MemoryDisk::new(alloc, [7, 7].to_vec(alloc)?, [failing].to_vec(alloc)?)?;
        let told = answers_of(&mut disk);
        let failed = disk
            .notes()
            .ok_or("all calls noted")?
            .iter()
            .filter(|note| note.failed)
            .count();
        same(
            &rt,
            &(told, disk.bytes(), failed, disk.faults()),
            &(
                answers,
                without_zeros(&bytes),
                failing.min(1) as usize,
                failing.min(1),
            ),
            &failing,
        );
    }
    Ok(())
}

/// The bytes but for as many at the end as there are zeros.
fn without_zeros(bytes: &[u8]) -> &[u8] {
    let count = bytes.iter().filter(|byte| **byte != 0).count();
    &bytes[..count.min(bytes.len())]
}

/// What seven calls answer: the size, a write, a read, a write behind the second byte, a cut to three bytes,
/// a sync and a read of the fourth byte.
fn answers_of(disk: &mut MemoryDisk) -> [i64; 7] {
    let mut buf = [0; 2];
    let size = number(disk.size());
    let first = done(disk.write_at(0, &[1, 2, 3]));
    let read = count(disk.read(1, &mut buf));
    let behind = disk.bytes().len().min(2) as u64;
    let second = done(disk.write_at(behind, &[8, 9]));
    let three = disk.bytes().len().min(3) as u64;
    let cut = done(disk.cut(three));
    let sync = done(disk.sync());
    let fourth = count(disk.read(3, &mut buf));
    [size, first, read, second, cut, sync, fourth]
}

/// An answer that is a number below 100.
fn number(answer: Result<u64, Failed>) -> i64 {
    match answer {
        Ok(number) => number.min(100) as i64,
        Err(_) => -1,
    }
}

fn count(answer: Result<usize, Failed>) -> i64 {
    match answer {
        Ok(count) => count.min(100) as i64,
        Err(_) => -1,
    }
}

fn done(answer: Result<(), Failed>) -> i64 {
    match answer {
        Ok(()) => 0,
        Err(_) => -1,
    }
}
