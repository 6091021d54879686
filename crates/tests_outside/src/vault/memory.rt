//! A vault in memory: what it gives, and which calls fail.

use crate::compare::same;
use crate::vault::keeping::kept_by;
use kb_disk::{Disk, FileFault, LaneFile, MemoryVault, TextFile, Vault};
use std::alloc::{AllocError, Global};
use std::test::Fail;

#[test]
fn a_lane_keeps_what_was_written(rt: HostRuntime) -> Result<(), Fail> {
    let alloc = rt.alloc();
    let mut vault = MemoryVault::new(Vec::new(alloc), Vec::new(alloc), Vec::new(alloc));
    same(&rt, &(kept_by(&mut vault, alloc)?), &(2, [7, 8, 0]), &"");
    Ok(())
}

/// The number of the call of the vault that fails, that of a disk's call that fails, what a text and a lane
/// answer (-1 for a fault), and how many faults are counted.
const ROWS: [(u64, u64, i64, i64, u64); 5] = [
    (0, 0, 60_001, 3, 0),
    (1, 0, -1, 3, 1),
    (2, 0, 60_001, -1, 1),
    (0, 1, 60_001, 3, 1),
    (1, 1, -1, 3, 2),
];

#[test]
fn each_call_fails_in_turn(rt: HostRuntime) -> Result<(), Fail> {
    let alloc = rt.alloc();
    for (failing, of_disk, text, lane, faults) in ROWS {
        let (told, counted) = answers(alloc, failing, of_disk)?;
        same(
            &rt,
            &(told, counted),
            &((text, lane), faults),
            &(failing, of_disk),
        );
    }
    Ok(())
}

/// What a text of 60,002 bytes and a lane of three answer, and how many faults are counted.
fn answers(alloc: Global, failing: u64, of_disk: u64) -> Result<((i64, i64), u64), AllocError> {
    let file = LaneFile::new(
        "shop".to_string(alloc)?,
        3,
        [7, 8, 9].to_vec(alloc)?,
        [of_disk].to_vec(alloc)?,
    );
    let text = TextFile::new("catalog".to_string(alloc)?, vec![in alloc; 7; 60_002]?);
    let mut vault = MemoryVault::new(
        vec![in alloc; file]?,
        vec![in alloc; text]?,
        [failing].to_vec(alloc)?,
    );
    let read = match vault.file(alloc, "catalog") {
        Ok(bytes) => bytes.len().min(100_000) as i64,
        Err(fault) => number_of(fault),
    };
    let size = match vault.lane(alloc, "shop", 3) {
        Ok(mut disk) => {
            let size = disk.bytes().len().min(100) as i64;
            let _synced = disk.sync();
            vault.back("shop", 3, disk);
            size
        }
        Err(fault) => number_of(fault),
    };
    Ok(((read, size), vault.faults()))
}

fn number_of(fault: FileFault) -> i64 {
    match fault {
        FileFault::Failed => -1,
        FileFault::NoMemory => -2,
    }
}
