//! Journals on disks in memory, as plain bytes and records.
ghost use Rattle.kb_journal.specs.Format.{IsSized};

use kb_base::NoMemory;
use kb_disk::MemoryDisk;
use kb_journal::{Journal, LoadFault, Records};
use std::alloc::Global;

/// The bytes of a journal of lane 0 of 1 with one record.
pub fn with_record(alloc: Global, record: &[u8]) -> Result<Vec<u8>, NoMemory>
    requires { IsSized record.now }
{
    let disk = MemoryDisk::new(alloc, Vec::new(alloc), Vec::new(alloc))?;
    let Ok(mut journal) = Journal::create(disk, 0, 1) else {
        return Err(NoMemory);
    };
    match journal.append(record) {
        Ok(_) => Ok(journal.into_disk().into_bytes()),
        Err(_) => Err(NoMemory),
    }
}

/// The records that bytes tell as a journal of a lane, and the number of lanes.
pub fn loaded(alloc: Global, bytes: &[u8], lane: u16) -> Result<(Records, u16), LoadFault> {
    let Ok(disk) = MemoryDisk::new(alloc, bytes.to_vec(alloc)?, Vec::new(alloc)) else {
        return Err(LoadFault::NoMemory);
    };
    match Journal::load(alloc, disk, lane) {
        Ok((journal, records)) => Ok((records, journal.lanes())),
        Err((fault, _)) => Err(fault),
    }
}

/// How many records bytes tell as a journal of lane 0.
pub fn count_of(alloc: Global, bytes: &[u8]) -> Result<usize, LoadFault> {
    match loaded(alloc, bytes, 0) {
        Ok((records, _)) => Ok(records.len()),
        Err(fault) => Err(fault),
    }
}
