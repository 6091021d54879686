//! No record, one, many, and the largest.
ghost use Rattle.kb_journal.specs.Format.{IsSized};

use crate::compare::same;
use crate::journal::journals::{loaded, with_record};
use kb_base::NoMemory;
use kb_disk::MemoryDisk;
use kb_journal::{Journal, LoadFault, Records};
use std::alloc::Global;
use std::test::Fail;

/// The bytes of a journal of lane 63 of 64 with so many records of four bytes, each its own number.
fn numbered(alloc: Global, count: u32) -> Result<Vec<u8>, NoMemory> {
    let disk = MemoryDisk::new(alloc, Vec::new(alloc), Vec::new(alloc))?;
    let Ok(mut journal) = Journal::create(disk, 63, 64) else {
        return Err(NoMemory);
    };
    for number in 0..count {
        if let Err(_) = journal.append(&number.to_be_bytes()) {
            return Err(NoMemory);
        }
    }
    Ok(journal.into_disk().into_bytes())
}

/// Whether each record is its own number.
fn are_numbered(records: &Records) -> bool {
    let mut number = 0_u32;
    for record in records.iter() {
        if record != number.to_be_bytes().as_slice() {
            return false;
        }
        number = number.wrapping_add(1);
    }
    true
}

#[test]
fn records_are_read_as_they_were_added(rt: HostRuntime) -> Result<(), Fail> {
    let alloc = rt.alloc();
    for count in [0, 1, 300] {
        let bytes = numbered(alloc, count)?;
        let (records, lanes) = loaded(alloc, &bytes, 63)?;
        same(
            &rt,
            &(records.len(), lanes, are_numbered(&records)),
            &(count as usize, 64, true),
            &"",
        );
    }
    Ok(())
}

/// Whether a journal of one record is read as this record.
fn is_read_back(alloc: Global, record: &[u8]) -> Result<bool, LoadFault>
    requires { IsSized record.now }
{
    let Ok(bytes) = with_record(alloc, record) else {
        return Err(LoadFault::NoMemory);
    };
    let (records, _) = loaded(alloc, &bytes, 0)?;
    Ok(records.len() == 1 && records.iter().next() == Some(record))
}

#[test]
fn the_largest_record(rt: HostRuntime) -> Result<(), Fail> {
    same(
        &rt,
        &(is_read_back(rt.alloc(), &[7; 65_536])),
        &Ok(true),
        &"",
    );
    Ok(())
}
