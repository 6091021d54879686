//! Journals on files of the system.
use crate::compare::same;
use kb_disk::Disk;
use kb_journal::{CreateFault, Journal, LoadFault, Records};
use kb_system::FileDisk;
use std::fs::File;
use std::test::Fail;
use std::{fs, io};

/// A file as a disk, with or without what it holds.
fn disk_of(rt: &HostRuntime, name: &str, empty: bool) -> io::Result<FileDisk> {
    let file = File::options()
        .read(true)
        .write(true)
        .create(empty)
        .truncate(empty)
        .open(rt, name)?;
    Ok(FileDisk::new(file))
}

/// Makes a journal of lane 0 of 1 with three records on an empty file.
fn make_journal(rt: &HostRuntime, name: &str) -> Result<(), Fail> {
    let mut journal = match Journal::create(disk_of(rt, name, true)?, 0, 1) {
        Ok(journal) => journal,
        Err((fault, _)) => return Err(fault.into()),
    };
    journal.append(&[1])?;
    journal.append(&[2, 3])?;
    journal.append(&[4, 5, 6])?;
    Ok(())
}

/// The records of a journal of lane 0, and its disk; a fault also tells how many calls of the disk failed.
fn loaded(rt: &HostRuntime, disk: FileDisk) -> Result<(Records, FileDisk), (LoadFault, u64)> {
    match Journal::load(rt.alloc(), disk, 0) {
        Ok((journal, records)) => Ok((records, journal.into_disk())),
        Err((fault, disk)) => Err((fault, disk.faults())),
    }
}

#[test]
fn a_file_is_read_as_it_was_written(rt: HostRuntime) -> Result<(), Fail> {
    make_journal(&rt, "journal")?;
    let Ok((records, mut disk)) = loaded(&rt, disk_of(&rt, "journal", false)?) else {
        return Err("no journal".into());
    };
    let mut left = records.iter();
    let found = (left.next(), left.next(), left.next(), left.next());
    let wanted = (
        Some([1].as_slice()),
        Some([2, 3].as_slice()),
        Some([4, 5, 6].as_slice()),
        None,
    );
    same(&rt, &found, &wanted, &"");
    disk.cut(20)?;
    assert!(rt; matches!(loaded(&rt, disk), Err((LoadFault::NotAJournal(16), 0))));
    Ok(fs::remove_file(&rt, "journal")?)
}

#[test]
fn a_file_that_takes_no_write_is_a_fault(rt: HostRuntime) -> Result<(), Fail> {
    fs::write(&rt, "read_only", "")?;
    let disk = FileDisk::new(File::open(&rt, "read_only")?);
    let Err((fault, disk)) = Journal::create(disk, 0, 1) else {
        return Err("no fault".into());
    };
    same(
        &rt,
        &(fault, disk.faults()),
        &(CreateFault::DiskFault, 1),
        &"",
    );
    Ok(fs::remove_file(&rt, "read_only")?)
}

#[test]
fn a_file_that_takes_no_sync_is_a_fault(rt: HostRuntime) -> Result<(), Fail> {
    let disk = disk_of(&rt, "/dev/null", false)?;
    assert!(rt; matches!(loaded(&rt, disk), Err((LoadFault::DiskFault, 1))));
    Ok(())
}
