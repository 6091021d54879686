//! The worked journal of one record, and what its bytes tell when they are cut or changed.

use crate::compare::same;
use crate::journal::journals::{count_of, with_record};
use kb_journal::LoadFault;
use std::test::Fail;

/// A command of 14 bytes, as a record.
fn command() -> [u8; 14] {
    *b"\x00\x00\x4d\x5f\x07\x02a1\x02k9\x02s1"
}

/// The journal of lane 0 of 1 with that record.
fn worked() -> [u8; 36] {
    *b"KBJRNL01\x00\x01\x00\x00\x00\x00\x00\x00\x01\x00\x00\x00\x0e\x00\x00\x4d\x5f\x07\x02a1\x02k9\x02s1\x00"
}

#[test]
fn one_record_makes_36_bytes(rt: HostRuntime) -> Result<(), Fail> {
    let alloc = rt.alloc();
    let bytes = with_record(alloc, &command())?;
    same(&rt, &bytes.as_slice(), &worked().as_slice(), &"");
    Ok(())
}

#[test]
fn the_file_is_cut_to_each_length(rt: HostRuntime) -> Result<(), Fail> {
    let alloc = rt.alloc();
    let bytes = worked();
    for len in 0..37 {
        let told = match len {
            0..17 => Err(LoadFault::NotAJournal(0)),
            17..36 => Err(LoadFault::NotAJournal(16)),
            _ => Ok(1),
        };
        same(&rt, &(count_of(alloc, &bytes[..len])), &told, &len);
    }
    Ok(())
}

#[test]
fn each_byte_is_changed(rt: HostRuntime) -> Result<(), Fail> {
    let alloc = rt.alloc();
    for place in 0..36 {
        for value in [0, 1, 2, 255] {
            let mut bytes = worked();
            bytes[place] = value;
            same(
                &rt,
                &(count_of(alloc, &bytes)),
                &(told_of(place, value)),
                &(value, place),
            );
        }
    }
    Ok(())
}

/// What the worked journal tells with this value at a place.
fn told_of(place: usize, value: u8) -> Result<usize, LoadFault> {
    match (place, value) {
        (0..8, _) => Err(LoadFault::NotAJournal(0)),
        (8, 1..) | (9, 0 | 255) => Err(LoadFault::NotAJournal(8)),
        (10 | 11, 1..) => Err(LoadFault::NotAJournal(10)),
        (12..16, 1..) => Err(LoadFault::NotAJournal(12)),
        (16, 0 | 2..) => Ok(0),
        (17..20, 1..) | (20, 0 | 255) => Err(LoadFault::NotAJournal(16)),
        // An open gate behind the record, and no byte behind it.
        (35, 1) => Err(LoadFault::NotAJournal(35)),
        _ => Ok(1),
    }
}
