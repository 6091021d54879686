//! Reads of a whole disk.
ghost use Rattle.std.specs.Prelude.{◌≡◌, ◌≤◌, ◌<◌, IsTrue, IfOk, IfErr, OnOk, length, take};
ghost use Rattle.kb_base.specs.Faults.{HasCause};
ghost use Rattle.kb_disk.specs.Images.{Only};
ghost use Rattle.kb_journal.specs.declared.fault.LoadFault.TheVariants.{DiskFault};
ghost use Rattle.kb_journal.specs.Unwritten.{IsUnwritten};
ghost use Rattle.kb_journal.specs.Private.Parts.{StopsBefore};

use crate::fault::LoadFault;
use kb_base::Failed;
use kb_disk::Disk;
use std::alloc::{AllocError, Global};

/// All the bytes of a disk, which is synced first.
pub fn read_synced<D: Disk>(alloc: Global, disk: &mut D) -> Result<Vec<u8>, LoadFault>
    ensures bytes { IsTrue (D.told.honest disk.old) → IfOk result
        (λ bytes. bytes.items ≡ D.told.seen disk.old) }
    ensures durable { IsTrue (D.told.honest disk.old) → OnOk result
        (Only (D.told.seen disk.old) (D.told.images disk.new)) }
    ensures seen { IsTrue (D.told.honest disk.old) → OnOk result
        (D.told.seen disk.new ≡ D.told.seen disk.old) }
    ensures unwritten { IsUnwritten D.told.honest D.told.images D.told.moment D.told.left_since
        D.told.fault_count disk.old disk.new }
    ensures stops { IfErr result (StopsBefore D.told.honest D.told.seen D.told.fault_count disk.old disk.new) }
    ensures calm { OnOk result (D.told.fault_count disk.new ≡ D.told.fault_count disk.old) }
{
    if let Err(_) = disk.sync() {
        return Err(LoadFault::DiskFault);
    }
    read_all(alloc, disk)
}

/// All the bytes of a disk.
fn read_all<D: Disk>(alloc: Global, disk: &mut D) -> Result<Vec<u8>, LoadFault>
    ensures bytes { IsTrue (D.told.honest disk.old) → IfOk result
        (λ bytes. bytes.items ≡ D.told.seen disk.old) }
    ensures seen { IsTrue (D.told.honest disk.old) → D.told.seen disk.new ≡ D.told.seen disk.old }
    ensures unwritten { IsUnwritten D.told.honest D.told.images D.told.moment D.told.left_since
        D.told.fault_count disk.old disk.new }
    ensures stops { IfErr result (StopsBefore D.told.honest D.told.seen D.told.fault_count disk.old disk.new) }
    ensures calm { OnOk result (D.told.fault_count disk.new ≡ D.told.fault_count disk.old) }
{
    let Ok(size) = disk.size() else {
        return Err(LoadFault::DiskFault);
    };
    let mut bytes = zeros(alloc, size as usize)?;
    match fill(disk, &mut bytes) {
        Ok(count) => {
            bytes.truncate(count);
            Ok(bytes)
        }
        Err(_) => Err(LoadFault::DiskFault),
    }
}

/// Bytes 0, with no room for more.
fn zeros(alloc: Global, size: usize) -> Result<Vec<u8>, AllocError>
    ensures { IfOk result (λ bytes. length bytes.items ≡ size) }
{
    let mut bytes = Vec::with_capacity(alloc, size)?;
    bytes.resize(size, 0)?;
    Ok(bytes)
}

/// Reads from the start until the buffer is full or no byte comes, and says how many came.
fn fill<D: Disk>(disk: &mut D, buf: &mut [u8]) -> Result<usize, Failed>
    ensures read { IsTrue (D.told.honest disk.old)
        → IfOk result (λ count. take count buf.new ≡ take count (D.told.seen disk.old)) }
    ensures whole { IsTrue (D.told.honest disk.old) → length buf.old ≤ length (D.told.seen disk.old)
        → IfOk result (λ count. count ≡ length buf.old) }
    ensures in_range { IfOk result (λ count. count ≤ length buf.old) }
    ensures seen { IsTrue (D.told.honest disk.old) → D.told.seen disk.new ≡ D.told.seen disk.old }
    ensures unwritten { IsUnwritten D.told.honest D.told.images D.told.moment D.told.left_since
        D.told.fault_count disk.old disk.new }
    ensures cause { HasCause (D.told.fault_count disk.old) (D.told.fault_count disk.new) result }
    ensures calm { OnOk result (D.told.fault_count disk.new ≡ D.told.fault_count disk.old) }
{
    let mut filled = 0;
    while filled < buf.len() {
        let end = read_more(disk, buf, filled)?;
        if end == filled {
            return Ok(filled);
        }
        filled = end;
    }
    Ok(filled)
}

/// Reads once more, behind what is filled, and says up to where it is filled then.
fn read_more<D: Disk>(disk: &mut D, buf: &mut [u8], filled: usize) -> Result<usize, Failed>
    requires room { filled ≤ length buf.old }
    ensures read { IsTrue (D.told.honest disk.old) → take filled buf.old ≡ take filled (D.told.seen disk.old)
        → IfOk result (λ end. take end buf.new ≡ take end (D.told.seen disk.old)) }
    ensures more { IsTrue (D.told.honest disk.old) → filled < length buf.old → filled < length
        (D.told.seen disk.old)
        → IfOk result (λ end. filled < end) }
    ensures further { IfOk result (λ end. filled ≤ end) }
    ensures in_range { IfOk result (λ end. end ≤ length buf.old) }
    ensures seen { IsTrue (D.told.honest disk.old) → D.told.seen disk.new ≡ D.told.seen disk.old }
    ensures unwritten { IsUnwritten D.told.honest D.told.images D.told.moment D.told.left_since
        D.told.fault_count disk.old disk.new }
    ensures cause { HasCause (D.told.fault_count disk.old) (D.told.fault_count disk.new) result }
    ensures calm { OnOk result (D.told.fault_count disk.new ≡ D.told.fault_count disk.old) }
{
    match disk.read(filled as u64, &mut buf[filled..]) {
        Ok(count) => Ok(filled + count),
        Err(failed) => Err(failed),
    }
}
