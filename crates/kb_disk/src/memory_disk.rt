//! A disk in memory.
ghost use Rattle.std.specs.Prelude.{◌≡◌, ◌≤◌, ◌+◌, ◌↔◌, ◌++◌, min, true, length, take, drop, option_map};
ghost use Rattle.std.specs.Prelude.{is_err, IsErr, IsTrue, IfOk, OnErr, OnOk};
ghost use Rattle.std.specs.Io.{ReadsAtMost};
ghost use Rattle.kb_base.specs.Faults.{HasCause};
ghost use Rattle.kb_disk.specs.declared.note.DiskCall.TheVariants.{Size, Read, Write, Cut, Sync};
ghost use Rattle.kb_disk.specs.Images.{overwritten, Gives, Torn, CutDown, Follows, IsAmong, Only};
ghost use Rattle.kb_disk.specs.Moments.{Elapses};
ghost use Rattle.kb_disk.specs.Memory as memory;
ghost use Rattle.kb_disk.specs.Private.Replays.{seen_is_image, counts_now, only_now};

use crate::disk::Disk;
use crate::log::Log;
use crate::note::{DiskCall, DiskNote};
use kb_base::{Failed, NoMemory, Seq};
use std::alloc::{AllocError, Global};
use std::marker::Model;

/// A disk in memory, which notes each call. The calls of some numbers fail, and once there is no room for a
/// note or for bytes, all do. A call that fails changes no byte.
pub struct MemoryDisk {
    alloc: Global,
    first: Vec<u8>,
    bytes: Vec<u8>,
    log: Log,
}

impl Model for MemoryDisk {
    ghost use Rattle.std.specs.Prelude.{◌≡◌};
    ghost use Rattle.kb_disk.specs.Memory.{DiskValue, bytes_after};

    ghost Value = { DiskValue };

    ghost view = { λ disk. record { first = disk.first.items; log = disk.log } };

    ghost invariant = { λ disk. disk.bytes.items ≡ bytes_after disk.first.items disk.log.notes };
}

impl Drop for MemoryDisk {
    /// Drops its bytes and its notes. No crate above has to show again how that is dropped.
    fn drop(self) {
        let MemoryDisk {
            alloc: _alloc,
            first: _first,
            bytes: _bytes,
            log: _log,
        } = self;
    }
}

impl MemoryDisk {
    /// A disk of these bytes, all of them synced. The calls of the numbers `failing`, counted from 1, fail.
    pub fn new(alloc: Global, bytes: Vec<u8>, failing: Vec<u64>) -> Result<MemoryDisk, NoMemory>
        ensures { IfOk result (λ disk. disk ≡ memory.fresh bytes.items failing.items) }
    {
        Ok(MemoryDisk {
            alloc,
            first: bytes.to_vec(alloc)?,
            bytes,
            log: Log::new(alloc, failing),
        })
    }

    /// The bytes that a read gives.
    pub fn bytes(&self) -> &[u8]
        ensures { result.now ≡ memory.seen self.now }
    {
        &self.bytes
    }

    /// The bytes that a read gives.
    pub fn into_bytes(self) -> Vec<u8>
        ensures { result.items ≡ memory.seen self }
    {
        let MemoryDisk {
            alloc: _alloc,
            first: _first,
            bytes,
            log: _log,
        } = self;
        bytes
    }

    /// All calls so far, failed ones too; none once a note or bytes found no room.
    pub fn notes(&self) -> Option<&[DiskNote]>
        ensures { option_map (λ notes. notes.now) result ≡ memory.told self.now.log }
    {
        if self.log.is_lost() {
            return None;
        }
        Some(self.log.notes())
    }
}

impl Disk for MemoryDisk {
    ghost told = { memory.memory_told };

    fn size(&mut self) -> Result<u64, Failed>
        ensures size { IfOk result (λ size. size ≡ length (memory.seen self.old)) }
        ensures seen { memory.seen self.new ≡ memory.seen self.old }
        ensures crash { IsAmong (memory.images self.new) (memory.images self.old) }
        ensures time { Elapses (memory.moment self.old) (memory.moment self.new)
            (memory.left_since self.old) (memory.left_since self.new) (memory.images self.new) }
        ensures cause { HasCause self.old.log.faults self.new.log.faults result }
        ensures calm { OnOk result (self.new.log.faults ≡ self.old.log.faults) }
        ensures rising { self.old.log.faults ≤ self.new.log.faults }
        ensures fails { IsErr result ↔ memory.Fails self.old.log self.new.log }
        ensures noted { self.new ≡ memory.after self.old Size (is_err result) self.new.log.lost }
        ensures stays { IsTrue self.old.log.lost → IsTrue self.new.log.lost }
    {
        self.log.note(DiskCall::Size)?;
        Ok(self.bytes.len() as u64)
    }

    /// Reads as many bytes as there are and fit.
    fn read(&mut self, at: u64, buf: &mut [u8]) -> Result<usize, Failed>
        ensures bytes { IfOk result (Gives (memory.seen self.old) at buf.new) }
        ensures count { ReadsAtMost result buf.new }
        ensures seen { memory.seen self.new ≡ memory.seen self.old }
        ensures crash { IsAmong (memory.images self.new) (memory.images self.old) }
        ensures time { Elapses (memory.moment self.old) (memory.moment self.new)
            (memory.left_since self.old) (memory.left_since self.new) (memory.images self.new) }
        ensures cause { HasCause self.old.log.faults self.new.log.faults result }
        ensures calm { OnOk result (self.new.log.faults ≡ self.old.log.faults) }
        ensures rising { self.old.log.faults ≤ self.new.log.faults }
        ensures fails { IsErr result ↔ memory.Fails self.old.log self.new.log }
        ensures noted { self.new
            ≡ memory.after self.old (Read at (length buf.old)) (is_err result) self.new.log.lost }
        ensures stays { IsTrue self.old.log.lost → IsTrue self.new.log.lost }
        ensures all { IfOk result (λ count. count
            ≡ min (length (drop at (memory.seen self.old))) (length buf.old)) }
        ensures filled { IfOk result (λ count. buf.new
            ≡ take count (drop at (memory.seen self.old)) ++ drop count buf.old) }
        ensures untouched { OnErr result (buf.new ≡ buf.old) }
    {
        let len = buf.len() as u64;
        self.log.note(DiskCall::Read { at, len })?;
        Ok(copy_from(&self.bytes, at as usize, buf))
    }

    fn write_at(&mut self, at: u64, bytes: &[u8]) -> Result<(), Failed>
        requires in_range { at ≤ length (memory.seen self.old) }
        ensures written { OnOk result
            (memory.seen self.new ≡ overwritten (memory.seen self.old) at bytes.now) }
        ensures crash { Follows (Torn at (length bytes.now)) (memory.images self.old)
            (memory.images self.new) }
        ensures time { Elapses (memory.moment self.old) (memory.moment self.new)
            (memory.left_since self.old) (memory.left_since self.new) (memory.images self.new) }
        ensures cause { HasCause self.old.log.faults self.new.log.faults result }
        ensures calm { OnOk result (self.new.log.faults ≡ self.old.log.faults) }
        ensures rising { self.old.log.faults ≤ self.new.log.faults }
        ensures fails { IsErr result ↔ memory.Fails self.old.log self.new.log }
        ensures noted { self.new
            ≡ memory.after self.old (Write at bytes.now) (is_err result) self.new.log.lost }
        ensures stays { IsTrue self.old.log.lost → IsTrue self.new.log.lost }
    {
        let start = at as usize;
        let size = self.bytes.len();
        let Ok(copy) = bytes.to_vec(self.alloc) else {
            return Err(self.log.lose());
        };
        if grow(&mut self.bytes, start, bytes).is_err() {
            return Err(self.log.lose());
        }
        let call = DiskCall::Write {
            at,
            bytes: Seq::from_vec(copy),
        };
        if let Err(failed) = self.log.note(call) {
            self.bytes.truncate(size);
            return Err(failed);
        }
        overwrite(&mut self.bytes, start, bytes);
        Ok(())
    }

    fn cut(&mut self, size: u64) -> Result<(), Failed>
        requires in_range { size ≤ length (memory.seen self.old) }
        ensures shortened { OnOk result (memory.seen self.new ≡ take size (memory.seen self.old)) }
        ensures crash { Follows (CutDown size) (memory.images self.old) (memory.images self.new) }
        ensures time { Elapses (memory.moment self.old) (memory.moment self.new)
            (memory.left_since self.old) (memory.left_since self.new) (memory.images self.new) }
        ensures cause { HasCause self.old.log.faults self.new.log.faults result }
        ensures calm { OnOk result (self.new.log.faults ≡ self.old.log.faults) }
        ensures rising { self.old.log.faults ≤ self.new.log.faults }
        ensures fails { IsErr result ↔ memory.Fails self.old.log self.new.log }
        ensures noted { self.new ≡ memory.after self.old (Cut size) (is_err result) self.new.log.lost }
        ensures stays { IsTrue self.old.log.lost → IsTrue self.new.log.lost }
    {
        self.log.note(DiskCall::Cut { size })?;
        self.bytes.truncate(size as usize);
        Ok(())
    }

    fn sync(&mut self) -> Result<(), Failed>
        ensures durable { OnOk result (Only (memory.seen self.old) (memory.images self.new)) }
        ensures seen { OnOk result (memory.seen self.new ≡ memory.seen self.old) }
        ensures crash { IsAmong (memory.images self.new) (memory.images self.old) }
        ensures time { Elapses (memory.moment self.old) (memory.moment self.new)
            (memory.left_since self.old) (memory.left_since self.new) (memory.images self.new) }
        ensures cause { HasCause self.old.log.faults self.new.log.faults result }
        ensures calm { OnOk result (self.new.log.faults ≡ self.old.log.faults) }
        ensures rising { self.old.log.faults ≤ self.new.log.faults }
        ensures fails { IsErr result ↔ memory.Fails self.old.log self.new.log }
        ensures noted { self.new ≡ memory.after self.old Sync (is_err result) self.new.log.lost }
        ensures stays { IsTrue self.old.log.lost → IsTrue self.new.log.lost }
    {
        self.log.note(DiskCall::Sync)
    }

    fn faults(&self) -> u64 {
        self.log.faults()
    }

    ghost seen_is_image = { λ disk honest. seen_is_image disk };

    ghost counts_now = { counts_now };

    ghost only_now = { only_now };
}

/// Copies as many of the bytes from a place on as there are and fit, and says how many.
fn copy_from(bytes: &[u8], at: usize, buf: &mut [u8]) -> usize
    ensures count { result ≡ min (length (drop at bytes.now)) (length buf.old) }
    ensures filled { buf.new ≡ take result (drop at bytes.now) ++ drop result buf.old }
    ensures given { Gives bytes.now at buf.new result }
{
    let rest = &bytes[at.min(bytes.len())..];
    let count = rest.len().min(buf.len());
    buf[..count].copy_from_slice(&rest[..count]);
    count
}

/// Makes the bytes long enough for others at a place, by the end of these.
#[tactic(auto, using(crate::specs::Private::Steps::overwritten_grown))]
fn grow(old: &mut Vec<u8>, at: usize, bytes: &[u8]) -> Result<(), AllocError>
    requires in_range { at ≤ length old.old.items }
    ensures room { OnOk result (at + length bytes.now ≤ length old.new.items) }
    ensures front { OnOk result (take (length old.old.items) old.new.items ≡ old.old.items) }
    ensures same { OnOk result (overwritten old.new.items at bytes.now
        ≡ overwritten old.old.items at bytes.now) }
    ensures err { OnErr result (old.new.items ≡ old.old.items) }
{
    let inside = bytes.len().min(old.len() - at);
    old.extend_from_slice(&bytes[inside..])
}

/// Writes over the bytes at a place.
fn overwrite(old: &mut Vec<u8>, at: usize, bytes: &[u8])
    requires in_range { at + length bytes.now ≤ length old.old.items }
    ensures { old.new.items ≡ overwritten old.old.items at bytes.now }
{
    old[at..at + bytes.len()].copy_from_slice(bytes);
}
