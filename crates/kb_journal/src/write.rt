//! Writes to a disk that are on it before they return.
ghost use Rattle.std.specs.Prelude.{◌≡◌, ◌≤◌, ◌+◌, ◌<◌, ◌^◌, ℕ, List, [], ◌∷◌, ◌++◌, IsTrue, OnOk, length};
ghost use Rattle.kb_base.specs.Faults.{HasCause};
ghost use Rattle.kb_disk.specs.Images.{overwritten, Torn, Only};
ghost use Rattle.kb_disk.specs.Moments.{AtEachMoment};
ghost use Rattle.kb_journal.specs.Format.{framed, IsSized, IsWithOrWithout};
ghost use Rattle.kb_journal.specs.Keeping.{Keeps};

use crate::block::{MAX_BLOCK, fill_block};
use kb_base::Failed;
use kb_disk::Disk;

/// Writes bytes at a place and syncs.
pub fn write_through<D: Disk>(disk: &mut D, at: u64, bytes: &[u8]) -> Result<(), Failed>
    requires in_range { IsTrue (D.told.honest disk.old) → at ≤ length (D.told.seen disk.old) }
    ensures written { IsTrue (D.told.honest disk.old)
        → OnOk result (D.told.seen disk.new ≡ overwritten (D.told.seen disk.old) at bytes.now) }
    ensures durable { IsTrue (D.told.honest disk.old) → OnOk result
        (Only (D.told.seen disk.new) (D.told.images disk.new)) }
    ensures moments { Only (D.told.seen disk.old) (D.told.images disk.old)
        → AtEachMoment D.told.moment D.told.left_since disk.old disk.new
        (Torn at (length bytes.now) (D.told.seen disk.old)) }
    ensures honesty { D.told.honest disk.new ≡ D.told.honest disk.old }
    ensures cause { HasCause (D.told.fault_count disk.old) (D.told.fault_count disk.new) result }
    ensures calm { OnOk result (D.told.fault_count disk.new ≡ D.told.fault_count disk.old) }
    ensures rising { D.told.fault_count disk.old ≤ D.told.fault_count disk.new }
{
    if let Err(failed) = disk.write_at(at, bytes) {
        return Err(failed);
    }
    disk.sync()
}

/// Adds a record behind the last gate, which stands at this place.
pub fn write_record<D: Disk>(disk: &mut D, gate: u64, bytes: &[u8]) -> Result<(), Failed>
    requires sized { IsSized bytes.now }
    requires in_range { gate < 2 ^ 63 }
    requires there { IsTrue (D.told.honest disk.old) → gate + 1 ≤ length (D.told.seen disk.old) }
    ensures kept { (lanes lane : ℕ) (records : List (List ℕ))
        → Keeps D.told.honest D.told.seen D.told.images disk.old lanes lane gate records
        → OnOk result (Keeps D.told.honest D.told.seen D.told.images disk.new lanes lane
        (gate + (length bytes.now + 5))
        (records ++ bytes.now ∷ [])) }
    ensures moments { (lanes lane : ℕ) (records : List (List ℕ))
        → Keeps D.told.honest D.told.seen D.told.images disk.old lanes lane gate records
        → AtEachMoment D.told.moment D.told.left_since disk.old disk.new
        (IsWithOrWithout lanes lane records bytes.now) }
    ensures room { IsTrue (D.told.honest disk.old)
        → OnOk result (gate + length bytes.now + 6 ≤ length (D.told.seen disk.new)) }
    ensures honesty { D.told.honest disk.new ≡ D.told.honest disk.old }
    ensures cause { HasCause (D.told.fault_count disk.old) (D.told.fault_count disk.new) result }
    ensures calm { OnOk result (D.told.fault_count disk.new ≡ D.told.fault_count disk.old) }
    ensures rising { D.told.fault_count disk.old ≤ D.told.fault_count disk.new }
{
    if let Err(failed) = write_block(disk, gate + 1, bytes) {
        return Err(failed);
    }
    // The gate is opened last: until then a crash leaves the records as they were.
    write_through(disk, gate, &[1])
}

/// The most bytes of a record that is short: nearly every one is.
const SHORT_RECORD: usize = 507;

/// Writes the block of a record at a place and syncs. A short one is made in a small room, since a room is
/// filled with zeros first.
fn write_block<D: Disk>(disk: &mut D, at: u64, bytes: &[u8]) -> Result<(), Failed>
    requires sized { IsSized bytes.now }
    requires in_range { IsTrue (D.told.honest disk.old) → at ≤ length (D.told.seen disk.old) }
    ensures written { IsTrue (D.told.honest disk.old)
        → OnOk result (D.told.seen disk.new ≡ overwritten (D.told.seen disk.old) at
        (framed bytes.now ++ 0 ∷ [])) }
    ensures durable { IsTrue (D.told.honest disk.old) → OnOk result
        (Only (D.told.seen disk.new) (D.told.images disk.new)) }
    ensures moments { Only (D.told.seen disk.old) (D.told.images disk.old)
        → AtEachMoment D.told.moment D.told.left_since disk.old disk.new
        (Torn at (length bytes.now + 5) (D.told.seen disk.old)) }
    ensures honesty { D.told.honest disk.new ≡ D.told.honest disk.old }
    ensures cause { HasCause (D.told.fault_count disk.old) (D.told.fault_count disk.new) result }
    ensures calm { OnOk result (D.told.fault_count disk.new ≡ D.told.fault_count disk.old) }
    ensures rising { D.told.fault_count disk.old ≤ D.told.fault_count disk.new }
{
    if bytes.len() <= SHORT_RECORD {
        return write_in(disk, at, &mut [0; SHORT_RECORD + 5], bytes);
    }
    write_in(disk, at, &mut [0; MAX_BLOCK], bytes)
}

/// Makes the block of a record in a room for it, writes it at a place and syncs.
fn write_in<D: Disk>(disk: &mut D, at: u64, room: &mut [u8], bytes: &[u8]) -> Result<(), Failed>
    requires sized { IsSized bytes.now }
    requires fits { length bytes.now + 5 ≤ length room.old }
    requires in_range { IsTrue (D.told.honest disk.old) → at ≤ length (D.told.seen disk.old) }
    ensures written { IsTrue (D.told.honest disk.old)
        → OnOk result (D.told.seen disk.new ≡ overwritten (D.told.seen disk.old) at
        (framed bytes.now ++ 0 ∷ [])) }
    ensures durable { IsTrue (D.told.honest disk.old) → OnOk result
        (Only (D.told.seen disk.new) (D.told.images disk.new)) }
    ensures moments { Only (D.told.seen disk.old) (D.told.images disk.old)
        → AtEachMoment D.told.moment D.told.left_since disk.old disk.new
        (Torn at (length bytes.now + 5) (D.told.seen disk.old)) }
    ensures honesty { D.told.honest disk.new ≡ D.told.honest disk.old }
    ensures cause { HasCause (D.told.fault_count disk.old) (D.told.fault_count disk.new) result }
    ensures calm { OnOk result (D.told.fault_count disk.new ≡ D.told.fault_count disk.old) }
    ensures rising { D.told.fault_count disk.old ≤ D.told.fault_count disk.new }
{
    fill_block(room, bytes);
    write_through(disk, at, &room[..bytes.len() + 5])
}
