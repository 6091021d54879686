//! A file as the layers above see it: what a read gives, and what a crash may leave.
ghost use Rattle.std.specs.Prelude.{◌≡◌, ◌≤◌, ℕ, Bool, List, IsTrue, IfOk, OnOk, length, take};
ghost use Rattle.std.specs.Io.{ReadsAtMost};
ghost use Rattle.kb_base.specs.Faults.{HasCause};
ghost use Rattle.kb_disk.specs.Images.{overwritten, Gives, Torn, CutDown, Follows, IsAmong, Only};
ghost use Rattle.kb_disk.specs.Moments.{Elapses};
ghost use Rattle.kb_disk.specs.Told.{DiskTold};

use kb_base::Failed;

/// A file that one owner reads and writes. It may be cut short at any moment by a crash.
///
/// Between two syncs a crash may leave any bytes in each range that was written or lies past the old end; the
/// other bytes stay. After a sync that succeeds it leaves what a read gives. A disk that isn't honest tells
/// nothing of what its reads give.
pub trait Disk {
    /// What it tells: whether reads give what was written; the bytes that a read gives; what a crash at this
    /// moment may leave; the moment, as a number that doesn't fall; what a crash at some moment from one on
    /// may
    /// have left, within a call or between two; and how many calls have failed, a u64, which stands still at
    /// its last value.
    ghost told: { DiskTold Self };

    /// The number of bytes.
    fn size(&mut self) -> Result<u64, Failed>
        ensures size { IsTrue (told.honest self.old) → IfOk result
            (λ size. size ≡ length (told.seen self.old)) }
        ensures seen { IsTrue (told.honest self.old) → told.seen self.new ≡ told.seen self.old }
        ensures crash { IsAmong (told.images self.new) (told.images self.old) }
        ensures honesty { told.honest self.new ≡ told.honest self.old }
        ensures time { Elapses (told.moment self.old) (told.moment self.new) (told.left_since self.old)
            (told.left_since self.new) (told.images self.new) }
        ensures cause { HasCause (told.fault_count self.old) (told.fault_count self.new) result }
        ensures calm { OnOk result (told.fault_count self.new ≡ told.fault_count self.old) }
        ensures rising { told.fault_count self.old ≤ told.fault_count self.new };

    /// Reads some of the bytes at a place into the front of `buf`, and says how many: at least one, if there
    /// is one and `buf` isn't empty, and 0 from the size on.
    fn read(&mut self, at: u64, buf: &mut [u8]) -> Result<usize, Failed>
        ensures bytes { IsTrue (told.honest self.old) → IfOk result (Gives (told.seen self.old) at buf.new) }
        ensures count { ReadsAtMost result buf.new }
        ensures seen { IsTrue (told.honest self.old) → told.seen self.new ≡ told.seen self.old }
        ensures crash { IsAmong (told.images self.new) (told.images self.old) }
        ensures honesty { told.honest self.new ≡ told.honest self.old }
        ensures time { Elapses (told.moment self.old) (told.moment self.new) (told.left_since self.old)
            (told.left_since self.new) (told.images self.new) }
        ensures cause { HasCause (told.fault_count self.old) (told.fault_count self.new) result }
        ensures calm { OnOk result (told.fault_count self.new ≡ told.fault_count self.old) }
        ensures rising { told.fault_count self.old ≤ told.fault_count self.new };

    /// Writes all the bytes at a place, over what is there and past the end. A call that fails may have
    /// written some of them.
    fn write_at(&mut self, at: u64, bytes: &[u8]) -> Result<(), Failed>
        requires in_range { IsTrue (told.honest self.old) → at ≤ length (told.seen self.old) }
        ensures written { IsTrue (told.honest self.old)
            → OnOk result (told.seen self.new ≡ overwritten (told.seen self.old) at bytes.now) }
        ensures crash { Follows (Torn at (length bytes.now)) (told.images self.old) (told.images self.new) }
        ensures honesty { told.honest self.new ≡ told.honest self.old }
        ensures time { Elapses (told.moment self.old) (told.moment self.new) (told.left_since self.old)
            (told.left_since self.new) (told.images self.new) }
        ensures cause { HasCause (told.fault_count self.old) (told.fault_count self.new) result }
        ensures calm { OnOk result (told.fault_count self.new ≡ told.fault_count self.old) }
        ensures rising { told.fault_count self.old ≤ told.fault_count self.new };

    /// Cuts the file to a size.
    fn cut(&mut self, size: u64) -> Result<(), Failed>
        requires in_range { IsTrue (told.honest self.old) → size ≤ length (told.seen self.old) }
        ensures shortened { IsTrue (told.honest self.old)
            → OnOk result (told.seen self.new ≡ take size (told.seen self.old)) }
        ensures crash { Follows (CutDown size) (told.images self.old) (told.images self.new) }
        ensures honesty { told.honest self.new ≡ told.honest self.old }
        ensures time { Elapses (told.moment self.old) (told.moment self.new) (told.left_since self.old)
            (told.left_since self.new) (told.images self.new) }
        ensures cause { HasCause (told.fault_count self.old) (told.fault_count self.new) result }
        ensures calm { OnOk result (told.fault_count self.new ≡ told.fault_count self.old) }
        ensures rising { told.fault_count self.old ≤ told.fault_count self.new };

    /// Waits until all is on the disk: if it succeeds, a crash leaves what a read gives.
    fn sync(&mut self) -> Result<(), Failed>
        ensures durable { OnOk result (Only (told.seen self.old) (told.images self.new)) }
        ensures seen { IsTrue (told.honest self.old) → OnOk result (told.seen self.new ≡ told.seen self.old) }
        ensures crash { IsAmong (told.images self.new) (told.images self.old) }
        ensures honesty { told.honest self.new ≡ told.honest self.old }
        ensures time { Elapses (told.moment self.old) (told.moment self.new) (told.left_since self.old)
            (told.left_since self.new) (told.images self.new) }
        ensures cause { HasCause (told.fault_count self.old) (told.fault_count self.new) result }
        ensures calm { OnOk result (told.fault_count self.new ≡ told.fault_count self.old) }
        ensures rising { told.fault_count self.old ≤ told.fault_count self.new };

    /// How many calls have failed.
    fn faults(&self) -> u64
        ensures { result ≡ told.fault_count self.now };

    /// What a read gives is one of the images.
    ghost seen_is_image: { (disk : Self) → IsTrue (told.honest disk) → told.images disk (told.seen disk) };

    /// This moment is one of those since an earlier one.
    ghost counts_now: { (disk : Self) (time : ℕ) (image : List ℕ) → time ≤ told.moment disk → told.images
        disk image
        → told.left_since disk time image };

    /// Since this moment there is no other.
    ghost only_now: { (disk : Self) (image : List ℕ) → told.left_since disk (told.moment disk) image
        → told.images disk image };
}
