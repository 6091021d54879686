//! Where the disks of lanes and the texts come from.
ghost use Rattle.std.specs.Prelude.{◌≡◌, ◌≤◌, ◌<◌, ℕ, Bool, true, false, List, length, take};
ghost use Rattle.std.specs.Prelude.{Option, None, IfSome, IfOk, OnOk, OnErr};
ghost use Rattle.kb_base.specs.Faults.{Rose};
ghost use Rattle.kb_ports.specs.Notes.{Notes};
ghost use Rattle.kb_disk.specs.Places.{with_lane, SameLanes, SameFiles};
ghost use Rattle.kb_disk.specs.Told.{VaultTold};
ghost use Rattle.kb_disk.specs.Vaults.{IsCounted, Opens};

use crate::disk::Disk;
use crate::fault::FileFault;
use std::alloc::Global;

/// The most bytes that a text is read to: one more than the longest that a catalog's or an overdue text may
/// have.
pub const MAX_FILE: usize = 60_001;

/// Folders with a file for each lane, and texts.
pub trait Vault {
    type Disk: Disk + Send + Drop;

    /// What it tells: whether a lane of a folder is out; the bytes of a lane, where the object tells them,
    /// none
    /// of one that is out; the disks of a lane that came back, in order, each as it was then, where the
    /// object
    /// tells them; the bytes of a text, by its name, where the object tells them; and how many calls have
    /// failed, and how many disks had when they came back, a u64, which stands still at its last value.
    ghost told: { Self → VaultTold Self.Disk };

    /// Takes a lane of a folder out, and gives its disk, which has had no call. An empty file is made where
    /// there is none. A fault takes nothing out.
    fn lane(&mut self, alloc: Global, folder: &str, lane: u32) -> Result<Self::Disk, FileFault>
        requires inside { (told self.old).is_out folder.now lane ≡ false }
        ensures fresh { IfOk result (λ disk. Self.Disk.told.fault_count disk ≡ 0) }
        ensures unmoved { IfOk result (λ disk. Self.Disk.told.moment disk ≡ 0) }
        ensures opens { IfOk result (λ disk. IfSome ((told self.old).lane_bytes folder.now lane)
            (Opens Self.Disk.told.honest Self.Disk.told.seen Self.Disk.told.images disk)) }
        ensures out { OnOk result
            (SameLanes (told self.new).is_out (with_lane (told self.old).is_out folder.now lane true)) }
        ensures lanes { OnOk result
            (SameLanes (told self.new).lane_bytes
            (with_lane (told self.old).lane_bytes folder.now lane None)) }
        ensures same_out { OnErr result (SameLanes (told self.new).is_out (told self.old).is_out) }
        ensures same_lanes { OnErr result (SameLanes (told self.new).lane_bytes (told self.old).lane_bytes) }
        ensures same_back { SameLanes (told self.new).came_back (told self.old).came_back }
        ensures same_files { SameFiles (told self.new).file_bytes (told self.old).file_bytes }
        ensures cause { IsCounted (told self.old).faults (told self.new).faults result }
        ensures rising { (told self.old).faults ≤ (told self.new).faults };

    /// Takes a lane's disk back.
    fn back(&mut self, folder: &str, lane: u32, disk: Self::Disk)
        requires outside { (told self.old).is_out folder.now lane ≡ true }
        ensures inside { SameLanes (told self.new).is_out
            (with_lane (told self.old).is_out folder.now lane false) }
        ensures bytes { IfSome ((told self.new).lane_bytes folder.now lane) (λ bytes.
            bytes ≡ Self.Disk.told.seen disk) }
        ensures other_lanes { SameLanes (told self.new).lane_bytes
            (with_lane (told self.old).lane_bytes folder.now lane
            ((told self.new).lane_bytes folder.now lane)) }
        ensures noted { Notes ((told self.old).came_back folder.now lane) disk
            ((told self.new).came_back folder.now lane) }
        ensures others_back { SameLanes (told self.new).came_back
            (with_lane (told self.old).came_back folder.now lane ((told self.new).came_back folder.now lane)) }
        ensures same_files { SameFiles (told self.new).file_bytes (told self.old).file_bytes }
        ensures risen { 0 < Self.Disk.told.fault_count disk → Rose (told self.old).faults
            (told self.new).faults }
        ensures calm { Self.Disk.told.fault_count disk ≡ 0 → (told self.new).faults ≡ (told self.old).faults }
        ensures rising { (told self.old).faults ≤ (told self.new).faults };

    /// The first bytes of a text, at most `MAX_FILE`.
    fn file(&mut self, alloc: Global, name: &str) -> Result<Vec<u8>, FileFault>
        ensures bytes { IfOk result (λ bytes. IfSome ((told self.old).file_bytes name.now) (λ whole.
            bytes.items ≡ take MAX_FILE whole)) }
        ensures size { IfOk result (λ bytes. length bytes.items ≤ MAX_FILE) }
        ensures same_out { SameLanes (told self.new).is_out (told self.old).is_out }
        ensures same_lanes { SameLanes (told self.new).lane_bytes (told self.old).lane_bytes }
        ensures same_back { SameLanes (told self.new).came_back (told self.old).came_back }
        ensures same_files { SameFiles (told self.new).file_bytes (told self.old).file_bytes }
        ensures cause { IsCounted (told self.old).faults (told self.new).faults result }
        ensures rising { (told self.old).faults ≤ (told self.new).faults };

    /// Of a lane that is out no bytes are told.
    ghost untold: { (vault : Self) (folder : List ℕ) (lane : ℕ) → (told vault).is_out folder lane ≡ true
        → (told vault).lane_bytes folder lane ≡ None };
}
