//! A vault in memory.
ghost use Rattle.std.specs.Prelude.{◌≡◌, ◌≤◌, ◌<◌, ◌↔◌, ◌∷◌, ◌++◌, [], true, false, Some, None, length, take};
ghost use Rattle.std.specs.Prelude.{IsTrue, IfSome, IfOk, OnOk, OnErr};
ghost use Rattle.kb_base.specs.Faults.{next_count, Rose};
ghost use Rattle.kb_ports.specs.Memory.{fails_next};
ghost use Rattle.kb_disk.specs.Memory.{seen, images, moment};
ghost use Rattle.kb_disk.specs.Places.{with_lane, SameLanes};
ghost use Rattle.kb_disk.specs.Vaults.{IsCounted, Opens};
ghost use Rattle.kb_disk.specs.VaultMemory as memory;
ghost use Rattle.kb_disk.specs.Private.Untold.{none_told};

use crate::disk::Disk;
use crate::fault::FileFault;
use crate::lane_file::LaneFile;
use crate::lane_files::LaneFiles;
use crate::memory_disk::MemoryDisk;
use crate::text_file::{TextFile, first_bytes};
use crate::vault::{MAX_FILE, Vault};
use kb_ports::Calls;
use std::alloc::Global;
use std::marker::Model;

/// A vault in memory, with the numbers of the calls for a lane or a text that are to fail. A lane or a text
/// that isn't among its contents is empty.
pub struct MemoryVault {
    lanes: LaneFiles,
    texts: Vec<TextFile>,
    calls: Calls,
}

impl Model for MemoryVault {
    ghost use Rattle.kb_disk.specs.VaultMemory.{VaultValue};

    ghost Value = { VaultValue };

    ghost view = { λ vault. record {
      lanes = vault.lanes;
      texts = vault.texts.items;
      failing = vault.calls.failing.items;
      calls = vault.calls.made;
      faults = vault.calls.faults;
    } };
}

impl Drop for MemoryVault {
    /// Drops its files. No crate above has to show again how that is dropped.
    fn drop(self) {
        let MemoryVault {
            lanes: _lanes,
            texts: _texts,
            calls: _calls,
        } = self;
    }
}

impl MemoryVault {
    /// A vault of these files. The calls of the numbers `failing`, counted from 1, fail.
    pub fn new(lanes: Vec<LaneFile>, texts: Vec<TextFile>, failing: Vec<u64>) -> MemoryVault
        ensures { result ≡ memory.new_vault lanes.items texts.items failing.items }
    {
        MemoryVault {
            lanes: LaneFiles::new(lanes),
            texts,
            calls: Calls::new(failing),
        }
    }

    /// How many calls have failed, and how many disks had when they came back.
    pub fn faults(&self) -> u64
        ensures { result ≡ self.now.faults }
    {
        self.calls.faults.number()
    }

    /// Counts a disk that came back with so many failed calls.
    fn count_disk(&mut self, failed: u64)
        ensures counted { self.new ≡ record self.old {
          faults = memory.count_back self.old.faults failed;
        } }
        ensures risen { 0 < failed → Rose self.old.faults self.new.faults }
        ensures rising { self.old.faults ≤ self.new.faults }
    {
        if failed > 0 {
            self.calls.fault();
        }
    }
}

impl Vault for MemoryVault {
    type Disk = MemoryDisk;

    ghost told = { memory.vault_told };

    /// It fails exactly by its list.
    #[tactic(auto, using(crate::proofs::Tellings::tellings))]
    fn lane(&mut self, alloc: Global, folder: &str, lane: u32) -> Result<MemoryDisk, FileFault>
        requires inside { memory.is_out self.old.lanes folder.now lane ≡ false }
        ensures disk { IfOk result (λ disk.
            disk ≡ memory.disk_of (memory.file_of self.old.lanes folder.now lane)) }
        ensures fresh { IfOk result (λ disk. disk.log.faults ≡ 0) }
        ensures unmoved { IfOk result (λ disk. moment disk ≡ 0) }
        ensures opens { IfOk result (λ disk. IfSome (memory.bytes_of self.old.lanes folder.now lane)
            (Opens (λ disk. true) seen images disk)) }
        ensures ok { OnOk result (self.new ≡ record self.old {
          lanes = memory.with_bytes self.old.lanes folder.now lane None;
          calls = next_count self.old.calls;
        }) }
        ensures err { OnErr result (self.new ≡ record self.old {
          calls = next_count self.old.calls;
          faults = memory.count_after self.old.faults result;
        }) }
        ensures fails { (result ≡ Err FileFault.Failed)
            ↔ IsTrue (fails_next self.old.failing self.old.calls) }
        ensures out { OnOk result (SameLanes (memory.is_out self.new.lanes)
            (with_lane (memory.is_out self.old.lanes) folder.now lane true)) }
        ensures lanes { OnOk result (SameLanes (memory.bytes_of self.new.lanes)
            (with_lane (memory.bytes_of self.old.lanes) folder.now lane None)) }
        ensures same_back { SameLanes
            (λ folder lane. Some (memory.came_of self.new.lanes folder lane))
            (λ folder lane. Some (memory.came_of self.old.lanes folder lane)) }
        ensures cause { IsCounted self.old.faults self.new.faults result }
        ensures rising { self.old.faults ≤ self.new.faults }
    {
        self.calls.begin()?;
        let disk = self.lanes.open(alloc, folder, lane)?;
        self.lanes.take_out(alloc, folder, lane)?;
        Ok(disk)
    }

    #[tactic(auto, using(crate::proofs::Tellings::tellings))]
    fn back(&mut self, folder: &str, lane: u32, disk: MemoryDisk)
        requires outside { memory.is_out self.old.lanes folder.now lane ≡ true }
        ensures left { self.new ≡ record self.old {
          lanes = memory.with_disk self.old.lanes folder.now lane disk;
          faults = memory.count_back self.old.faults disk.log.faults;
        } }
        ensures inside { SameLanes (memory.is_out self.new.lanes)
            (with_lane (memory.is_out self.old.lanes) folder.now lane false) }
        ensures bytes { memory.bytes_of self.new.lanes folder.now lane ≡ Some (seen disk) }
        ensures other_lanes { SameLanes (memory.bytes_of self.new.lanes)
            (with_lane (memory.bytes_of self.old.lanes) folder.now lane (Some (seen disk))) }
        ensures noted { memory.came_of self.new.lanes folder.now lane
            ≡ memory.came_of self.old.lanes folder.now lane ++ disk ∷ [] }
        ensures others_back { SameLanes
            (λ folder lane. Some (memory.came_of self.new.lanes folder lane))
            (with_lane (λ folder lane. Some (memory.came_of self.old.lanes folder lane)) folder.now lane
            (Some (memory.came_of self.new.lanes folder.now lane))) }
        ensures risen { 0 < disk.log.faults → Rose self.old.faults self.new.faults }
        ensures calm { disk.log.faults ≡ 0 → self.new.faults ≡ self.old.faults }
        ensures rising { self.old.faults ≤ self.new.faults }
    {
        let failed = disk.faults();
        self.lanes.give_back(folder, lane, disk);
        self.count_disk(failed);
    }

    /// It fails exactly by its list.
    fn file(&mut self, alloc: Global, name: &str) -> Result<Vec<u8>, FileFault>
        ensures bytes { IfOk result (λ bytes.
            bytes.items ≡ take MAX_FILE (memory.text_of self.old.texts name.now)) }
        ensures size { IfOk result (λ bytes. length bytes.items ≤ MAX_FILE) }
        ensures left { self.new ≡ record self.old {
          calls = next_count self.old.calls;
          faults = memory.count_after self.old.faults result;
        } }
        ensures fails { (result ≡ Err FileFault.Failed)
            ↔ IsTrue (fails_next self.old.failing self.old.calls) }
        ensures cause { IsCounted self.old.faults self.new.faults result }
        ensures rising { self.old.faults ≤ self.new.faults }
    {
        self.calls.begin()?;
        Ok(first_bytes(alloc, &self.texts, name)?)
    }

    ghost untold = { λ vault folder lane. none_told (memory.bytes_of vault.lanes folder lane) };
}
