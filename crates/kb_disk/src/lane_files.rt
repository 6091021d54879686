//! The files of lanes, in memory.
ghost use Rattle.std.specs.Prelude.{◌≡◌, true, false, Some, None, option_map, IfOk, OnOk, OnErr};
ghost use Rattle.std.specs.List.{find, position};
ghost use Rattle.kb_disk.specs.Places.{is_place};
ghost use Rattle.kb_disk.specs.VaultMemory as memory;

use crate::lane_file::LaneFile;
use crate::memory_disk::MemoryDisk;
use kb_base::NoMemory;
use std::alloc::Global;
use std::marker::Model;

/// Files of lanes, of which the first counts where two are of one lane.
#[derive(Drop)]
pub struct LaneFiles {
    files: Vec<LaneFile>,
}

impl Model for LaneFiles {
    ghost use Rattle.std.specs.Prelude.{List};
    ghost use Rattle.kb_disk.specs.VaultMemory.{LaneValue};

    ghost Value = { List LaneValue };

    ghost view = { λ lanes. lanes.files.items };
}

impl LaneFiles {
    /// These files.
    pub fn new(files: Vec<LaneFile>) -> LaneFiles
        ensures { result ≡ files.items }
    {
        LaneFiles { files }
    }

    /// A disk of a lane's bytes.
    pub fn open(&self, alloc: Global, folder: &str, lane: u32) -> Result<MemoryDisk, NoMemory>
        requires inside { memory.is_out self.now folder.now lane ≡ false }
        ensures { IfOk result (λ disk. disk ≡ memory.disk_of (memory.file_of self.now folder.now lane)) }
    {
        match self.file(folder, lane) {
            Some(file) => file.disk(alloc),
            None => MemoryDisk::new(alloc, Vec::new(alloc), Vec::new(alloc)),
        }
    }

    /// Takes a lane out.
    pub fn take_out(&mut self, alloc: Global, folder: &str, lane: u32) -> Result<(), NoMemory>
        ensures ok { OnOk result (self.new ≡ memory.with_bytes self.old folder.now lane None) }
        ensures err { OnErr result (self.new ≡ self.old) }
    {
        match self.place(folder, lane) {
            Some(place) => self.files[place].take_out(),
            None => self.files.push(LaneFile::new_out(alloc, folder, lane)?)?,
        }
        Ok(())
    }

    /// Gives the disk of a lane that is out back.
    pub fn give_back(&mut self, folder: &str, lane: u32, disk: MemoryDisk)
        requires outside { memory.is_out self.old folder.now lane ≡ true }
        ensures { self.new ≡ memory.with_disk self.old folder.now lane disk }
    {
        match self.place(folder, lane) {
            Some(place) => self.files[place].take_back(disk),
            None => unreachable!(),
        }
    }

    /// The file of a lane among these.
    fn file(&self, folder: &str, lane: u32) -> Option<&LaneFile>
        ensures { option_map (λ file. file.now) result
            ≡ find (λ file. is_place file.folder file.lane folder.now lane) self.now }
    {
        self.files.iter().find(|file| file.is_of(folder, lane))
    }

    /// The place of a lane's file among these.
    fn place(&self, folder: &str, lane: u32) -> Option<usize>
        ensures { result ≡ position (λ file. is_place file.folder file.lane folder.now lane) self.now }
    {
        self.files.iter().position(|file| file.is_of(folder, lane))
    }
}
