//! The file of a lane, in memory.
ghost use Rattle.std.specs.Prelude.{◌≡◌, [], ◌∷◌, ◌++◌, Some, None, IfOk, IsSome, option_map, string_bytes};
ghost use Rattle.kb_disk.specs.Memory.{seen};
ghost use Rattle.kb_disk.specs.Places.{is_place};
ghost use Rattle.kb_disk.specs.VaultMemory as memory;

use crate::memory_disk::MemoryDisk;
use kb_base::{History, NoMemory};
use std::alloc::Global;
use std::marker::Model;

/// The file of a lane of a folder, in memory, with the numbers of the calls of its disk that are to fail.
/// Contracts see the disks that came back; code sees nothing of them.
#[derive(Drop)]
pub struct LaneFile {
    folder: String,
    lane: u32,
    /// None while the lane is out.
    bytes: Option<Vec<u8>>,
    failing: Vec<u64>,
    came_back: History<u32, MemoryDisk>,
}

impl Model for LaneFile {
    ghost use Rattle.std.specs.Prelude.{map, option_map, string_bytes};
    ghost use Rattle.kb_disk.specs.VaultMemory.{LaneValue};

    ghost Value = { LaneValue };

    ghost view = { λ file. record {
      folder = string_bytes file.folder;
      lane = file.lane;
      bytes = option_map (λ bytes. bytes.items) file.bytes;
      failing = file.failing.items;
      came_back = map (λ note. note.1) file.came_back;
    } };
}

impl LaneFile {
    /// The file of this lane of this folder. Of each disk that is made of it, the calls of the numbers
    /// `failing`, counted from 1, fail.
    pub fn new(folder: String, lane: u32, bytes: Vec<u8>, failing: Vec<u64>) -> LaneFile
        ensures { result ≡ record {
          folder = string_bytes folder;
          lane = lane;
          bytes = Some bytes.items;
          failing = failing.items;
          came_back = [];
        } }
    {
        LaneFile {
            folder,
            lane,
            bytes: Some(bytes),
            failing,
            came_back: History::new(),
        }
    }

    /// The file of a lane that is out, and in which there was nothing.
    pub(crate) fn new_out(alloc: Global, folder: &str, lane: u32) -> Result<LaneFile, NoMemory>
        ensures { IfOk result (λ file. file ≡ record {
          folder = folder.now;
          lane = lane;
          bytes = None;
          failing = [];
          came_back = [];
        }) }
    {
        Ok(LaneFile {
            folder: folder.to_string(alloc)?,
            lane,
            bytes: None,
            failing: Vec::new(alloc),
            came_back: History::new(),
        })
    }

    /// Whether it is of this lane of this folder.
    pub(crate) fn is_of(&self, folder: &str, lane: u32) -> bool
        ensures { result ≡ is_place self.now.folder self.now.lane folder.now lane }
    {
        self.folder.as_str() == folder && self.lane == lane
    }

    /// A disk of its bytes.
    pub(crate) fn disk(&self, alloc: Global) -> Result<MemoryDisk, NoMemory>
        requires inside { IsSome self.now.bytes }
        ensures { IfOk result (λ disk. disk ≡ memory.disk_of self.now) }
    {
        match &self.bytes {
            Some(bytes) => MemoryDisk::new(
                alloc,
                bytes.to_vec(alloc)?,
                self.failing.to_vec(alloc)?,
            ),
            None => unreachable!(),
        }
    }

    /// Takes it out.
    pub(crate) fn take_out(&mut self)
        ensures { self.new ≡ record self.old { bytes = None } }
    {
        self.bytes = None;
    }

    /// Takes the bytes of its disk back, and notes that it came.
    pub(crate) fn take_back(&mut self, disk: MemoryDisk)
        ensures { self.new ≡ record self.old {
          bytes = Some (seen disk);
          came_back = self.old.came_back ++ disk ∷ [];
        } }
    {
        self.came_back.note(&self.lane, &disk);
        self.bytes = Some(disk.into_bytes());
    }
}
