//! Folders of the system as a vault.
ghost use Rattle.std.specs.Prelude.{◌≡◌, ◌≤◌, ◌<◌, [], true, None, refl, length, IfOk, OnOk, OnErr};
ghost use Rattle.kb_base.specs.Faults.{Rose};
ghost use Rattle.kb_disk.specs.Vaults.{IsCounted};
ghost use Rattle.kb_disk.specs.VaultMemory.{count_after, count_back};
ghost use Rattle.kb_system.specs.Folders.{is_among};

use crate::file_disk::FileDisk;
use crate::path::lane_path;
use crate::place::Place;
use crate::places::Places;
use kb_base::FaultCount;
use kb_disk::{Disk, FileFault, MAX_FILE, Vault};
use std::alloc::{AllocError, Global};
use std::fs::File;
use std::io;
use std::marker::Model;
use std::rt::Files;

/// Folders and files of the system, seen as the lanes that are out and the count of failed calls.
#[derive(Drop)]
pub struct FolderVault<'a, R: Files<File = File>> {
    system: &'a R,
    out: Places,
    faults: FaultCount,
}

impl<'a, R: Files<File = File>> Model for FolderVault<'a, R> {
    ghost use Rattle.kb_system.specs.Folders.{FolderValue};

    ghost Value = { FolderValue };

    ghost view = { λ vault. record { out = vault.out; faults = vault.faults } };
}

impl<'a, R: Files<File = File>> FolderVault<'a, R> {
    /// The folders of this system, of which no lane is out.
    pub fn new(alloc: Global, system: &'a R) -> FolderVault<'a, R>
        ensures { result ≡ record { out = []; faults = 0 } }
    {
        FolderVault {
            system,
            out: Places::new(alloc),
            faults: FaultCount::new(),
        }
    }

    /// What the system answered, counted if it failed.
    fn counted<T>(&mut self, answer: io::Result<T>) -> Result<T, FileFault>
        ensures same { IfOk result (λ value. answer ≡ Ok value) }
        ensures ok { OnOk result (self.new ≡ self.old) }
        ensures err { OnErr result (self.new ≡ record self.old {
          faults = count_after self.old.faults result;
        }) }
        ensures cause { IsCounted self.old.faults self.new.faults result }
        ensures rising { self.old.faults ≤ self.new.faults }
    {
        match answer {
            Ok(value) => Ok(value),
            Err(_) => Err(FileFault::from(self.faults.fail())),
        }
    }

    /// Counts a disk that came back with so many failed calls.
    fn count_disk(&mut self, failed: u64)
        ensures counted { self.new ≡ record self.old { faults = count_back self.old.faults failed } }
        ensures risen { 0 < failed → Rose self.old.faults self.new.faults }
        ensures rising { self.old.faults ≤ self.new.faults }
    {
        if failed > 0 {
            self.faults.fail();
        }
    }
}

impl<R: Files<File = File>> Vault for FolderVault<'_, R> {
    type Disk = FileDisk;

    ghost told = { λ vault. record {
      is_out = is_among vault.out;
      lane_bytes = λ _ _. None;
      came_back = λ _ _. None;
      file_bytes = λ _. None;
      faults = vault.faults;
    } };

    /// Opens the file of a lane, and makes an empty one where there is none. The folder must be there. It
    /// fails while another program has the lane.
    #[tactic(auto, using(crate::proofs::Amongs::among_added))]
    fn lane(&mut self, alloc: Global, folder: &str, lane: u32) -> Result<FileDisk, FileFault> {
        let place = Place::new(alloc, folder, lane)?;
        let path = lane_path(alloc, folder, lane)?;
        let opened = open_lane(self.system, folder, path.as_str());
        let file = self.counted(opened)?;
        self.out.add(place)?;
        Ok(FileDisk::new(file))
    }

    /// Closes the file of a lane, so that another program may have it.
    #[tactic(auto, using(crate::proofs::Amongs::among_struck))]
    fn back(&mut self, folder: &str, lane: u32, disk: FileDisk) {
        self.out.strike(folder, lane);
        self.count_disk(disk.faults());
    }

    fn file(&mut self, alloc: Global, name: &str) -> Result<Vec<u8>, FileFault> {
        let read = read_first(self.system, alloc, name, MAX_FILE)?;
        self.counted(read)
    }

    ghost untold = { λ _ _ _ _. refl };
}

/// Opens a lane's file for this program alone, and makes it where there is none.
fn open_lane<R: Files<File = File>>(system: &R, folder: &str, path: &str) -> io::Result<File> {
    let parent = File::open(system, folder)?;
    let file = File::options()
        .read(true)
        .write(true)
        .create(true)
        .open(system, path)?;
    if file.try_lock().is_err() {
        return Err(io::ErrorKind::WouldBlock.into());
    }
    // A crash may take a file that was just made away again, until its folder is synced.
    parent.sync_all()?;
    Ok(file)
}

/// Reads the first bytes of a file, at most so many.
fn read_first<R: Files<File = File>>(
    system: &R,
    alloc: Global,
    name: &str,
    most: usize,
) -> Result<io::Result<Vec<u8>>, AllocError>
    ensures { IfOk result (λ read. IfOk read (λ bytes. length bytes.items ≤ most)) }
{
    let mut bytes = vec![in alloc; 0; most]?;
    match read_into(system, name, &mut bytes) {
        Ok(count) => {
            bytes.truncate(count);
            Ok(Ok(bytes))
        }
        Err(error) => Ok(Err(error)),
    }
}

/// Reads the first bytes of a file, as many as there are and fit, and says how many.
fn read_into<R: Files<File = File>>(system: &R, name: &str, buf: &mut [u8]) -> io::Result<usize>
    ensures { IfOk result (λ count. count ≤ length buf.new) }
{
    let mut disk = FileDisk::new(File::open(system, name)?);
    match disk.read(0, buf) {
        Ok(count) => Ok(count),
        Err(_) => Err(io::ErrorKind::Other.into()),
    }
}
