//! The lanes of a folder, one after another.
ghost use Rattle.std.specs.Prelude.{◌≡◌, ◌≤◌, ◌<◌, ◌∷◌, [], ℕ, false};
ghost use Rattle.kb_journal.specs.Format.{IsSized};
ghost use Rattle.kb_disk.specs.Places.{SameFiles, SameLanes};
ghost use Rattle.kb_folder.specs.Begun.{AllComeBackBy, ComesBackBy};
ghost use Rattle.kb_folder.specs.Foundings.{CountsFaults, SameFrom};
ghost use Rattle.kb_folder.specs.Private.Runs.{Founds, FoundsOne, SameElsewhere};

use crate::unfounded::Unfounded;
use crate::writing::write_lane;
use kb_disk::Vault;
use kb_journal::CreateFault;
use std::alloc::Global;

/// Founds the lanes of a folder, in order, each with these records, up to the first that can't be.
pub(crate) fn found_each<V: Vault>(
    alloc: Global,
    vault: &mut V,
    folder: &str,
    lanes: u32,
    first: &[u8],
    second: &[u8],
) -> Result<(), Unfounded>
    requires inside { (lane : ℕ) → (V.told vault.old).is_out folder.now lane ≡ false }
    requires few_lanes { lanes ≤ 64 }
    requires sized_first { IsSized first.now }
    requires sized_second { IsSized second.now }
    ensures founds { Founds folder.now lanes (first.now ∷ second.now ∷ []) (V.told vault.old).lane_bytes
        (V.told vault.new).lane_bytes result }
    ensures moments { AllComeBackBy V.Disk.told folder.now lanes (first.now ∷ second.now ∷ [])
        (V.told vault.old) (V.told vault.new) result }
    ensures others_back { SameFrom folder.now lanes (V.told vault.old).came_back
        (V.told vault.new).came_back }
    ensures same_out { SameLanes (V.told vault.new).is_out (V.told vault.old).is_out }
    ensures same_files { SameFiles (V.told vault.new).file_bytes (V.told vault.old).file_bytes }
    ensures counted { CountsFaults (V.told vault.old).faults (V.told vault.new).faults result }
    ensures rising { (V.told vault.old).faults ≤ (V.told vault.new).faults }
{
    for lane in 0..lanes {
        if let Err(fault) = found_lane(alloc, vault, folder, lane, lanes, first, second) {
            return Err(fault);
        }
    }
    Ok(())
}

/// Founds a lane of a folder with these records.
fn found_lane<V: Vault>(
    alloc: Global,
    vault: &mut V,
    folder: &str,
    lane: u32,
    lanes: u32,
    first: &[u8],
    second: &[u8],
) -> Result<(), Unfounded>
    requires inside { (V.told vault.old).is_out folder.now lane ≡ false }
    requires one_of_them { lane < lanes }
    requires few_lanes { lanes ≤ 64 }
    requires sized_first { IsSized first.now }
    requires sized_second { IsSized second.now }
    ensures founds { FoundsOne lanes lane (first.now ∷ second.now ∷ [])
        ((V.told vault.old).lane_bytes folder.now lane)
        ((V.told vault.new).lane_bytes folder.now lane) result }
    ensures moments { ComesBackBy V.Disk.told lanes lane (first.now ∷ second.now ∷ [])
        ((V.told vault.old).lane_bytes folder.now lane) ((V.told vault.old).came_back folder.now lane)
        ((V.told vault.new).came_back folder.now lane) result }
    ensures others { SameElsewhere folder.now lane (V.told vault.old).lane_bytes
        (V.told vault.new).lane_bytes }
    ensures others_back { SameElsewhere folder.now lane (V.told vault.old).came_back
        (V.told vault.new).came_back }
    ensures same_out { SameLanes (V.told vault.new).is_out (V.told vault.old).is_out }
    ensures same_files { SameFiles (V.told vault.new).file_bytes (V.told vault.old).file_bytes }
    ensures counted { CountsFaults (V.told vault.old).faults (V.told vault.new).faults result }
    ensures rising { (V.told vault.old).faults ≤ (V.told vault.new).faults }
{
    let disk = match vault.lane(alloc, folder, lane) {
        Ok(disk) => disk,
        Err(fault) => return Err(Unfounded::from(fault)),
    };
    let (disk, made) = write_lane(disk, lane as u16, lanes as u16, first, second);
    vault.back(folder, lane, disk);
    match made {
        Ok(()) => Ok(()),
        Err(CreateFault::NotEmpty) => Err(Unfounded::NotEmpty { lane }),
        Err(CreateFault::DiskFault) => Err(Unfounded::Disk),
    }
}
