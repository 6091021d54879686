//! All lanes of a folder, made with both texts.
ghost use Rattle.std.specs.Prelude.{◌≡◌, ◌≤◌, ◌<◌, ◌+◌, ℕ, false, Err, IfSome, OnOk, OnErr};
ghost use Rattle.kb_catalog_text.specs.declared.fault.TextFault.{TextFault as AnyTextFault};
ghost use Rattle.kb_catalog_text.specs.Texts.{CatalogText, OverdueText};
ghost use Rattle.kb_machine.specs.Histories.{AreNewFrom, replay};
ghost use Rattle.kb_machine.specs.Machines.{no_machine};
ghost use Rattle.kb_disk.specs.Places.{SameFiles, SameLanes};
ghost use Rattle.kb_folder.specs.Begun.{CrashesWith};
ghost use Rattle.kb_folder.specs.Foundings.{first_commands, first_world, text_fault, TellsFault};
ghost use Rattle.kb_folder.specs.Foundings.{FoundsWith, IsLeft, SameFrom, CountsFaults, SameOrWith};
ghost use Rattle.kb_folder.specs.Foundings.{FailsAtOne, StopsBeforeOne, HarmsNone};

use crate::lanes::found_each;
use crate::texts::both_records;
use crate::unfounded::Unfounded;
use kb_days::Day;
use kb_disk::Vault;
use std::alloc::Global;

/// Makes so many lanes in a folder, each with the same two commands: the catalog text of a file, and the
/// overdue text of another, both under the key `init` and on one day. The catalog text is judged before the
/// other file is read. A fault leaves the lanes that were made before it.
#[tactic(auto, using(crate::proofs::Accepted::both_new, crate::proofs::Accepted::both_said))]
pub fn found_lanes<V: Vault>(
    alloc: Global,
    vault: &mut V,
    today: Day,
    folder: &str,
    lanes: u32,
    catalog: &str,
    overdue: &str,
) -> Result<(), Unfounded>
    requires inside { (lane : ℕ) → (V.told vault.old).is_out folder.now lane ≡ false }
    requires few_lanes { lanes ≤ 64 }
    ensures founded { OnOk result (FoundsWith today folder.now lanes lanes lanes
        ((V.told vault.old).file_bytes catalog.now) ((V.told vault.old).file_bytes overdue.now)
        (V.told vault.old).lane_bytes
        (V.told vault.new).lane_bytes) }
    ensures accepted { (version : CatalogText) (states : OverdueText)
        → AreNewFrom no_machine (first_commands today version states) }
    ensures said { (version : CatalogText) (states : OverdueText)
        → (replay (first_commands today version states)).texts.world ≡ first_world version states }
    ensures refused { IfSome ((V.told vault.old).file_bytes catalog.now)
        (λ version. IfSome ((V.told vault.old).file_bytes overdue.now)
        (λ states. TellsFault (text_fault version states) result)) }
    ensures untouched { (fault : AnyTextFault) → result ≡ Err (Unfounded.Text fault)
        → SameLanes (V.told vault.new).lane_bytes (V.told vault.old).lane_bytes }
    ensures not_empty { (lane : ℕ) → result ≡ Err (Unfounded.NotEmpty lane) → (lane < lanes)
        × IsLeft ((V.told vault.old).lane_bytes folder.now lane)
        ((V.told vault.new).lane_bytes folder.now lane) }
    ensures before { (lane : ℕ) → result ≡ Err (Unfounded.NotEmpty lane)
        → FoundsWith today folder.now lanes lane
        (lane + 1) ((V.told vault.old).file_bytes catalog.now) ((V.told vault.old).file_bytes overdue.now)
        (V.told vault.old).lane_bytes (V.told vault.new).lane_bytes }
    ensures failed { result ≡ Err Unfounded.Disk → SameOrWith today
        ((V.told vault.old).file_bytes catalog.now)
        ((V.told vault.old).file_bytes overdue.now) (FailsAtOne folder.now lanes)
        (V.told vault.old).lane_bytes (V.told vault.new).lane_bytes }
    ensures no_memory { result ≡ Err Unfounded.NoMemory
        → SameOrWith today ((V.told vault.old).file_bytes catalog.now)
        ((V.told vault.old).file_bytes overdue.now) (StopsBeforeOne folder.now lanes)
        (V.told vault.old).lane_bytes (V.told vault.new).lane_bytes }
    ensures unharmed { OnErr result (SameOrWith today ((V.told vault.old).file_bytes catalog.now)
        ((V.told vault.old).file_bytes overdue.now) (HarmsNone folder.now lanes)
        (V.told vault.old).lane_bytes (V.told vault.new).lane_bytes) }
    ensures moments { CrashesWith V.Disk.told today folder.now lanes
        ((V.told vault.old).file_bytes catalog.now) ((V.told vault.old).file_bytes overdue.now)
        (V.told vault.old) (V.told vault.new) result }
    ensures others { SameFrom folder.now lanes (V.told vault.old).lane_bytes (V.told vault.new).lane_bytes }
    ensures others_back { SameFrom folder.now lanes (V.told vault.old).came_back
        (V.told vault.new).came_back }
    ensures same_out { SameLanes (V.told vault.new).is_out (V.told vault.old).is_out }
    ensures same_files { SameFiles (V.told vault.new).file_bytes (V.told vault.old).file_bytes }
    ensures counted { CountsFaults (V.told vault.old).faults (V.told vault.new).faults result }
    ensures rising { (V.told vault.old).faults ≤ (V.told vault.new).faults }
{
    let (first, second) = match both_records(alloc, vault, today, catalog, overdue) {
        Ok(both) => both,
        Err(fault) => return Err(fault),
    };
    found_each(alloc, vault, folder, lanes, &first, &second)
}
