//! The journal of a lane, made with its first two records.
ghost use Rattle.std.specs.Prelude.{◌≡◌, ◌≤◌, ◌<◌, ◌+◌, ◌++◌, ◌∷◌, [], ℕ, List, false, length, IsTrue, IfErr};
ghost use Rattle.std.specs.Prelude.{OnOk, OnErr};
ghost use Rattle.kb_base.specs.Faults.{Rose};
ghost use Rattle.kb_disk.specs.Images.{Only};
ghost use Rattle.kb_disk.specs.Moments.{AtEachMoment};
ghost use Rattle.kb_journal.specs.Beginnings.{HasOrBegins, IsBegun};
ghost use Rattle.kb_journal.specs.Format.{IsSized, IsWithOrWithout, StandsFor};
ghost use Rattle.kb_journal.specs.Keeping.{Holds, RefusesToCreate};

use kb_base::Failed;
use kb_disk::Disk;
use kb_journal::{AppendFault, CreateFault, Journal};

/// Makes the journal of a lane on a disk, with two records, and gives the disk back.
pub(crate) fn write_lane<D: Disk>(
    disk: D,
    lane: u16,
    lanes: u16,
    first: &[u8],
    second: &[u8],
) -> (D, Result<(), CreateFault>)
    requires one_of_them { lane < lanes }
    requires few_lanes { lanes ≤ 64 }
    requires sized_first { IsSized first.now }
    requires sized_second { IsSized second.now }
    ensures empty { IsTrue (D.told.honest disk) → OnOk result.1 (D.told.seen disk ≡ []) }
    ensures stands { IsTrue (D.told.honest disk) → OnOk result.1
        (StandsFor lanes lane (first.now ∷ second.now ∷ []) (D.told.seen result.0)) }
    ensures calm { OnOk result.1 (D.told.fault_count result.0 ≡ D.told.fault_count disk) }
    ensures unharmed { IsTrue (D.told.honest disk) → Only (D.told.seen disk) (D.told.images disk)
        → OnErr result.1 (HasOrBegins lanes lane (first.now ∷ second.now ∷ [])
        (D.told.seen disk) (D.told.seen result.0)) }
    ensures refused { IfErr result.1 (λ fault.
        RefusesToCreate D.told.honest D.told.seen D.told.images D.told.fault_count disk fault result.0) }
    ensures moments { IsTrue (D.told.honest disk) → Only (D.told.seen disk) (D.told.images disk)
        → AtEachMoment D.told.moment D.told.left_since disk result.0
        (HasOrBegins lanes lane (first.now ∷ second.now ∷ []) (D.told.seen disk)) }
    ensures durable { IsTrue (D.told.honest disk) → OnOk result.1
        (Only (D.told.seen result.0) (D.told.images result.0)) }
{
    match Journal::create(disk, lane, lanes) {
        Ok(journal) => filled(journal, first, second),
        Err((fault, disk)) => (disk, Err(fault)),
    }
}

/// Adds two records to a new journal, and gives its disk.
fn filled<D: Disk>(journal: Journal<D>, first: &[u8], second: &[u8]) -> (D, Result<(), CreateFault>)
    requires running { journal.stopped ≡ false }
    requires no_record { journal.count ≡ 0 }
    requires placed { journal.gate ≡ 16 }
    requires sized_first { IsSized first.now }
    requires sized_second { IsSized second.now }
    ensures stands { Holds D.told.honest D.told.seen D.told.images journal [] → OnOk result.1
        (StandsFor journal.lanes journal.lane (first.now ∷ second.now ∷ []) (D.told.seen result.0)) }
    ensures begun { Holds D.told.honest D.told.seen D.told.images journal [] → OnErr result.1
        (IsBegun journal.lanes journal.lane (first.now ∷ second.now ∷ []) (D.told.seen result.0)) }
    ensures calm { OnOk result.1 (D.told.fault_count result.0 ≡ D.told.fault_count journal.disk) }
    ensures fault { IfErr result.1 (λ fault. fault ≡ CreateFault.DiskFault) }
    ensures cause { OnErr result.1 (Rose (D.told.fault_count journal.disk) (D.told.fault_count result.0)) }
    ensures moments { Holds D.told.honest D.told.seen D.told.images journal []
        → AtEachMoment D.told.moment D.told.left_since journal.disk result.0
        (IsBegun journal.lanes journal.lane (first.now ∷ second.now ∷ [])) }
    ensures durable { Holds D.told.honest D.told.seen D.told.images journal [] → OnOk result.1
        (Only (D.told.seen result.0) (D.told.images result.0)) }
{
    let mut journal = journal;
    let added = add_both(&mut journal, first, second);
    (journal.into_disk(), added)
}

/// Adds two records to a new journal.
fn add_both<D: Disk>(
    journal: &mut Journal<D>,
    first: &[u8],
    second: &[u8],
) -> Result<(), CreateFault>
    requires running { journal.old.stopped ≡ false }
    requires no_record { journal.old.count ≡ 0 }
    requires placed { journal.old.gate ≡ 16 }
    requires sized_first { IsSized first.now }
    requires sized_second { IsSized second.now }
    ensures holds { Holds D.told.honest D.told.seen D.told.images journal.old [] → OnOk result
        (Holds D.told.honest D.told.seen D.told.images journal.new (first.now ∷ second.now ∷ [])) }
    ensures begun { Holds D.told.honest D.told.seen D.told.images journal.old [] → OnErr result
        (IsBegun journal.old.lanes journal.old.lane (first.now ∷ second.now ∷ [])
        (D.told.seen journal.new.disk)) }
    ensures same { (journal.new.lanes ≡ journal.old.lanes) × (journal.new.lane ≡ journal.old.lane) }
    ensures calm { OnOk result (D.told.fault_count journal.new.disk ≡ D.told.fault_count journal.old.disk) }
    ensures fault { IfErr result (λ fault. fault ≡ CreateFault.DiskFault) }
    ensures cause { OnErr result
        (Rose (D.told.fault_count journal.old.disk) (D.told.fault_count journal.new.disk)) }
    ensures moments { Holds D.told.honest D.told.seen D.told.images journal.old []
        → AtEachMoment D.told.moment D.told.left_since journal.old.disk journal.new.disk
        (IsBegun journal.old.lanes journal.old.lane (first.now ∷ second.now ∷ [])) }
{
    if add(journal, first).is_err() {
        return Err(CreateFault::DiskFault);
    }
    match add(journal, second) {
        Ok(()) => Ok(()),
        Err(_) => Err(CreateFault::DiskFault),
    }
}

/// Adds a record to a journal that has one at most.
fn add<D: Disk>(journal: &mut Journal<D>, bytes: &[u8]) -> Result<(), Failed>
    requires running { journal.old.stopped ≡ false }
    requires few { journal.old.count ≤ 1 }
    requires short { journal.old.gate ≤ 65557 }
    requires sized { IsSized bytes.now }
    ensures holds { (records : List (List ℕ)) → Holds D.told.honest D.told.seen D.told.images journal.old
        records
        → OnOk result (Holds D.told.honest D.told.seen D.told.images journal.new (records ++ bytes.now ∷ [])) }
    ensures torn { (records : List (List ℕ)) → Holds D.told.honest D.told.seen D.told.images journal.old
        records
        → OnErr result (IsWithOrWithout journal.old.lanes journal.old.lane records bytes.now
        (D.told.seen journal.new.disk)) }
    ensures running { OnOk result (journal.new.stopped ≡ false) }
    ensures counted { OnOk result (journal.new.count ≡ journal.old.count + 1) }
    ensures placed { OnOk result (journal.new.gate ≡ journal.old.gate + length bytes.now + 5) }
    ensures same { (journal.new.lanes ≡ journal.old.lanes) × (journal.new.lane ≡ journal.old.lane) }
    ensures calm { OnOk result (D.told.fault_count journal.new.disk ≡ D.told.fault_count journal.old.disk) }
    ensures cause { OnErr result
        (Rose (D.told.fault_count journal.old.disk) (D.told.fault_count journal.new.disk)) }
    ensures moments { (records : List (List ℕ)) → Holds D.told.honest D.told.seen D.told.images journal.old
        records
        → AtEachMoment D.told.moment D.told.left_since journal.old.disk journal.new.disk
        (IsWithOrWithout journal.old.lanes journal.old.lane records bytes.now) }
{
    match journal.append(bytes) {
        Ok(_) => Ok(()),
        Err(AppendFault::DiskFault) => Err(Failed),
        Err(AppendFault::Stopped(_)) => unreachable!(),
        Err(AppendFault::Full { .. }) => unreachable!(),
    }
}
