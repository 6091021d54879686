//! A journal: records on a disk, each whole or not there.
//!
//! Behind the header and the records stands the last gate, which is closed. The states of an append, with
//! what a crash leaves in each:
//!
//! | State | From the last gate on | A crash leaves | Next |
//! |---|---|---|---|
//! | at rest | a closed gate, free bytes | the records so far | writing |
//! | writing | it, some of the new record and of a gate | the records so far | staged, stopped |
//! | staged | it, the record and a closed gate, all synced | the records so far | opening |
//! | opening | any byte, the record and a closed gate | these, or these and the new one | at rest, stopped |
//! | stopped | as a failed write or sync left it | these, or these and the new one | none: load it again |
//!
//! What always holds:
//!
//! 1. Nothing before the last gate is written again.
//! 2. The gate is opened only over a record that is synced with a closed gate behind it.
//! 3. A record is acknowledged only after the sync of its open gate.
ghost use Rattle.std.specs.Prelude.{◌≡◌, ◌≤◌, ◌<◌, ◌+◌, ◌↔◌, ℕ, List, [], ◌∷◌, ◌++◌, true, false};
ghost use Rattle.std.specs.Prelude.{IsTrue, IfOk, IfErr, OnOk, OnErr, IsErrOf, MatchResult, length};
ghost use Rattle.kb_base.specs.Faults.{Rose};
ghost use Rattle.kb_disk.specs.Images.{Only};
ghost use Rattle.kb_disk.specs.Moments.{AtEachMoment};
ghost use Rattle.kb_journal.specs.declared.fault.AppendFault.TheVariants.{Stopped, Full, DiskFault};
ghost use Rattle.kb_journal.specs.Beginnings.{HasOrBegins};
ghost use Rattle.kb_journal.specs.Format.{IsSized, IsWithOrWithout, body};
ghost use Rattle.kb_journal.specs.Keeping.{Holds, IsFull, RefusesToCreate, RefusesToLoad, TellsPlace};
ghost use Rattle.kb_journal.specs.Reading.{IsNoJournal};
ghost use Rattle.kb_journal.specs.Unwritten.{IsUnwritten};

use crate::block::header_block;
use crate::contents::read_contents;
use crate::fault::{AppendFault, CreateFault, LoadFault};
use crate::read::read_synced;
use crate::records::Records;
use crate::write::{write_record, write_through};
use kb_disk::Disk;
use std::alloc::Global;
use std::marker::Model;

/// The most records of a journal.
const MAX_RECORDS: u64 = u32::MAX as u64;

/// The most bytes of a journal, up to and with its last gate.
const MAX_BYTES: u64 = 1 << 40;

/// Records on a disk. Each has 1 to 65,536 bytes.
#[derive(Drop)]
pub struct Journal<D: Disk> {
    disk: D,
    lanes: u16,
    lane: u16,
    count: u64,
    gate: u64,
    stopped: bool,
}

impl<D: Disk> Model for Journal<D> {
    ghost use Rattle.kb_journal.specs.Keeping.{JournalValue, IsSound};

    ghost Value = { JournalValue D };

    ghost view = { λ journal. record {
      disk = journal.disk;
      lanes = journal.lanes;
      lane = journal.lane;
      count = journal.count;
      gate = journal.gate;
      stopped = journal.stopped;
    } };

    ghost invariant = { λ journal. IsSound D.told.honest D.told.seen (record {
      disk = journal.disk;
      lanes = journal.lanes;
      lane = journal.lane;
      count = journal.count;
      gate = journal.gate;
      stopped = journal.stopped;
    }) };
}

impl<D: Disk> Journal<D> {
    /// A journal without a record, of this lane of so many, on a disk without bytes. A fault gives the disk
    /// back.
    pub fn create(disk: D, lane: u16, lanes: u16) -> Result<Journal<D>, (CreateFault, D)>
        requires some_lanes { 1 ≤ lanes }
        requires few_lanes { lanes ≤ 64 }
        requires one_of_them { lane < lanes }
        ensures holds { IsTrue (D.told.honest disk) → IfOk result (λ journal.
            Holds D.told.honest D.told.seen D.told.images journal []) }
        ensures made { IfOk result (λ journal. journal ≡ record {
          disk = journal.disk;
          lanes = lanes;
          lane = lane;
          count = 0;
          gate = 16;
          stopped = false;
        }) }
        ensures empty { IsTrue (D.told.honest disk) → OnOk result (D.told.seen disk ≡ []) }
        ensures refused { IfErr result (λ refused.
            RefusesToCreate D.told.honest D.told.seen D.told.images D.told.fault_count disk refused.0
            refused.1) }
        ensures same { IsTrue (D.told.honest disk) → 0 < length (D.told.seen disk)
            → IfErr result (λ refused. D.told.seen refused.1 ≡ D.told.seen disk) }
        ensures unwritten { IsTrue (D.told.honest disk) → 0 < length (D.told.seen disk) → IfErr result
            (λ refused.
            IsUnwritten D.told.honest D.told.images D.told.moment D.told.left_since D.told.fault_count disk
            refused.1) }
        ensures unharmed { IsTrue (D.told.honest disk) → Only (D.told.seen disk) (D.told.images disk)
            → IfErr result (λ refused. HasOrBegins lanes lane [] (D.told.seen disk) (D.told.seen refused.1)) }
        ensures moments { IsTrue (D.told.honest disk) → Only (D.told.seen disk) (D.told.images disk)
            → IfOk result (λ journal. AtEachMoment D.told.moment D.told.left_since disk journal.disk
            (HasOrBegins lanes lane [] (D.told.seen disk))) }
        ensures moments_too { IsTrue (D.told.honest disk) → Only (D.told.seen disk) (D.told.images disk)
            → IfErr result (λ refused. AtEachMoment D.told.moment D.told.left_since disk refused.1
            (HasOrBegins lanes lane [] (D.told.seen disk))) }
        ensures honesty { IfOk result (λ journal. D.told.honest journal.disk ≡ D.told.honest disk) }
        ensures same_honesty { IfErr result (λ refused. D.told.honest refused.1 ≡ D.told.honest disk) }
        ensures calm { IfOk result (λ journal. D.told.fault_count journal.disk ≡ D.told.fault_count disk) }
        ensures rising { IfErr result (λ refused. D.told.fault_count disk ≤ D.told.fault_count refused.1) }
    {
        let mut disk = disk;
        match disk.size() {
            Err(_) => return Err((CreateFault::DiskFault, disk)),
            Ok(0) => {}
            Ok(_) => return Err((CreateFault::NotEmpty, disk)),
        }
        if let Err(_) = write_through(&mut disk, 0, &header_block(lanes, lane)) {
            return Err((CreateFault::DiskFault, disk));
        }
        Ok(Journal {
            disk,
            lanes,
            lane,
            count: 0,
            gate: 16,
            stopped: false,
        })
    }

    /// The journal of this lane on a disk, with its records. The disk is synced first, and nothing is
    /// written. The bytes of the disk are read into memory once, and the records stay in them. A fault gives
    /// the disk back.
    pub fn load(alloc: Global, disk: D, lane: u16) -> Result<(Journal<D>, Records), (LoadFault, D)>
        ensures holds { IsTrue (D.told.honest disk) → IfOk result (λ loaded.
            Holds D.told.honest D.told.seen D.told.images loaded.0 loaded.1) }
        ensures seen { IsTrue (D.told.honest disk) → IfOk result
            (λ loaded. D.told.seen loaded.0.disk ≡ D.told.seen disk) }
        ensures seen_too { IsTrue (D.told.honest disk) → Only (D.told.seen disk) (D.told.images disk)
            → IfErr result (λ refused. D.told.seen refused.1 ≡ D.told.seen disk) }
        ensures made { IfOk result (λ loaded. loaded.0 ≡ record loaded.0 {
          lane = lane;
          count = length loaded.1;
          stopped = false;
        }) }
        ensures placed { IfOk result
            (λ loaded. loaded.0.gate ≡ length (body loaded.0.lanes lane loaded.1)) }
        ensures some_lanes { IfOk result (λ loaded. 1 ≤ loaded.0.lanes) }
        ensures few_lanes { IfOk result (λ loaded. loaded.0.lanes ≤ 64) }
        ensures refused { IfErr result (λ refused.
            RefusesToLoad D.told.honest D.told.seen D.told.fault_count lane disk refused.0 refused.1) }
        ensures exact { IsTrue (D.told.honest disk) → (at : ℕ) → IsNoJournal lane (D.told.seen disk) at
            → MatchResult result (λ _. ⊥) (λ refused. TellsPlace at refused.0) }
        ensures unwritten { IfOk result (λ loaded.
            IsUnwritten D.told.honest D.told.images D.told.moment D.told.left_since D.told.fault_count disk
            loaded.0.disk) }
        ensures unwritten_too { IfErr result (λ refused.
            IsUnwritten D.told.honest D.told.images D.told.moment D.told.left_since D.told.fault_count disk
            refused.1) }
        ensures calm { IfOk result (λ loaded. D.told.fault_count loaded.0.disk ≡ D.told.fault_count disk) }
    {
        let mut disk = disk;
        let bytes = match read_synced(alloc, &mut disk) {
            Ok(bytes) => bytes,
            Err(fault) => return Err((fault, disk)),
        };
        match read_contents(bytes, lane) {
            Ok(found) => {
                let journal = Journal {
                    disk,
                    lanes: found.lanes,
                    lane,
                    count: found.records.len() as u64,
                    gate: found.gate,
                    stopped: false,
                };
                Ok((journal, found.records))
            }
            Err(at) => Err((LoadFault::NotAJournal(at), disk)),
        }
    }

    /// The number of lanes that the header tells.
    pub fn lanes(&self) -> u16
        ensures { result ≡ self.now.lanes }
    {
        self.lanes
    }

    /// Whether an append has failed, so that no other one begins.
    pub fn is_stopped(&self) -> bool
        ensures { result ≡ self.now.stopped }
    {
        self.stopped
    }

    /// The disk as it is.
    pub fn into_disk(self) -> D
        ensures { result ≡ self.disk }
    {
        self.disk
    }

    /// How many calls of the disk have failed.
    pub fn faults(&self) -> u128
        ensures { result ≡ D.told.fault_count self.now.disk }
    {
        self.disk.faults() as u128
    }

    /// Adds a record and gives its number, counted from 0.
    pub fn append(&mut self, bytes: &[u8]) -> Result<u32, AppendFault>
        requires sized { IsSized bytes.now }
        ensures acknowledged { (records : List (List ℕ)) → Holds D.told.honest D.told.seen D.told.images
            self.old records
            → OnOk result (Holds D.told.honest D.told.seen D.told.images self.new
            (records ++ bytes.now ∷ [])) }
        ensures moments { (records : List (List ℕ)) → Holds D.told.honest D.told.seen D.told.images self.old
            records
            → AtEachMoment D.told.moment D.told.left_since self.old.disk self.new.disk
            (IsWithOrWithout self.old.lanes self.old.lane records bytes.now) }
        ensures number { IfOk result (λ number. number ≡ self.old.count) }
        ensures counted { OnOk result (self.new.count ≡ self.old.count + 1) }
        ensures placed { OnOk result (self.new.gate ≡ self.old.gate + length bytes.now + 5) }
        ensures stops { self.old.stopped ≡ false → (self.new.stopped ≡ true) ↔ IsErrOf result DiskFault }
        ensures stopped { (count : ℕ) → IsErrOf result (Stopped count)
            ↔ ((self.old.stopped ≡ true) × (count ≡ self.old.count)) }
        ensures full { (commands size : ℕ) → IsErrOf result (Full commands size)
            ↔ ((self.old.stopped ≡ false) × IsFull self.old (length bytes.now)
            × (commands ≡ self.old.count) × (size ≡ self.old.gate + 1)) }
        ensures cause { IsErrOf result DiskFault
            → Rose (D.told.fault_count self.old.disk) (D.told.fault_count self.new.disk) }
        ensures untouched { self.old.stopped ≡ true → self.new ≡ self.old }
        ensures unfilled { IsFull self.old (length bytes.now) → self.new ≡ self.old }
        ensures failed { OnErr result (self.new.count ≡ self.old.count) }
        ensures same { (self.new.lanes ≡ self.old.lanes) × (self.new.lane ≡ self.old.lane) }
        ensures honesty { D.told.honest self.new.disk ≡ D.told.honest self.old.disk }
        ensures calm { OnOk result (D.told.fault_count self.new.disk ≡ D.told.fault_count self.old.disk) }
        ensures rising { D.told.fault_count self.old.disk ≤ D.told.fault_count self.new.disk }
    {
        if self.stopped {
            return Err(AppendFault::Stopped(self.count));
        }
        let size = bytes.len() as u64;
        if self.count >= MAX_RECORDS || MAX_BYTES < self.gate + size + 6 {
            return Err(AppendFault::Full {
                commands: self.count,
                size: self.gate + 1,
            });
        }
        if let Err(_) = write_record(&mut self.disk, self.gate, bytes) {
            self.stopped = true;
            return Err(AppendFault::DiskFault);
        }
        let number = self.count as u32;
        self.count += 1;
        self.gate += size + 5;
        Ok(number)
    }
}
