//! The calls of a disk in memory, noted.
ghost use Rattle.std.specs.Prelude.{◌≡◌, ◌≤◌, ◌↔◌, ℕ, List, if◌then◌else◌, true, is_err, IsErr, IsTrue, OnOk};
ghost use Rattle.kb_base.specs.Faults.{next_count, HasCause, Rose};
ghost use Rattle.kb_disk.specs.Memory.{bytes_after_note, bytes_after, IsImage, empty_log, after_call, Fails};
ghost use Rattle.kb_disk.specs.Private.Calls.{Steps, Settles, NotesElapse};

use crate::note::{DiskCall, DiskNote};
use kb_base::Failed;
use kb_ports::Calls;
use std::alloc::Global;
use std::marker::Model;

/// The calls of a disk in memory, some of which are to fail. Once there is no room for a note, each call
/// fails and none is noted.
#[derive(Drop)]
pub struct Log {
    notes: Vec<DiskNote>,
    calls: Calls,
    lost: bool,
}

impl Model for Log {
    ghost use Rattle.kb_disk.specs.Memory.{LogValue};

    ghost Value = { LogValue };

    ghost view = { λ log. record {
      notes = log.notes.items;
      failing = log.calls.failing.items;
      made = log.calls.made;
      faults = log.calls.faults;
      lost = log.lost;
    } };
}

impl Log {
    /// No call yet. Those of these numbers, counted from 1, fail.
    pub fn new(alloc: Global, failing: Vec<u64>) -> Log
        ensures { result ≡ empty_log failing.items }
    {
        Log {
            notes: Vec::new(alloc),
            calls: Calls::new(failing),
            lost: false,
        }
    }

    /// The calls so far, as long as each was noted.
    pub fn notes(&self) -> &[DiskNote]
        ensures { result.now ≡ self.now.notes }
    {
        &self.notes
    }

    /// Whether there was no room for a note.
    pub fn is_lost(&self) -> bool
        ensures { result ≡ self.now.lost }
    {
        self.lost
    }

    /// How many calls have failed.
    pub fn faults(&self) -> u64
        ensures { result ≡ self.now.faults }
    {
        self.calls.faults.number()
    }

    /// Counts a call and notes it, if there is room. The clauses are those of a disk that began with some
    /// bytes.
    pub fn note(&mut self, call: DiskCall) -> Result<(), Failed>
        ensures bytes { (first : List ℕ) → bytes_after first self.new.notes
            ≡ bytes_after_note (bytes_after first self.old.notes)
            (record { call = call; failed = is_err result }) }
        ensures crash { (first : List ℕ)
            → Steps call (IsImage first self.old.notes) (IsImage first self.new.notes) }
        ensures durable { (first : List ℕ) → OnOk result
            (Settles call (bytes_after first self.old.notes) (IsImage first self.new.notes)) }
        ensures time { (first : List ℕ) → NotesElapse first self.old.notes self.new.notes }
        ensures fails { IsErr result ↔ Fails self.old self.new }
        ensures noted { self.new ≡ after_call self.old call (is_err result) self.new.lost }
        ensures stays { IsTrue self.old.lost → IsTrue self.new.lost }
        ensures cause { HasCause self.old.faults self.new.faults result }
        ensures rising { self.old.faults ≤ self.new.faults }
    {
        self.push(call)
    }

    /// Counts a call and notes it, if there is room.
    fn push(&mut self, call: DiskCall) -> Result<(), Failed>
        ensures fails { IsErr result ↔ Fails self.old self.new }
        ensures noted { self.new ≡ after_call self.old call (is_err result) self.new.lost }
        ensures stays { IsTrue self.old.lost → IsTrue self.new.lost }
        ensures cause { HasCause self.old.faults self.new.faults result }
        ensures rising { self.old.faults ≤ self.new.faults }
    {
        let begun = self.calls.begin();
        let failed = begun.is_err();
        if self.lost || self.notes.push(DiskNote { call, failed }).is_err() {
            self.lost = true;
            return Err(self.fault_once(failed));
        }
        begun
    }

    /// Counts a call for which there is no room.
    pub fn lose(&mut self) -> Failed
        ensures counted { self.new ≡ record self.old {
          made = next_count self.old.made;
          faults = next_count self.old.faults;
          lost = true;
        } }
        ensures rose { Rose self.old.faults self.new.faults }
        ensures rising { self.old.faults ≤ self.new.faults }
    {
        let failed = self.calls.begin().is_err();
        self.lost = true;
        self.fault_once(failed)
    }

    /// Counts a fault, unless this call's was counted.
    fn fault_once(&mut self, counted: bool) -> Failed
        ensures counted { self.new ≡ record self.old {
          faults = if counted then self.old.faults else next_count self.old.faults;
        } }
        ensures rising { self.old.faults ≤ self.new.faults }
    {
        if counted {
            return Failed;
        }
        self.calls.fault()
    }
}
