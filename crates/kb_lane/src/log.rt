//! The log of a lane.
ghost use Rattle.std.specs.Prelude.{◌+◌, ◌^◌, ◌<◌, ◌≡◌, ◌≤◌, [], true, false, length};
ghost use Rattle.std.specs.Prelude.{IsTrue, IfOk, IfErr, OnOk};
ghost use Rattle.kb_base.specs.Faults.{Rose};
ghost use Rattle.kb_disk.specs.Moments.{AtEachMoment};
ghost use Rattle.kb_journal.specs.Format.{IsSized, IsWithOrWithout, body};
ghost use Rattle.kb_journal.specs.Keeping.{Holds, RefusesToCreate};
ghost use Rattle.kb_codec.specs.Entries.{payload, payloads};
ghost use Rattle.kb_lane.specs.Logs.{Appends, KeepsAll, StandsForLog};

use kb_base::History;
use kb_codec::Command;
use kb_days::Day;
use kb_disk::Disk;
use kb_journal::{AppendFault, CreateFault, Journal};
use std::marker::Model;

/// The commands of a lane, written down in its journal.
#[derive(Drop)]
pub struct Log<D: Disk> {
    journal: Journal<D>,
    history: History<Day, Command>,
    failed: History<Day, Command>,
    count: u64,
    opened: u64,
    faults: u128,
}

impl<D: Disk> Model for Log<D> {
    ghost use Rattle.std.specs.Prelude.{◌≡◌, length};
    ghost use Rattle.kb_lane.specs.Logs.{LogValue, IsLog};

    ghost Value = { LogValue D };

    ghost view = { λ log. record {
      journal = log.journal;
      history = log.history;
      failed = log.failed;
      opened = log.opened;
      faults = log.faults;
    } };

    ghost invariant = { λ log. (log.count ≡ length log.history)
        × IsLog D.told.honest D.told.seen D.told.images D.told.fault_count (record {
          journal = log.journal;
          history = log.history;
          failed = log.failed;
          opened = log.opened;
          faults = log.faults;
        }) };
}

impl<D: Disk> Log<D> {
    /// A log without a command, of this lane of so many, on a disk without bytes. A fault gives the disk
    /// back.
    pub fn create(disk: D, lane: u16, lanes: u16) -> Result<Log<D>, (CreateFault, D)>
        requires some_lanes { 1 ≤ lanes }
        requires few_lanes { lanes ≤ 64 }
        requires one_of_them { lane < lanes }
        ensures made { IfOk result (λ log. log ≡ record log {
          history = [];
          failed = [];
          opened = 0;
          faults = D.told.fault_count disk;
        }) }
        ensures running { IfOk result (λ log. log.journal.stopped ≡ false) }
        ensures place { IfOk result (λ log. (log.journal.lanes ≡ lanes) × (log.journal.lane ≡ lane)) }
        ensures refused { IfErr result (λ refused.
            RefusesToCreate D.told.honest D.told.seen D.told.images D.told.fault_count disk refused.0
            refused.1) }
        ensures honesty { IfOk result (λ log. D.told.honest log.journal.disk ≡ D.told.honest disk) }
        ensures calm { IfOk result (λ log. D.told.fault_count log.journal.disk ≡ D.told.fault_count disk) }
    {
        match Journal::create(disk, lane, lanes) {
            Ok(journal) => Ok(Log::opened(journal, History::new(), 0)),
            Err(refused) => Err(refused),
        }
    }

    /// The log of a journal that was opened and has these commands, so many, as its records.
    pub fn opened(journal: Journal<D>, history: History<Day, Command>, count: u64) -> Log<D>
        requires running { journal.stopped ≡ false }
        requires counted { journal.count ≡ length history }
        requires measured { journal.gate ≡ length (body journal.lanes journal.lane (payloads history)) }
        requires count { count ≡ length history }
        requires held { IsTrue (D.told.honest journal.disk) → Holds D.told.honest D.told.seen D.told.images
            journal
            (payloads history) }
        ensures { result ≡ record {
          journal = journal;
          history = history;
          failed = [];
          opened = length history;
          faults = D.told.fault_count journal.disk;
        } }
    {
        let faults = journal.faults();
        Log {
            journal,
            history,
            failed: History::new(),
            count,
            opened: count,
            faults,
        }
    }

    /// How many commands are acknowledged. As long as no append has failed, each image of an honest disk
    /// stands for them.
    pub fn count(&self) -> u64
        ensures count { result ≡ length self.now.history }
        ensures held { self.now.journal.stopped ≡ false → IsTrue (D.told.honest self.now.journal.disk)
            → Holds D.told.honest D.told.seen D.told.images self.now.journal (payloads self.now.history) }
    {
        self.count
    }

    /// The number of lanes that the header tells.
    pub fn lanes(&self) -> u16
        ensures { result ≡ self.now.journal.lanes }
    {
        self.journal.lanes()
    }

    /// The disk as it is. Its count of failed calls has risen since the log was opened if an append has
    /// failed, and stands still otherwise.
    pub fn into_disk(self) -> D
        ensures disk { result ≡ self.journal.disk }
        ensures stands { IsTrue (D.told.honest self.journal.disk) → StandsForLog self
            (D.told.seen self.journal.disk) }
        ensures durable { IsTrue (D.told.honest self.journal.disk) → self.journal.stopped ≡ false
            → KeepsAll D.told.images self }
        ensures caused { self.journal.stopped ≡ true → Rose self.faults
            (D.told.fault_count self.journal.disk) }
        ensures calm { self.journal.stopped ≡ false → D.told.fault_count self.journal.disk ≡ self.faults }
    {
        self.journal.into_disk()
    }

    /// Whether an append has failed, so that no other one begins.
    pub fn is_stopped(&self) -> bool
        ensures { result ≡ self.now.journal.stopped }
    {
        self.journal.is_stopped()
    }

    /// Writes a command down, with the day on which it came. An `Err` leaves the history as it was; after
    /// `DiskFault` the command is marked. It takes no memory.
    pub fn append(&mut self, today: Day, command: &Command, bytes: &[u8]) -> Result<(), AppendFault>
        requires payload { bytes.now ≡ payload (today, command.now) }
        requires sized { IsSized bytes.now }
        ensures outcome { Appends D.told.fault_count self.old self.new (today, command.now)
            (length bytes.now) result }
        ensures few { OnOk result (length self.old.history < 2 ^ 32) }
        ensures moments { self.old.journal.stopped ≡ false → IsTrue (D.told.honest self.old.journal.disk)
            → AtEachMoment D.told.moment D.told.left_since self.old.journal.disk self.new.journal.disk
            (IsWithOrWithout self.old.journal.lanes self.old.journal.lane
            (payloads self.old.history) bytes.now) }
        ensures same { (self.new.opened ≡ self.old.opened) × (self.new.faults ≡ self.old.faults) }
        ensures place { (self.new.journal.lanes ≡ self.old.journal.lanes)
            × (self.new.journal.lane ≡ self.old.journal.lane) }
        ensures honesty { D.told.honest self.new.journal.disk ≡ D.told.honest self.old.journal.disk }
        ensures rising { D.told.fault_count self.old.journal.disk ≤ D.told.fault_count self.new.journal.disk }
    {
        match self.journal.append(bytes) {
            Ok(number) => {
                self.history.note(&today, command);
                self.count = number as u64 + 1;
                Ok(())
            }
            Err(AppendFault::DiskFault) => {
                self.failed.note(&today, command);
                Err(AppendFault::DiskFault)
            }
            Err(AppendFault::Stopped(count)) => Err(AppendFault::Stopped(count)),
            Err(AppendFault::Full { commands, size }) => Err(AppendFault::Full { commands, size }),
        }
    }
}
