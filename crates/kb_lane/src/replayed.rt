//! Records, performed one after another.
ghost use Rattle.std.specs.Prelude.{◌≡◌, [], IfOk, IfErr};
ghost use Rattle.kb_codec.specs.Entries.{Entry, IsEntry, payload, payloads};
ghost use Rattle.kb_machine.specs.Machines.{no_machine};
ghost use Rattle.kb_machine.specs.Histories.{replay, AreNewFrom};
ghost use Rattle.kb_lane.specs.Private.Replays.{Adds, IsUnreplayed, place_of};

use crate::payload::read_payload;
use kb_base::{History, NoMemory};
use kb_book::Unprepared;
use kb_codec::Command;
use kb_days::Day;
use kb_journal::{LoadFault, Records};
use kb_machine::{Machine, Planned};
use std::alloc::Global;
use std::marker::Model;

/// What some records of a journal lead to. Contracts see it as the commands that they are.
#[derive(Drop)]
pub struct Replayed {
    machine: Machine,
    history: History<Day, Command>,
    /// Where the gate behind them stands.
    place: u64,
}

impl Model for Replayed {
    ghost use Rattle.kb_codec.specs.Entries.{History};
    ghost use Rattle.kb_lane.specs.Private.Replays.{IsReplay};

    ghost Value = { History };

    ghost view = { λ past. past.history };

    ghost invariant = { λ past. IsReplay past.machine past.history past.place };
}

impl Replayed {
    /// No record yet.
    #[tactic(auto, using(kb_machine::proofs::Replays::replay_none, kb_machine::proofs::Replays::fresh_none, crate::proofs::Places::no_place))]
    pub fn new(alloc: Global) -> Replayed
        ensures { result ≡ [] }
    {
        Replayed {
            machine: Machine::new(alloc),
            history: History::new(),
            place: 16,
        }
    }

    /// Where the gate behind them stands.
    pub fn place(&self) -> u64
        ensures place { result ≡ place_of self.now }
        ensures fresh { AreNewFrom no_machine self.now }
    {
        self.place
    }

    /// The machine that they lead to, and their history.
    pub fn into_parts(self) -> (Machine, History<Day, Command>)
        ensures machine { result.0 ≡ replay self }
        ensures history { result.1 ≡ self }
        ensures fresh { AreNewFrom no_machine self }
    {
        (self.machine, self.history)
    }

    /// Performs a record: whether it is a command that is new. One that isn't leaves all as it was.
    pub fn add(&mut self, alloc: Global, bytes: &[u8]) -> Result<bool, NoMemory>
        ensures { IfOk result (λ added. Adds self.old bytes.now added self.new) }
    {
        match read_payload(alloc, bytes)? {
            Some((today, command)) => self.perform(alloc, bytes, today, &command),
            None => Ok(false),
        }
    }

    /// Performs the command of a record.
    #[tactic(auto, using(crate::proofs::Stuck::stuck_again, crate::proofs::Stuck::stuck_refused))]
    fn perform(
        &mut self,
        alloc: Global,
        bytes: &[u8],
        today: Day,
        command: &Command,
    ) -> Result<bool, NoMemory>
        requires payload { payload (today, command.now) ≡ bytes.now }
        requires only { (other : Entry) → IsEntry other → payload other ≡ bytes.now
            → other ≡ (today, command.now) }
        ensures { IfOk result (λ added. Adds self.old bytes.now added self.new) }
    {
        let Some(next) = self.place.checked_add(bytes.len() as u64 + 5) else {
            return Err(NoMemory);
        };
        match self.machine.prepare(alloc, today, command) {
            Ok(Planned::Change(change)) => {
                self.machine.commit(change);
                self.history.note(&today, command);
                self.place = next;
                Ok(true)
            }
            Ok(Planned::Opened(opened)) => {
                self.machine.open(opened.account, opened.book)?;
                self.history.note(&today, command);
                self.place = next;
                Ok(true)
            }
            Ok(Planned::Again(_)) => Ok(false),
            Err(Unprepared::Refused(_)) => Ok(false),
            Err(Unprepared::NoMemory) => Err(NoMemory),
        }
    }
}

/// What all records lead to, or the first of them that is no new command.
pub fn replay_all(alloc: Global, records: &Records) -> Result<Replayed, LoadFault>
    ensures all { IfOk result (λ past. payloads past ≡ records.now) }
    ensures stuck { IfErr result (IsUnreplayed records.now) }
{
    let mut past = Replayed::new(alloc);
    for bytes in records.iter() {
        match past.add(alloc, bytes) {
            Ok(true) => {}
            Ok(false) => return Err(LoadFault::NotAJournal(past.place())),
            Err(_) => return Err(LoadFault::NoMemory),
        }
    }
    Ok(past)
}
