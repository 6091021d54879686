//! Lanes that are loaded.
ghost use Rattle.std.specs.Prelude.{◌≡◌, ◌≤◌, [], false, length, IsTrue, IfOk, IfErr};
ghost use Rattle.kb_journal.specs.Keeping.{Holds};
ghost use Rattle.kb_journal.specs.Format.{StandsFor, body};
ghost use Rattle.kb_journal.specs.Unwritten.{IsUnwritten};
ghost use Rattle.kb_codec.specs.Entries.{payloads};
ghost use Rattle.kb_machine.specs.Machines.{no_machine};
ghost use Rattle.kb_machine.specs.Histories.{AreNewFrom};
ghost use Rattle.kb_lane.specs.Loads.{RefusesLane};

use crate::lane::Lane;
use crate::log::Log;
use crate::replayed::{Replayed, replay_all};
use kb_base::History;
use kb_disk::Disk;
use kb_gateway::Gateway;
use kb_journal::{Journal, LoadFault};
use std::alloc::Global;
use std::collections::VecDeque;

impl<D: Disk, G: Gateway + Drop> Lane<D, G> {
    /// The lane of this number on a disk: its history is the list of commands that the bytes stand for, each
    /// new to those before it, and its outbox is empty. The disk is synced first, and nothing is written. A
    /// fault gives the disk and the gateway back.
    pub fn load(
        alloc: Global,
        disk: D,
        gateway: G,
        lane: u16,
    ) -> Result<Lane<D, G>, (LoadFault, D, G)>
        ensures history { IsTrue (D.told.honest disk)
            → IfOk result (λ loaded. StandsFor loaded.log.journal.lanes lane
            (payloads loaded.log.history) (D.told.seen disk)) }
        ensures fresh { IfOk result (λ loaded. AreNewFrom no_machine loaded.log.history) }
        ensures opened { IfOk result (λ loaded. loaded.log.opened ≡ length loaded.log.history) }
        ensures running { IfOk result (λ loaded. loaded.log.journal.stopped ≡ false) }
        ensures place { IfOk result (λ loaded. loaded.log.journal.lane ≡ lane) }
        ensures some_lanes { IfOk result (λ loaded. 1 ≤ loaded.log.journal.lanes) }
        ensures few_lanes { IfOk result (λ loaded. loaded.log.journal.lanes ≤ 64) }
        ensures calm { IfOk result (λ loaded.
            D.told.fault_count loaded.log.journal.disk ≡ D.told.fault_count disk) }
        ensures faults { IfOk result
            (λ loaded. loaded.log.faults ≡ D.told.fault_count loaded.log.journal.disk) }
        ensures outbox { IfOk result (λ loaded. loaded.outbox ≡ []) }
        ensures own { IfOk result (λ loaded. loaded.own ≡ []) }
        ensures gateway { IfOk result (λ loaded. loaded.gateway ≡ gateway) }
        ensures unwritten { IfOk result
            (λ loaded. IsUnwritten D.told.honest D.told.images D.told.moment D.told.left_since
            D.told.fault_count disk loaded.log.journal.disk) }
        ensures refused { IfErr result (λ refused.
            RefusesLane D.told.honest D.told.seen D.told.fault_count lane disk refused.0 refused.1) }
        ensures unwritten_too { IfErr result (λ refused. IsUnwritten D.told.honest D.told.images D.told.moment D.told.left_since
            D.told.fault_count disk refused.1) }
        ensures same_gateway { IfErr result (λ refused. refused.2 ≡ gateway) }
    {
        match Journal::load(alloc, disk, lane) {
            Err((fault, disk)) => Err((fault, disk, gateway)),
            Ok((journal, records)) => match replay_all(alloc, &records) {
                Ok(past) => Ok(Lane::opened(alloc, journal, gateway, past, records.len() as u64)),
                Err(fault) => Err((fault, journal.into_disk(), gateway)),
            },
        }
    }

    /// The lane of a journal whose records lead to this.
    fn opened(
        alloc: Global,
        journal: Journal<D>,
        gateway: G,
        past: Replayed,
        count: u64,
    ) -> Lane<D, G>
        requires running { journal.stopped ≡ false }
        requires counted { journal.count ≡ length past }
        requires measured { journal.gate ≡ length (body journal.lanes journal.lane (payloads past)) }
        requires count { count ≡ length past }
        requires held { IsTrue (D.told.honest journal.disk)
            → Holds D.told.honest D.told.seen D.told.images journal (payloads past) }
        ensures fresh { AreNewFrom no_machine past }
        ensures made { result ≡ record {
          log = record {
            journal = journal;
            history = past;
            failed = [];
            opened = length past;
            faults = D.told.fault_count journal.disk;
          };
          outbox = [];
          gateway = gateway;
          own = [];
        } }
    {
        let (machine, history) = past.into_parts();
        Lane {
            machine,
            log: Log::opened(journal, history, count),
            outbox: VecDeque::new(alloc),
            gateway,
            own: History::new(),
        }
    }
}
