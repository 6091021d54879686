//! A lane, and what it tells of itself.
ghost use Rattle.std.specs.Prelude.{◌≡◌, ◌≤◌, ◌<◌, [], true, false, length, IsTrue, IfOk, IfErr};
ghost use Rattle.std.specs.Option.{option_copied};
ghost use Rattle.kb_base.specs.Faults.{Rose};
ghost use Rattle.kb_journal.specs.Keeping.{Holds, RefusesToCreate};
ghost use Rattle.kb_codec.specs.Entries.{payloads};
ghost use Rattle.kb_gateway.specs.Told.{payments_asked};
ghost use Rattle.kb_lane.specs.Logs.{KeepsAll, StandsForLog};
ghost use Rattle.kb_machine.specs.Machines.{book_of};
ghost use Rattle.kb_lane.specs.Asking.{HaveAttempts, WasAskedOnce};
ghost use Rattle.kb_lane.specs.Lanes.{machine_of, opened_of};

use crate::log::Log;
use crate::work::Work;
use kb_account::{Book, World};
use kb_base::History;
use kb_days::Name;
use kb_disk::Disk;
use kb_gateway::Gateway;
use kb_journal::CreateFault;
use kb_machine::Machine;
use std::alloc::Global;
use std::collections::VecDeque;
use std::marker::Model;

/// Accounts on a journal, with what is yet to do for them and the gateway that is asked for payments.
pub struct Lane<D: Disk, G: Gateway + Drop> {
    pub(crate) machine: Machine,
    pub(crate) log: Log<D>,
    pub(crate) outbox: VecDeque<Work>,
    pub(crate) gateway: G,
    /// The accounts and keys of the payments that the gateway was asked for since the lane was opened.
    pub(crate) own: History<Name, Name>,
}

impl<D: Disk + Drop, G: Gateway + Drop> Drop for Lane<D, G> {
    /// Drops all that it holds. No crate above has to show again how that is dropped.
    fn drop(self) {
        let Lane {
            machine: _machine,
            log: _log,
            outbox: _outbox,
            gateway: _gateway,
            own: _own,
        } = self;
    }
}

impl<D: Disk, G: Gateway + Drop> Model for Lane<D, G> {
    ghost use Rattle.std.specs.Prelude.{map};
    ghost use Rattle.std.specs.VecDeque.{deque_items};
    ghost use Rattle.kb_gateway.specs.Told.{payments_asked};
    ghost use Rattle.kb_lane.specs.Asking.{asked_for};
    ghost use Rattle.kb_lane.specs.Lanes.{LaneValue, IsLane};

    ghost Value = { LaneValue D G };

    ghost view = { λ lane. record {
      log = lane.log;
      outbox = deque_items lane.outbox;
      gateway = lane.gateway;
      own = map asked_for lane.own;
    } };

    ghost invariant = { λ lane. IsLane {D = D} {G = G} (payments_asked G.told) lane.machine (record {
      log = lane.log;
      outbox = deque_items lane.outbox;
      gateway = lane.gateway;
      own = map asked_for lane.own;
    }) };
}

impl<D: Disk, G: Gateway + Drop> Lane<D, G> {
    /// A lane without an account, of this number among so many, on a disk without bytes. A fault gives the
    /// disk and the gateway back.
    #[tactic(auto, using(kb_machine::proofs::Replays::replay_none, kb_machine::proofs::Replays::fresh_none))]
    pub fn create(
        alloc: Global,
        disk: D,
        gateway: G,
        lane: u16,
        lanes: u16,
    ) -> Result<Lane<D, G>, (CreateFault, D, G)>
        requires some_lanes { 1 ≤ lanes }
        requires few_lanes { lanes ≤ 64 }
        requires one_of_them { lane < lanes }
        ensures empty { IfOk result (λ made. made.log.history ≡ []) }
        ensures opened { IfOk result (λ made. made.log.opened ≡ 0) }
        ensures running { IfOk result (λ made. made.log.journal.stopped ≡ false) }
        ensures place { IfOk result (λ made. (made.log.journal.lanes ≡ lanes)
            × (made.log.journal.lane ≡ lane)) }
        ensures honesty { IfOk result (λ made. D.told.honest made.log.journal.disk ≡ D.told.honest disk) }
        ensures calm { IfOk result
            (λ made. D.told.fault_count made.log.journal.disk ≡ D.told.fault_count disk) }
        ensures faults { IfOk result (λ made. made.log.faults ≡ D.told.fault_count disk) }
        ensures outbox { IfOk result (λ made. made.outbox ≡ []) }
        ensures own { IfOk result (λ made. made.own ≡ []) }
        ensures gateway { IfOk result (λ made. made.gateway ≡ gateway) }
        ensures refused { IfErr result (λ refused.
            RefusesToCreate D.told.honest D.told.seen D.told.images D.told.fault_count disk refused.0
            refused.1) }
        ensures same_gateway { IfErr result (λ refused. refused.2 ≡ gateway) }
    {
        match Log::create(disk, lane, lanes) {
            Ok(log) => Ok(Lane {
                machine: Machine::new(alloc),
                log,
                outbox: VecDeque::new(alloc),
                gateway,
                own: History::new(),
            }),
            Err((fault, disk)) => Err((fault, disk, gateway)),
        }
    }

    /// The disk and the gateway, as they are. The bytes of an honest disk stand for the history, and a crash
    /// leaves no other ones, and no call of the disk has failed since the lane was opened; or, if an append
    /// has failed, they stand for that or for it and the command whose append failed, and the disk's count of
    /// failed calls has risen since then. If the gateway tells what it was asked, it was asked for no payment
    /// twice, provided that before the lane was opened it was asked once each, for attempts that the lane had
    /// then. Each payment that the lane asked for since it was opened has an attempt.
    pub fn into_parts(self) -> (D, G)
        ensures disk { result.0 ≡ self.log.journal.disk }
        ensures gateway { result.1 ≡ self.gateway }
        ensures stands { IsTrue (D.told.honest self.log.journal.disk)
            → StandsForLog self.log (D.told.seen self.log.journal.disk) }
        ensures durable { IsTrue (D.told.honest self.log.journal.disk) → self.log.journal.stopped ≡ false
            → KeepsAll D.told.images self.log }
        ensures caused { self.log.journal.stopped ≡ true
            → Rose self.log.faults (D.told.fault_count self.log.journal.disk) }
        ensures calm { self.log.journal.stopped ≡ false
            → D.told.fault_count self.log.journal.disk ≡ self.log.faults }
        ensures once { WasAskedOnce (opened_of self) (payments_asked G.told self.gateway) self.own }
        ensures attempts { HaveAttempts (machine_of self) self.own }
    {
        let Lane {
            machine: _machine,
            log,
            outbox: _outbox,
            gateway,
            own: _own,
        } = self;
        (log.into_disk(), gateway)
    }

    /// The number of lanes that the header tells.
    pub fn lanes(&self) -> u16
        ensures { result ≡ self.now.log.journal.lanes }
    {
        self.log.lanes()
    }

    /// Whether an append has failed: then no further command is written down, until the lane is loaded again.
    pub fn is_stopped(&self) -> bool
        ensures { result ≡ self.now.log.journal.stopped }
    {
        self.log.is_stopped()
    }

    /// How many commands are acknowledged. As long as no append has failed, each image of an honest disk
    /// stands for them.
    pub fn count(&self) -> u64
        ensures count { result ≡ length self.now.log.history }
        ensures held { self.now.log.journal.stopped ≡ false → IsTrue (D.told.honest self.now.log.journal.disk)
            → Holds D.told.honest D.told.seen D.told.images self.now.log.journal
            (payloads self.now.log.history) }
    {
        self.log.count()
    }

    /// The book of an account, if it is there.
    pub fn book(&self, account: &Name) -> Option<&Book>
        ensures { option_copied result ≡ book_of (machine_of self.now) account.now }
    {
        self.machine.books().get(account)
    }

    /// What the texts say.
    pub fn world(&self) -> &World
        ensures { result.now ≡ (machine_of self.now).texts.world }
    {
        self.machine.world()
    }
}
