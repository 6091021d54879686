//! Commands that a lane performs.
ghost use Rattle.std.specs.Prelude.{◌≡◌, ◌≤◌, ◌+◌, ◌++◌, ◌∷◌, [], ℕ, true, false, length};
ghost use Rattle.std.specs.Prelude.{IfOk, IfErr, OnOk, OnErr, None};
ghost use Rattle.std.specs.Option.{option_to_list};
ghost use Rattle.std.specs.VecDeque.{deque_items, deque_len, deque_capacity};
ghost use Rattle.kb_codec.specs.Entries.{payload};
ghost use Rattle.kb_lane.specs.Logs.{MayAppend, IsTooFullFor, written_size};
ghost use Rattle.kb_book.specs.declared.refusal.Refusal.{Refusal};
ghost use Rattle.kb_book.specs.declared.reply.LaneReply.TheVariants as replies;
ghost use Rattle.kb_machine.specs.Judged.{New, is_new};
ghost use Rattle.kb_machine.specs.Machines.{judged, reply_of, with_book, book_of};
ghost use Rattle.kb_codec.specs.Senders.{is_callers};
ghost use Rattle.kb_machine.specs.Plans.{changed, change_reply, plan_judged, IsThere, Fits};
ghost use Rattle.kb_lane.specs.Lanes.{StandsThroughout, StaysItself, machine_of};
ghost use Rattle.kb_lane.specs.Outbox.{work_of};
ghost use Rattle.kb_lane.specs.Replies.{IsReply, is_accepted, is_taken, Takes, IsMarked};
ghost use Rattle.kb_lane.specs.Private.Unwritten.{IsUnwritten, HasWritten, unwritten_reply};
ghost use Rattle.kb_lane.specs.Private.Runs.{SettlesNone};

use crate::lane::Lane;
use crate::outbox::{ask_of, check_of};
use crate::payload::payload_of;
use crate::work::Work;
use kb_book::{LaneReply, Unprepared};
use kb_codec::Command;
use kb_days::Day;
use kb_disk::Disk;
use kb_gateway::Gateway;
use kb_journal::AppendFault;
use kb_machine::{Change, Opened, Planned};
use std::alloc::Global;
use std::collections::VecDeque;

/// Why a new command isn't taken in.
#[derive(Clone, Copy)]
pub enum Unwritten {
    /// Memory ran out before it was written down.
    NoMemory,
    /// It wasn't written down.
    Append(AppendFault),
}

impl<D: Disk, G: Gateway + Drop> Lane<D, G> {
    /// Writes a new command down, and takes in what it changes.
    #[tactic(auto, using(kb_machine::proofs::Replays::replay_new, kb_machine::proofs::Replays::fresh_new))]
    fn take_in(
        &mut self,
        alloc: Global,
        today: Day,
        command: &Command,
        change: Change,
    ) -> Result<LaneReply, Unwritten>
        requires planned { judged (machine_of self.old) today command.now
            ≡ New (change_reply change) (changed (machine_of self.old) change) }
        requires there { IsThere (machine_of self.old) change }
        requires free { SettlesNone command.now self.old.outbox }
        ensures reply { IfOk result (λ reply. reply ≡ change_reply change) }
        ensures history { OnOk result (self.new.log.history
            ≡ self.old.log.history ++ (today, command.now) ∷ []) }
        ensures outbox { OnOk result (self.new.outbox ≡ self.old.outbox ++ work_of (today, command.now)) }
        ensures failed { OnOk result (self.new.log.failed ≡ self.old.log.failed) }
        ensures running { OnOk result (self.new.log.journal.stopped ≡ false) }
        ensures may { OnOk result (MayAppend self.old.log (length (payload (today, command.now)))) }
        ensures unwritten { IfErr result
            (IsUnwritten D.told.fault_count self.old self.new (today, command.now)
            (length (payload (today, command.now)))) }
        ensures moments { HasWritten result
            → StandsThroughout D.told.honest D.told.moment D.told.left_since self.old.log self.new.log
            (today, command.now) }
        ensures gateway { self.new.gateway ≡ self.old.gateway }
        ensures own { self.new.own ≡ self.old.own }
        ensures itself { StaysItself D.told.honest D.told.fault_count self.old self.new }
    {
        let Ok(bytes) = payload_of(alloc, today, command) else {
            return Err(Unwritten::NoMemory);
        };
        let Ok(ask) = ask_of(alloc, today, command) else {
            return Err(Unwritten::NoMemory);
        };
        let check = check_of(command);
        if self.outbox.reserve(2).is_err() {
            return Err(Unwritten::NoMemory);
        }
        match self.log.append(today, command, &bytes) {
            Ok(()) => {
                push_works(&mut self.outbox, ask, check);
                Ok(self.machine.commit(change))
            }
            Err(fault) => Err(without(change, fault)),
        }
    }

    /// Writes the opening of an account down, and takes it in. Its book takes its place first, so that memory
    /// is there, and goes out again unless the command is written down.
    #[tactic(auto, using(kb_machine::proofs::Replays::replay_new, kb_machine::proofs::Replays::fresh_new))]
    fn open(
        &mut self,
        alloc: Global,
        today: Day,
        command: &Command,
        opened: Opened,
    ) -> Result<LaneReply, Unwritten>
        requires planned { judged (machine_of self.old) today command.now
            ≡ New (replies.Accepted opened.answer)
            (with_book (machine_of self.old) opened.account opened.book) }
        requires absent { book_of (machine_of self.old) opened.account ≡ None }
        requires free { SettlesNone command.now self.old.outbox }
        ensures reply { IfOk result (λ reply. reply ≡ replies.Accepted opened.answer) }
        ensures history { OnOk result (self.new.log.history
            ≡ self.old.log.history ++ (today, command.now) ∷ []) }
        ensures outbox { OnOk result (self.new.outbox ≡ self.old.outbox ++ work_of (today, command.now)) }
        ensures failed { OnOk result (self.new.log.failed ≡ self.old.log.failed) }
        ensures running { OnOk result (self.new.log.journal.stopped ≡ false) }
        ensures may { OnOk result (MayAppend self.old.log (length (payload (today, command.now)))) }
        ensures unwritten { IfErr result
            (IsUnwritten D.told.fault_count self.old self.new (today, command.now)
            (length (payload (today, command.now)))) }
        ensures moments { HasWritten result
            → StandsThroughout D.told.honest D.told.moment D.told.left_since self.old.log self.new.log
            (today, command.now) }
        ensures gateway { self.new.gateway ≡ self.old.gateway }
        ensures own { self.new.own ≡ self.old.own }
        ensures itself { StaysItself D.told.honest D.told.fault_count self.old self.new }
    {
        let Opened {
            account,
            book,
            answer,
        } = opened;
        let Ok(bytes) = payload_of(alloc, today, command) else {
            return Err(Unwritten::NoMemory);
        };
        let Ok(ask) = ask_of(alloc, today, command) else {
            return Err(Unwritten::NoMemory);
        };
        let check = check_of(command);
        if self.outbox.reserve(2).is_err() {
            return Err(Unwritten::NoMemory);
        }
        let Ok(()) = self.machine.open(account, book) else {
            return Err(Unwritten::NoMemory);
        };
        match self.log.append(today, command, &bytes) {
            Ok(()) => {
                push_works(&mut self.outbox, ask, check);
                Ok(LaneReply::Accepted(answer))
            }
            Err(fault) => {
                self.machine.take_back(&account);
                Err(Unwritten::Append(fault))
            }
        }
    }

    /// The reply to a command, by the plan for it.
    #[tactic(auto, using(crate::proofs::SaidReplies::change_accepted, crate::proofs::SaidReplies::again_accepted))]
    fn perform_planned(
        &mut self,
        alloc: Global,
        today: Day,
        command: &Command,
        planned: Planned,
    ) -> Result<LaneReply, Unwritten>
        requires planned { judged (machine_of self.old) today command.now
            ≡ plan_judged (machine_of self.old) planned }
        requires fits { Fits (machine_of self.old) planned }
        requires free { SettlesNone command.now self.old.outbox }
        ensures reply { IfOk result (λ reply. reply_of (judged (machine_of self.old) today command.now)
            ≡ reply) }
        ensures accepted { IfOk result (λ reply. is_accepted reply ≡ true) }
        ensures taken { OnOk result (is_new (judged (machine_of self.old) today command.now) ≡ true
            → Takes self.old self.new (today, command.now)) }
        ensures kept { OnOk result (is_new (judged (machine_of self.old) today command.now) ≡ false
            → self.new ≡ self.old) }
        ensures unwritten { IfErr result
            (IsUnwritten D.told.fault_count self.old self.new (today, command.now)
            (length (payload (today, command.now)))) }
        ensures new { OnErr result (is_new (judged (machine_of self.old) today command.now) ≡ true) }
        ensures moments { is_new (judged (machine_of self.old) today command.now) ≡ true → HasWritten result
            → StandsThroughout D.told.honest D.told.moment D.told.left_since self.old.log self.new.log
            (today, command.now) }
        ensures gateway { self.new.gateway ≡ self.old.gateway }
        ensures own { self.new.own ≡ self.old.own }
        ensures itself { StaysItself D.told.honest D.told.fault_count self.old self.new }
    {
        match planned {
            Planned::Change(change) => self.take_in(alloc, today, command, change),
            Planned::Opened(opened) => self.open(alloc, today, command, opened),
            Planned::Again(reply) => Ok(reply),
        }
    }

    /// Performs a command of a caller, or one of the lane's own.
    #[tactic(auto, using(crate::proofs::SaidReplies::accepted_reply, crate::proofs::SaidReplies::accepted_fault, crate::proofs::SaidReplies::accepted_stopped, crate::proofs::SaidReplies::accepted_full))]
    pub(crate) fn accept(&mut self, alloc: Global, today: Day, command: &Command) -> LaneReply
        requires free { SettlesNone command.now self.old.outbox }
        ensures unrefused { is_new (judged (machine_of self.old) today command.now) ≡ true
            → (refusal : Refusal) → result ≡ replies.Refused refusal → ⊥ }
        ensures reply { IsReply (judged (machine_of self.old) today command.now) result }
        ensures taken { is_taken (judged (machine_of self.old) today command.now) result ≡ true
            → Takes self.old self.new (today, command.now) }
        ensures untaken { is_taken (judged (machine_of self.old) today command.now) result ≡ false
            → (result ≡ replies.DiskFault → ⊥) → self.new ≡ self.old }
        ensures fault { result ≡ replies.DiskFault
            → IsMarked D.told.fault_count self.old self.new (today, command.now) }
        ensures stopped { (count : ℕ) → result ≡ replies.Stopped count
            → (self.old.log.journal.stopped ≡ true) × (count ≡ length self.old.log.history) }
        ensures full { (commands size : ℕ) → result ≡ replies.Full commands size
            → (self.old.log.journal.stopped ≡ false)
            × IsTooFullFor self.old.log (length (payload (today, command.now)))
            × (commands ≡ length self.old.log.history) × (size ≡ written_size self.old.log + 1) }
        ensures moments { is_new (judged (machine_of self.old) today command.now) ≡ true
            → (result ≡ replies.NoMemory → ⊥)
            → StandsThroughout D.told.honest D.told.moment D.told.left_since self.old.log self.new.log
            (today, command.now) }
        ensures gateway { self.new.gateway ≡ self.old.gateway }
        ensures own { self.new.own ≡ self.old.own }
        ensures itself { StaysItself D.told.honest D.told.fault_count self.old self.new }
    {
        match self.machine.prepare(alloc, today, command) {
            Ok(planned) => match self.perform_planned(alloc, today, command, planned) {
                Ok(reply) => reply,
                Err(unwritten) => reply_of_unwritten(unwritten),
            },
            Err(Unprepared::Refused(refusal)) => LaneReply::Refused(refusal),
            Err(Unprepared::NoMemory) => LaneReply::NoMemory,
        }
    }

    /// Performs a command that comes on a day, and gives its reply. All memory is taken before the disk is
    /// written to. Only a reply that tells that a new command is accepted comes of a change; after
    /// `DiskFault` the lane has stopped.
    pub fn perform(&mut self, alloc: Global, today: Day, command: &Command) -> LaneReply
        requires callers { is_callers command.now ≡ true }
        ensures reply { IsReply (judged (machine_of self.old) today command.now) result }
        ensures taken { is_taken (judged (machine_of self.old) today command.now) result ≡ true
            → Takes self.old self.new (today, command.now) }
        ensures untaken { is_taken (judged (machine_of self.old) today command.now) result ≡ false
            → (result ≡ replies.DiskFault → ⊥) → self.new ≡ self.old }
        ensures fault { result ≡ replies.DiskFault
            → IsMarked D.told.fault_count self.old self.new (today, command.now) }
        ensures stopped { (count : ℕ) → result ≡ replies.Stopped count
            → (self.old.log.journal.stopped ≡ true) × (count ≡ length self.old.log.history) }
        ensures full { (commands size : ℕ) → result ≡ replies.Full commands size
            → (self.old.log.journal.stopped ≡ false)
            × IsTooFullFor self.old.log (length (payload (today, command.now)))
            × (commands ≡ length self.old.log.history) × (size ≡ written_size self.old.log + 1) }
        ensures moments { is_new (judged (machine_of self.old) today command.now) ≡ true
            → (result ≡ replies.NoMemory → ⊥)
            → StandsThroughout D.told.honest D.told.moment D.told.left_since self.old.log self.new.log
            (today, command.now) }
        ensures gateway { self.new.gateway ≡ self.old.gateway }
        ensures own { self.new.own ≡ self.old.own }
        ensures itself { StaysItself D.told.honest D.told.fault_count self.old self.new }
    {
        self.accept(alloc, today, command)
    }
}

/// Lets a change go that isn't written down.
fn without(_change: Change, fault: AppendFault) -> Unwritten
    ensures { result ≡ Unwritten.Append fault }
{
    Unwritten::Append(fault)
}

/// The reply to a command that isn't taken in.
fn reply_of_unwritten(unwritten: Unwritten) -> LaneReply
    ensures { result ≡ unwritten_reply unwritten }
{
    match unwritten {
        Unwritten::NoMemory => LaneReply::NoMemory,
        Unwritten::Append(AppendFault::Stopped(count)) => LaneReply::Stopped(count),
        Unwritten::Append(AppendFault::Full { commands, size }) => {
            LaneReply::Full { commands, size }
        }
        Unwritten::Append(AppendFault::DiskFault) => LaneReply::DiskFault,
    }
}

/// Adds works to an outbox that has room for them.
fn push_works(outbox: &mut VecDeque<Work>, ask: Option<Work>, check: Option<Work>)
    requires room { deque_len outbox.old + 2 ≤ deque_capacity outbox.old }
    ensures { deque_items outbox.new
        ≡ deque_items outbox.old ++ (option_to_list ask ++ option_to_list check) }
{
    if let Some(ask) = ask {
        outbox.push_back_reserved(ask);
    }
    if let Some(check) = check {
        outbox.push_back_reserved(check);
    }
}
