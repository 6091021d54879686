//! What a lane does by itself.
ghost use Rattle.std.specs.Prelude.{◌≡◌, ◌≤◌, ◌<◌, ◌^◌, ◌↔◌, ◌∷◌, ◌++◌, [], drop, ℕ, Some, Err, List};
ghost use Rattle.std.specs.Prelude.{true, false, length, IsSome, IfSome};
ghost use Rattle.std.specs.Option.{option_to_list};
ghost use Rattle.kb_days.specs.Calendar.{last_day};
ghost use Rattle.kb_codec.specs.Entries.{Entry};
ghost use Rattle.kb_book.specs.declared.step.Step.TheVariants as steps;
ghost use Rattle.kb_machine.specs.Judged.{is_new};
ghost use Rattle.kb_machine.specs.Machines.{judged};
ghost use Rattle.kb_lane.specs.declared.work.Work.{Work as AnyWork};
ghost use Rattle.kb_lane.specs.declared.work.Work.TheVariants as works;
ghost use Rattle.kb_lane.specs.Orders.{order_of};
ghost use Rattle.kb_lane.specs.Private.Settlements.{AreReady};
ghost use Rattle.kb_lane.specs.Lanes.{StandsThroughout, StaysItself, machine_of};
ghost use Rattle.kb_lane.specs.LaneWork.{lane_work};
ghost use Rattle.kb_lane.specs.Draining.{due_of, Looks, Asks, Orders, Writes, IsWritten};
ghost use Rattle.kb_lane.specs.Private.Runs.{SettlesNone, IsBusy};

use crate::lane::Lane;
use crate::order::order_of;
use crate::settlement::Settlements;
use crate::work::Work;
use crate::written::{stopped_by, write};
use kb_book::{LaneReply, Step};
use kb_codec::Command;
use kb_days::{Day, Name};
use kb_disk::Disk;
use kb_gateway::{Gateway, Order};
use std::alloc::Global;

impl<D: Disk, G: Gateway + Drop> Lane<D, G> {
    /// Handles the entry at the front of the outbox: `Idle` comes if there is none. To look at an account
    /// accepts the command that it asks for by itself, if there is one. To ask for a payment asks the
    /// gateway, and accepts the settlement by its answer, unless it failed or can't say. A step that isn't
    /// `Done` leaves the entry in its place, but if the gateway was asked. A lane that has stopped asks
    /// nothing, and all memory is taken before the gateway is asked. Each step that is `Done` takes work off
    /// what the lane has left to do on that day.
    pub fn handle_next(&mut self, alloc: Global, today: Day) -> Step
        ensures idle { result ≡ steps.Idle ↔ (self.old.outbox ≡ []) }
        ensures rests { self.old.outbox ≡ [] → self.new ≡ self.old }
        ensures looks { (account : List ℕ) (later : List AnyWork)
            → self.old.outbox ≡ works.Check account ∷ later
            → Looks D.told.fault_count self.old self.new today (works.Check account) later
            (due_of (machine_of self.old) today account) result }
        ensures orders { (account key : List ℕ) (later : List AnyWork)
            → self.old.outbox ≡ works.Ask account key ∷ later
            → Orders D.told.fault_count G.told self.old self.new today account key later result }
        ensures moments { (entry : Entry) → IsWritten self.old.log self.new.log entry
            → StandsThroughout D.told.honest D.told.moment D.told.left_since self.old.log self.new.log entry }
        ensures itself { StaysItself D.told.honest D.told.fault_count self.old self.new }
        ensures lowers { result ≡ steps.Done → lane_work today self.new < lane_work today self.old }
    {
        self.is_within(today);
        let Some(work) = self.first() else {
            return Step::Idle;
        };
        self.handle(alloc, today, work)
    }

    /// A history has fewer commands than a number counts, and a day is one that a command may name: what
    /// the work left is measured by.
    fn is_within(&self, today: Day)
        ensures few { length self.now.log.history < 2 ^ 64 }
        ensures last { today ≤ last_day }
    {
        let _ = (self.log.count(), today.number());
    }

    /// The entry at the front of the outbox.
    fn first(&self) -> Option<Work>
        ensures { option_to_list result ++ drop 1 self.now.outbox ≡ self.now.outbox }
    {
        self.outbox.front().copied()
    }

    /// Handles the entry at the front of the outbox.
    fn handle(&mut self, alloc: Global, today: Day, work: Work) -> Step
        requires first { work ∷ drop 1 self.old.outbox ≡ self.old.outbox }
        ensures busy { result ≡ steps.Idle → ⊥ }
        ensures looks { (account : List ℕ) (later : List AnyWork)
            → self.old.outbox ≡ works.Check account ∷ later
            → Looks D.told.fault_count self.old self.new today (works.Check account) later
            (due_of (machine_of self.old) today account) result }
        ensures orders { (account key : List ℕ) (later : List AnyWork)
            → self.old.outbox ≡ works.Ask account key ∷ later
            → Orders D.told.fault_count G.told self.old self.new today account key later result }
        ensures moments { (entry : Entry) → IsWritten self.old.log self.new.log entry
            → StandsThroughout D.told.honest D.told.moment D.told.left_since self.old.log self.new.log entry }
        ensures itself { StaysItself D.told.honest D.told.fault_count self.old self.new }
    {
        match work {
            Work::Check(account) => self.look(alloc, today, account),
            Work::Ask(account, key) => self.order(alloc, today, account, key),
        }
    }

    /// Looks at an account, and accepts the command that it asks for by itself.
    fn look(&mut self, alloc: Global, today: Day, account: Name) -> Step
        requires first { works.Check account ∷ drop 1 self.old.outbox ≡ self.old.outbox }
        ensures busy { result ≡ steps.Idle → ⊥ }
        ensures looks { (later : List AnyWork) → self.old.outbox ≡ works.Check account ∷ later
            → Looks D.told.fault_count self.old self.new today (works.Check account) later
            (due_of (machine_of self.old) today account) result }
        ensures moments { (entry : Entry) → IsWritten self.old.log self.new.log entry
            → StandsThroughout D.told.honest D.told.moment D.told.left_since self.old.log self.new.log entry }
        ensures itself { StaysItself D.told.honest D.told.fault_count self.old self.new }
    {
        let Some(command) = self.due(today, &account) else {
            self.outbox.pop_front();
            return Step::Done;
        };
        match self.accept_own(alloc, today, &command) {
            Step::Done => {
                self.outbox.pop_front();
                Step::Done
            }
            step => step,
        }
    }

    /// Accepts a command of the lane's own, which is new.
    #[tactic(auto, using(crate::proofs::WrittenDown::written_moments))]
    pub(crate) fn accept_own(&mut self, alloc: Global, today: Day, command: &Command) -> Step
        requires new { is_new (judged (machine_of self.old) today command.now) ≡ true }
        requires free { SettlesNone command.now self.old.outbox }
        ensures writes { Writes D.told.fault_count self.old self.new (today, command.now) result }
        ensures gateway { self.new.gateway ≡ self.old.gateway }
        ensures own { self.new.own ≡ self.old.own }
        ensures moments { (entry : Entry) → IsWritten self.old.log self.new.log entry
            → StandsThroughout D.told.honest D.told.moment D.told.left_since self.old.log self.new.log entry }
        ensures itself { StaysItself D.told.honest D.told.fault_count self.old self.new }
    {
        match self.accept(alloc, today, command) {
            LaneReply::Accepted(_) | LaneReply::Version(_) | LaneReply::States(_) => Step::Done,
            LaneReply::Refused(_) => unreachable!(),
            LaneReply::DiskFault => Step::DiskFault,
            LaneReply::Stopped(count) => Step::Stopped(count),
            LaneReply::Full { commands, size } => Step::Full { commands, size },
            LaneReply::NoMemory => Step::NoMemory,
        }
    }

    /// The command that an account asks for by itself: it is new.
    #[tactic(auto, using(kb_histories::proofs::DueNews::due_commands_are_new, kb_histories::proofs::NamedBooks::replays_are_named, crate::proofs::Freed::due_settles_none))]
    fn due(&self, today: Day, account: &Name) -> Option<Command>
        ensures due { result ≡ due_of (machine_of self.now) today account.now }
        ensures new { IfSome result (λ command. is_new (judged (machine_of self.now) today command) ≡ true) }
        ensures free { IfSome result (λ command. (outbox : List AnyWork) → SettlesNone command outbox) }
    {
        match self.machine.books().get(account) {
            Some(book) => book.due_next(self.machine.world(), today),
            None => None,
        }
    }

    /// Asks the gateway for a payment, and settles it by the answer: first all memory is taken.
    fn order(&mut self, alloc: Global, today: Day, account: Name, key: Name) -> Step
        requires first { works.Ask account key ∷ drop 1 self.old.outbox ≡ self.old.outbox }
        ensures busy { result ≡ steps.Idle → ⊥ }
        ensures orders { (later : List AnyWork) → self.old.outbox ≡ works.Ask account key ∷ later
            → Orders D.told.fault_count G.told self.old self.new today account key later result }
        ensures moments { (entry : Entry) → IsWritten self.old.log self.new.log entry
            → StandsThroughout D.told.honest D.told.moment D.told.left_since self.old.log self.new.log entry }
        ensures itself { StaysItself D.told.honest D.told.fault_count self.old self.new }
    {
        if self.log.is_stopped() {
            return Step::Stopped(self.log.count());
        }
        let order = self.order_of(account, key);
        match Settlements::all(&self.machine, alloc, today, account, key) {
            Ok(ready) => self.ask(today, account, key, &order, ready),
            Err(_) => Step::NoMemory,
        }
    }

    /// Asks the gateway for an order, and takes it off the outbox; then settles it by the answer, for which
    /// it takes no memory.
    #[tactic(auto, using(crate::proofs::Choices::all_four))]
    fn ask(
        &mut self,
        today: Day,
        account: Name,
        key: Name,
        order: &Order,
        ready: Settlements,
    ) -> Step
        requires first { works.Ask account key ∷ drop 1 self.old.outbox ≡ self.old.outbox }
        requires running { self.old.log.journal.stopped ≡ false }
        requires ordered { order_of (machine_of self.old) account key ≡ Some order.now }
        requires ready { AreReady (machine_of self.old) today account key ready }
        ensures busy { IsBusy result }
        ensures asked { (later : List AnyWork) → self.old.outbox ≡ works.Ask account key ∷ later
            → Asks D.told.fault_count G.told self.old self.new today account key later result }
        ensures moments { (entry : Entry) → IsWritten self.old.log self.new.log entry
            → StandsThroughout D.told.honest D.told.moment D.told.left_since self.old.log self.new.log entry }
        ensures itself { StaysItself D.told.honest D.told.fault_count self.old self.new }
    {
        let answer = self.gateway.ask(order);
        self.own.note(&account, &key);
        self.outbox.pop_front();
        let Some(settlement) = ready.chosen(answer) else {
            return Step::Done;
        };
        match write(&mut self.machine, &mut self.log, today, settlement) {
            Ok(()) => {
                self.outbox.push_back_reserved(Work::Check(account));
                Step::Done
            }
            Err(fault) => stopped_by(fault),
        }
    }

    /// The order for an attempt of an account.
    pub(crate) fn order_of(&self, account: Name, key: Name) -> Order
        requires there { IsSome (order_of (machine_of self.now) account key) }
        ensures { order_of (machine_of self.now) account key ≡ Some result }
    {
        order_of(&self.machine, account, key)
    }
}
