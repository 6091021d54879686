//! Payments whose outcome isn't known, looked up.
ghost use Rattle.std.specs.Prelude.{◌≡◌, ◌⊎◌, ◌++◌, true, false, None, Some, IfOk, OnOk, if◌then◌else◌};
ghost use Rattle.std.specs.List.{list_any};
ghost use Rattle.kb_codec.specs.declared.command.Command.TheVariants as kinds;
ghost use Rattle.kb_payment.specs.declared.attempt.Attempt.{Attempt as AnyAttempt};
ghost use Rattle.kb_gateway.specs.declared.order.Asked.{Asked as AnyAsked};
ghost use Rattle.kb_book.specs.declared.step.Step.TheVariants as steps;
ghost use Rattle.kb_machine.specs.Judged.{is_new};
ghost use Rattle.kb_machine.specs.Machines.{judged};
ghost use Rattle.kb_lane.specs.Asking.{asks_in, attempt_asked};
ghost use Rattle.kb_lane.specs.Lanes.{StandsWithin, StaysItself, machine_of};
ghost use Rattle.kb_lane.specs.Draining.{Writes};
ghost use Rattle.kb_lane.specs.LookingUp.{EachDone, Looked, to_look_up, is_ask, news, seen_status};
ghost use Rattle.kb_book.specs.PaymentRows.{same_status};
ghost use Rattle.kb_lane.specs.Private.Looking.{IsOpen, IsBeside, AreToLookUp, AreOpenIn, left_in, left_of};
ghost use Rattle.kb_lane.specs.Private.Looking.{left_one};
ghost use Rattle.kb_lane.specs.Going.{GoesOn, GoesWell, StandsPast};
ghost use Rattle.kb_lane.specs.Private.Runs.{SettlesNone};

use crate::lane::Lane;
use crate::work::Work;
use kb_base::{Failed, NoMemory};
use kb_book::Step;
use kb_codec::{Command, Settle};
use kb_days::{Day, Name};
use kb_disk::Disk;
use kb_gateway::{Asked, Gateway, Seen, status_of};
use kb_payment::Status;
use std::alloc::Global;

impl<D: Disk, G: Gateway + Drop> Lane<D, G> {
    /// Looks up what became of each payment whose attempt is open and whose order isn't in the outbox any
    /// more, by accounts and then by keys, and settles those of which the gateway tells another status. It
    /// asks for nothing. `Done` comes at the end, and `Idle` never; any other step ends it, and what was
    /// settled before stays so. A lane that has stopped looks nothing up.
    pub fn janitor(&mut self, alloc: Global, today: Day) -> Step
        ensures busy { result ≡ steps.Idle → ⊥ }
        ensures looked { EachDone (Looked D.told.fault_count G.told today) self.old self.new
            (to_look_up self.old) result ⊎ ((result ≡ steps.NoMemory) × (self.new ≡ self.old)) }
        ensures silent { G.told.asked self.new.gateway ≡ G.told.asked self.old.gateway }
        ensures own { self.new.own ≡ self.old.own }
        ensures well { GoesWell D.told.honest D.told.moment D.told.left_since self.old.log self.new.log }
        ensures itself { StaysItself D.told.honest D.told.fault_count self.old self.new }
    {
        match self.to_look_up(alloc) {
            Ok(payments) => self.look_up_each(alloc, today, &payments),
            Err(_) => Step::NoMemory,
        }
    }

    /// Looks payments up, one after another.
    fn look_up_each(&mut self, alloc: Global, today: Day, payments: &[Asked]) -> Step
        requires them { AreToLookUp self.old payments.now }
        ensures busy { result ≡ steps.Idle → ⊥ }
        ensures looked { EachDone (Looked D.told.fault_count G.told today) self.old self.new
            payments.now result }
        ensures silent { G.told.asked self.new.gateway ≡ G.told.asked self.old.gateway }
        ensures own { self.new.own ≡ self.old.own }
        ensures well { GoesWell D.told.honest D.told.moment D.told.left_since self.old.log self.new.log }
        ensures itself { StaysItself D.told.honest D.told.fault_count self.old self.new }
    {
        for payment in payments {
            match self.look_up(alloc, today, *payment) {
                Step::Done => {}
                step => return step,
            }
        }
        Step::Done
    }

    /// Looks a payment up, and settles it by what its gateway has seen of it.
    fn look_up(&mut self, alloc: Global, today: Day, payment: Asked) -> Step
        requires opened { IsOpen (attempt_asked (machine_of self.old) payment) }
        requires beside { IsBeside (asks_in self.old.outbox) payment }
        ensures busy { result ≡ steps.Idle → ⊥ }
        ensures looked { Looked D.told.fault_count G.told today self.old self.new payment result }
        ensures others { result ≡ steps.Done → (one : AnyAsked) → (payment ≡ one → ⊥)
            → attempt_asked (machine_of self.new) one ≡ attempt_asked (machine_of self.old) one }
        ensures asks { result ≡ steps.Done → asks_in self.new.outbox ≡ asks_in self.old.outbox }
        ensures silent { G.told.asked self.new.gateway ≡ G.told.asked self.old.gateway }
        ensures own { self.new.own ≡ self.old.own }
        ensures past { result ≡ steps.Done
            → StandsPast D.told.honest D.told.moment D.told.left_since self.old.log self.new.log }
        ensures within { StandsWithin D.told.honest D.told.moment D.told.left_since self.old.log self.new.log }
        ensures further { GoesOn self.old.log.history self.new.log.history }
        ensures runs { result ≡ steps.Done → self.new.log.journal.stopped ≡ false }
        ensures itself { StaysItself D.told.honest D.told.fault_count self.old self.new }
    {
        if self.log.is_stopped() {
            return Step::Stopped(self.log.count());
        }
        let order = self.order_of(payment.account, payment.key);
        let present = self.status_of(&payment);
        let answer = self.gateway.look_up(&order);
        match news(present, answer) {
            Some(status) => self.settle(alloc, today, payment, status),
            None => Step::Done,
        }
    }

    /// Settles a payment to a status, which is new.
    fn settle(&mut self, alloc: Global, today: Day, payment: Asked, status: Status) -> Step
        requires new { is_new (judged (machine_of self.old) today (kinds.Settle (record {
          account = payment.account;
          payment = payment.key;
          status = status;
        }))) ≡ true }
        requires free { SettlesNone (kinds.Settle (record {
          account = payment.account;
          payment = payment.key;
          status = status;
        })) self.old.outbox }
        ensures writes { Writes D.told.fault_count self.old self.new (
          today,
          kinds.Settle (record {
            account = payment.account;
            payment = payment.key;
            status = status;
          }),
        ) result }
        ensures gateway { self.new.gateway ≡ self.old.gateway }
        ensures own { self.new.own ≡ self.old.own }
        ensures past { result ≡ steps.Done
            → StandsPast D.told.honest D.told.moment D.told.left_since self.old.log self.new.log }
        ensures within { StandsWithin D.told.honest D.told.moment D.told.left_since self.old.log self.new.log }
        ensures further { GoesOn self.old.log.history self.new.log.history }
        ensures runs { result ≡ steps.Done → self.new.log.journal.stopped ≡ false }
        ensures itself { StaysItself D.told.honest D.told.fault_count self.old self.new }
    {
        let command = Command::Settle(Settle {
            account: payment.account,
            payment: payment.key,
            status,
        });
        self.accept_own(alloc, today, &command)
    }

    /// The status of a payment's attempt.
    fn status_of(&self, payment: &Asked) -> Status
        requires opened { IsOpen (attempt_asked (machine_of self.now) payment.now) }
        ensures { (attempt : AnyAttempt) → attempt_asked (machine_of self.now) payment.now ≡ Some attempt
            → result ≡ attempt.status }
    {
        let Some(book) = self.machine.books().get(&payment.account) else {
            unreachable!()
        };
        let Some(attempt) = book.payments().attempt(payment.key) else {
            unreachable!()
        };
        attempt.status
    }

    /// The payments to look up.
    fn to_look_up(&self, alloc: Global) -> Result<Vec<Asked>, NoMemory>
        ensures all { IfOk result (λ payments. payments.items ≡ to_look_up self.now) }
        ensures them { IfOk result (λ payments. AreToLookUp self.now payments.items) }
    {
        let mut payments = Vec::new(alloc);
        let accounts = self.machine.books().names(alloc)?;
        for account in &accounts {
            self.add_open(alloc, &mut payments, *account)?;
        }
        Ok(payments)
    }

    /// Adds the payments of an account that are to be looked up.
    #[tactic(auto, using(crate::proofs::ToLookUp::none_open_in, crate::proofs::ToLookUp::are_open_in, crate::proofs::LookingUp::left_none, crate::proofs::LookingUp::left_found))]
    fn add_open(
        &self,
        alloc: Global,
        payments: &mut Vec<Asked>,
        account: Name,
    ) -> Result<(), NoMemory>
        ensures added { OnOk result (payments.new.items ≡ payments.old.items ++ left_in self.now account) }
        ensures them { OnOk result (AreOpenIn (machine_of self.now) account) }
    {
        let Some(book) = self.machine.books().get(&account) else {
            return Ok(());
        };
        let keys = book.payments().open_attempts(alloc)?;
        Ok(self.add_left(payments, account, &keys)?)
    }

    /// Adds the payments of an account under these keys, but for those that the outbox is yet to ask for.
    fn add_left(
        &self,
        payments: &mut Vec<Asked>,
        account: Name,
        keys: &[Name],
    ) -> Result<(), NoMemory>
        ensures { OnOk result (payments.new.items ≡ payments.old.items ++ left_of self.now account keys.now) }
    {
        for key in keys {
            let payment = Asked { account, key: *key };
            self.add_one(payments, payment)?;
        }
        Ok(())
    }

    /// Adds a payment, unless the outbox is yet to ask for it.
    fn add_one(&self, payments: &mut Vec<Asked>, payment: Asked) -> Result<(), NoMemory>
        ensures { OnOk result (payments.new.items ≡ payments.old.items ++ left_one self.now payment) }
    {
        if !self.is_waiting(&payment) {
            payments.push(payment)?;
        }
        Ok(())
    }

    /// Whether the outbox is yet to ask for a payment.
    fn is_waiting(&self, payment: &Asked) -> bool
        ensures { result ≡ list_any (is_ask payment.now) self.now.outbox }
    {
        self.outbox.iter().any(|work| is_ask(payment, work))
    }
}

/// Whether an entry of an outbox asks for a payment.
fn is_ask(payment: &Asked, work: &Work) -> bool
    ensures { result ≡ is_ask payment.now work.now }
{
    match work {
        Work::Ask(account, key) => *account == payment.account && *key == payment.key,
        Work::Check(_) => false,
    }
}

/// The status that a look-up tells, if that isn't the present one.
fn news(present: Status, answer: Result<Seen, Failed>) -> Option<Status>
    ensures { result ≡ news present answer }
{
    match answer {
        Ok(seen) => other_than(present, seen_status(seen)),
        Err(_) => None,
    }
}

/// The status by what a gateway has seen.
fn seen_status(seen: Seen) -> Status
    ensures { result ≡ seen_status seen }
{
    match seen {
        Seen::Told(told) => status_of(told),
        Seen::NotSeen => Status::PluginFailure,
    }
}

/// A status, unless it is the present one.
fn other_than(present: Status, status: Status) -> Option<Status>
    ensures { result ≡ (if same_status present status then None else Some status) }
{
    if present == status {
        None
    } else {
        Some(status)
    }
}
