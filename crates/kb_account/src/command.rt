//! A command's own edit, or its first refusal.
ghost use Rattle.std.specs.Prelude.{◌≡◌, None, OnOk, IfOk, IfErr};
ghost use Rattle.kb_book.specs.Rows.{IsUnprepared};
ghost use Rattle.kb_book.specs.Commands.{begun};
ghost use Rattle.kb_account.specs.Private.States.{value_of};
ghost use Rattle.kb_account.specs.Private.Begins.{begun_of, action_begun, own_refusal, IsBegun};
ghost use Rattle.kb_account.specs.Private.Begins.{action_refusal};
ghost use Rattle.kb_book.specs.SoundBooks.{IsBook};

mod blocking;
mod money;
mod payments;
mod subscriptions;

use crate::begun::Begun;
use crate::state::State;
use crate::world::World;
use kb_book::{Refusal, Unprepared};
use kb_codec::{Action, Command};
use kb_days::Day;
use std::alloc::Global;

impl State {
    /// What a command's own edit makes of the account; or why the command is refused.
    pub fn begin(
        &self,
        alloc: Global,
        world: &World,
        today: Day,
        command: &Command,
    ) -> Result<Begun, Unprepared>
        requires sound { IsBook (value_of self.now) }
        ensures accepted { OnOk result (own_refusal world.now (value_of self.now) today command.now ≡ None) }
        ensures begun { IfOk result (λ edit. begun_of (value_of self.now) edit
            ≡ begun world.now (value_of self.now) today command.now) }
        ensures sound { IfOk result (λ edit. IsBegun (value_of self.now) edit) }
        ensures refused { IfErr result (IsUnprepared (own_refusal world.now (value_of self.now) today
            command.now)) }
    {
        match command {
            Command::Catalog(_) | Command::OverdueRules(_) => Ok(self.unedited()?),
            Command::Act { action, .. } => self.act(alloc, world, today, action),
            Command::Auto(auto) => self.auto(alloc, world, today, auto),
            Command::Settle(settle) => self.settle(alloc, world, today, settle),
            Command::Overdue(overdue) => self.overdue(alloc, world, today, overdue),
        }
    }

    /// What an action's own edit makes of the account; or why the action is refused.
    fn act(
        &self,
        alloc: Global,
        world: &World,
        today: Day,
        action: &Action,
    ) -> Result<Begun, Unprepared>
        requires sound { IsBook (value_of self.now) }
        ensures accepted { OnOk result (action_refusal world.now (value_of self.now) today action.now
            ≡ None) }
        ensures begun { IfOk result (λ edit. begun_of (value_of self.now) edit
            ≡ action_begun world.now (value_of self.now) today action.now) }
        ensures sound { IfOk result (λ edit. IsBegun (value_of self.now) edit) }
        ensures refused { IfErr result (IsUnprepared (action_refusal world.now (value_of self.now) today
            action.now)) }
    {
        match action {
            Action::OpenAccount(_) => Err(Unprepared::Refused(Refusal::AccountExists)),
            Action::Create(create) => self.create(alloc, world, today, create),
            Action::Change(change) => self.change(alloc, world, today, change),
            Action::Cancel(cancel) => self.cancel(alloc, world, today, cancel),
            Action::Uncancel(uncancel) => self.uncancel(alloc, world, today, uncancel),
            Action::Pause(pause) => self.pause(alloc, world, today, pause),
            Action::Resume(resume) => self.resume(alloc, world, today, resume),
            Action::Block(block) => self.block(alloc, world, today, block),
            Action::Bill(bill) => self.bill(world, today, bill),
            Action::Charge(charge) => self.charge(world, today, charge),
            Action::Credit(credit) => self.credit(world, today, credit),
            Action::Pay(pay) => self.pay(alloc, world, today, pay),
            Action::Refund(refund) => self.refund(alloc, world, today, refund),
            Action::Chargeback(chargeback) => self.chargeback(alloc, world, today, chargeback),
            Action::Autopay(autopay) => self.autopay(world, today, autopay),
        }
    }
}
