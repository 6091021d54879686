//! Starts, changes, cancellations and their end.
ghost use Rattle.std.specs.Prelude.{◌≡◌, None, OnOk, IfOk, IfErr};
ghost use Rattle.kb_book.specs.Rows.{IsUnprepared};
ghost use Rattle.kb_account.specs.Private.States.{value_of};
ghost use Rattle.kb_account.specs.Private.Begins.{begun_of, action_begun, action_refusal, IsBegun};
ghost use Rattle.kb_book.specs.SoundBooks.{IsBook};

use crate::begun::Begun;
use crate::state::State;
use crate::world::World;
use kb_book::Unprepared;
use kb_codec::{Action, Cancel, Change, Create, Uncancel};
use kb_days::Day;
use kb_edits as edits;
use std::alloc::Global;

impl State {
    /// A start.
    pub fn create(
        &self,
        alloc: Global,
        world: &World,
        today: Day,
        create: &Create,
    ) -> Result<Begun, Unprepared>
        requires sound { IsBook (value_of self.now) }
        ensures accepted { OnOk result (action_refusal world.now (value_of self.now) today
            (Action.Create create.now) ≡ None) }
        ensures begun { IfOk result (λ edit. begun_of (value_of self.now) edit
            ≡ action_begun world.now (value_of self.now) today (Action.Create create.now)) }
        ensures sound { IfOk result (λ edit. IsBegun (value_of self.now) edit) }
        ensures refused { IfErr result (IsUnprepared (action_refusal world.now (value_of self.now) today
            (Action.Create create.now))) }
    {
        match edits::start(alloc, &self.facts(world), today, create) {
            Ok(timeline) => Ok(self.with_timeline(alloc, timeline, true, today)?),
            Err(fault) => Err(fault),
        }
    }

    /// A change.
    pub fn change(
        &self,
        alloc: Global,
        world: &World,
        today: Day,
        change: &Change,
    ) -> Result<Begun, Unprepared>
        requires sound { IsBook (value_of self.now) }
        ensures accepted { OnOk result (action_refusal world.now (value_of self.now) today
            (Action.Change change.now) ≡ None) }
        ensures begun { IfOk result (λ edit. begun_of (value_of self.now) edit
            ≡ action_begun world.now (value_of self.now) today (Action.Change change.now)) }
        ensures sound { IfOk result (λ edit. IsBegun (value_of self.now) edit) }
        ensures refused { IfErr result (IsUnprepared (action_refusal world.now (value_of self.now) today
            (Action.Change change.now))) }
    {
        let timeline = edits::change(alloc, &self.facts(world), self.billed, today, change)?;
        Ok(self.with_timeline(alloc, timeline, false, today)?)
    }

    /// A cancellation.
    pub fn cancel(
        &self,
        alloc: Global,
        world: &World,
        today: Day,
        cancel: &Cancel,
    ) -> Result<Begun, Unprepared>
        requires sound { IsBook (value_of self.now) }
        ensures accepted { OnOk result (action_refusal world.now (value_of self.now) today
            (Action.Cancel cancel.now) ≡ None) }
        ensures begun { IfOk result (λ edit. begun_of (value_of self.now) edit
            ≡ action_begun world.now (value_of self.now) today (Action.Cancel cancel.now)) }
        ensures sound { IfOk result (λ edit. IsBegun (value_of self.now) edit) }
        ensures refused { IfErr result (IsUnprepared (action_refusal world.now (value_of self.now) today
            (Action.Cancel cancel.now))) }
    {
        let timeline = edits::cancel(alloc, &self.facts(world), self.billed, today, cancel)?;
        Ok(self.with_timeline(alloc, timeline, false, today)?)
    }

    /// The end of a cancellation.
    pub fn uncancel(
        &self,
        alloc: Global,
        world: &World,
        today: Day,
        uncancel: &Uncancel,
    ) -> Result<Begun, Unprepared>
        requires sound { IsBook (value_of self.now) }
        ensures accepted { OnOk result (action_refusal world.now (value_of self.now) today
            (Action.Uncancel uncancel.now) ≡ None) }
        ensures begun { IfOk result (λ edit. begun_of (value_of self.now) edit
            ≡ action_begun world.now (value_of self.now) today (Action.Uncancel uncancel.now)) }
        ensures sound { IfOk result (λ edit. IsBegun (value_of self.now) edit) }
        ensures refused { IfErr result (IsUnprepared (action_refusal world.now (value_of self.now) today
            (Action.Uncancel uncancel.now))) }
    {
        let timeline = edits::uncancel(alloc, &self.facts(world), uncancel)?;
        Ok(self.with_timeline(alloc, timeline, false, today)?)
    }
}
