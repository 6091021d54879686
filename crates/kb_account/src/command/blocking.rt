//! Pauses, their end, blocks and overdue transitions.
ghost use Rattle.std.specs.Prelude.{◌≡◌, None, OnOk, IfOk, IfErr};
ghost use Rattle.kb_book.specs.Rows.{IsUnprepared};
ghost use Rattle.kb_book.specs.Commands.{begun};
ghost use Rattle.kb_account.specs.Private.States.{value_of};
ghost use Rattle.kb_account.specs.Private.Begins.{begun_of, action_begun, own_refusal, IsBegun};
ghost use Rattle.kb_account.specs.Private.Begins.{action_refusal};
ghost use Rattle.kb_book.specs.SoundBooks.{IsBook};

use crate::begun::Begun;
use crate::state::State;
use crate::world::World;
use kb_book::{Refusal, Unprepared};
use kb_codec::{Action, Block, Command, Overdue, Pause, Resume};
use kb_days::Day;
use kb_edits as edits;
use std::alloc::Global;

impl State {
    /// A pause.
    pub fn pause(
        &self,
        alloc: Global,
        world: &World,
        today: Day,
        pause: &Pause,
    ) -> Result<Begun, Unprepared>
        requires sound { IsBook (value_of self.now) }
        ensures accepted { OnOk result (action_refusal world.now (value_of self.now) today
            (Action.Pause pause.now) ≡ None) }
        ensures begun { IfOk result (λ edit. begun_of (value_of self.now) edit
            ≡ action_begun world.now (value_of self.now) today (Action.Pause pause.now)) }
        ensures sound { IfOk result (λ edit. IsBegun (value_of self.now) edit) }
        ensures refused { IfErr result (IsUnprepared (action_refusal world.now (value_of self.now) today
            (Action.Pause pause.now))) }
    {
        let blocks = edits::pause(alloc, &self.timeline, &self.blocks, today, pause)?;
        Ok(self.with_blocks(alloc, blocks, today)?)
    }

    /// The end of a pause.
    pub fn resume(
        &self,
        alloc: Global,
        world: &World,
        today: Day,
        resume: &Resume,
    ) -> Result<Begun, Unprepared>
        requires sound { IsBook (value_of self.now) }
        ensures accepted { OnOk result (action_refusal world.now (value_of self.now) today
            (Action.Resume resume.now) ≡ None) }
        ensures begun { IfOk result (λ edit. begun_of (value_of self.now) edit
            ≡ action_begun world.now (value_of self.now) today (Action.Resume resume.now)) }
        ensures sound { IfOk result (λ edit. IsBegun (value_of self.now) edit) }
        ensures refused { IfErr result (IsUnprepared (action_refusal world.now (value_of self.now) today
            (Action.Resume resume.now))) }
    {
        let blocks = edits::resume(alloc, &self.timeline, &self.blocks, today, resume)?;
        Ok(self.with_blocks(alloc, blocks, today)?)
    }

    /// A block.
    pub fn block(
        &self,
        alloc: Global,
        world: &World,
        today: Day,
        block: &Block,
    ) -> Result<Begun, Unprepared>
        requires sound { IsBook (value_of self.now) }
        ensures accepted { OnOk result (action_refusal world.now (value_of self.now) today
            (Action.Block block.now) ≡ None) }
        ensures begun { IfOk result (λ edit. begun_of (value_of self.now) edit
            ≡ action_begun world.now (value_of self.now) today (Action.Block block.now)) }
        ensures sound { IfOk result (λ edit. IsBegun (value_of self.now) edit) }
        ensures refused { IfErr result (IsUnprepared (action_refusal world.now (value_of self.now) today
            (Action.Block block.now))) }
    {
        let blocks = edits::block(
            alloc,
            self.account,
            &self.timeline,
            &self.blocks,
            today,
            block,
        )?;
        Ok(self.with_blocks(alloc, blocks, today)?)
    }

    /// An overdue transition.
    pub fn overdue(
        &self,
        alloc: Global,
        world: &World,
        today: Day,
        overdue: &Overdue,
    ) -> Result<Begun, Unprepared>
        requires sound { IsBook (value_of self.now) }
        ensures accepted { OnOk result (own_refusal world.now (value_of self.now) today
            (Command.Overdue overdue.now) ≡ None) }
        ensures begun { IfOk result (λ edit. begun_of (value_of self.now) edit
            ≡ begun world.now (value_of self.now) today (Command.Overdue overdue.now)) }
        ensures sound { IfOk result (λ edit. IsBegun (value_of self.now) edit) }
        ensures refused { IfErr result (IsUnprepared (own_refusal world.now (value_of self.now) today
            (Command.Overdue overdue.now))) }
    {
        if !self.is_transition_due(world, today) {
            return Err(Unprepared::Refused(Refusal::PaymentState));
        }
        let state = edits::overdue_state(&world.overdue, &self.invoices, today);
        let blocks = edits::enter_state(alloc, &self.blocks, state, today)?;
        let name = state.map(|state| state.name);
        let begun = self.with_blocks(alloc, blocks, today)?;
        Ok(Begun {
            overdue: name,
            transition: Some(today),
            ..begun
        })
    }
}
