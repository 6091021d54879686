//! Edits of one part of an account.
ghost use Rattle.std.specs.Prelude.{◌≡◌, ◌≤◌, length, Some, IfOk};
ghost use Rattle.std.specs.Arc.{arc_value};
ghost use Rattle.kb_book.specs.Commands.{moved_to};
ghost use Rattle.kb_account.specs.Private.States.{value_of};
ghost use Rattle.kb_account.specs.Private.Begins.{begun_of, with_started, HasMoved, IsBegun};

use crate::begun::{Begun, Move, later};
use crate::state::State;
use kb_base::NoMemory;
use kb_blocking::Blocks;
use kb_days::Day;
use kb_payment::Payments;
use kb_timeline::Timeline;
use std::alloc::Global;
use std::sync::Arc;

impl State {
    /// Another timeline, as a command of today leaves it. It may have a subscription that is new.
    pub fn with_timeline(
        &self,
        alloc: Global,
        timeline: Timeline,
        started: bool,
        today: Day,
    ) -> Result<Begun, NoMemory>
        ensures begun { IfOk result (λ begun. begun_of (value_of self.now) begun
            ≡ record (value_of self.now) {
              timeline = timeline;
              charges = with_started started (arc_value self.now.charges).items;
              billed = moved_to self.now.billed (Some today);
            }) }
        ensures sound { IfOk result (λ begun. IsBegun (value_of self.now) begun) }
    {
        let same = self.unedited()?;
        let timeline = Arc::new(alloc, timeline)?;
        Ok(Begun {
            timeline,
            started,
            billed: later(self.billed, today),
            ..same
        })
    }

    /// Other blocking states, as a command of today leaves them.
    pub fn with_blocks(&self, alloc: Global, blocks: Blocks, today: Day) -> Result<Begun, NoMemory>
        ensures begun { IfOk result (λ begun. begun_of (value_of self.now) begun
            ≡ record (value_of self.now) {
              blocks = blocks;
              billed =
                  moved_to self.now.billed (Some today);
            }) }
        ensures sound { IfOk result (λ begun. IsBegun (value_of self.now) begun) }
    {
        let same = self.unedited()?;
        let blocks = Arc::new(alloc, blocks)?;
        Ok(Begun {
            blocks,
            billed: later(self.billed, today),
            ..same
        })
    }

    /// Other payments, and what they move.
    pub fn with_payments(
        &self,
        alloc: Global,
        payments: Payments,
        moved: Move,
    ) -> Result<Begun, NoMemory>
        requires moved { HasMoved (value_of self.now).payments payments moved }
        requires there { moved.invoice ≤ length self.now.invoices.rows }
        ensures begun { IfOk result (λ begun. begun_of (value_of self.now) begun
            ≡ record (value_of self.now) { payments = payments }) }
        ensures sound { IfOk result (λ begun. IsBegun (value_of self.now) begun) }
    {
        let same = self.unedited()?;
        let payments = Arc::new(alloc, payments)?;
        Ok(Begun {
            payments,
            moved,
            ..same
        })
    }
}
