//! Bills, charges, credits, and whether invoices are paid by themselves.
ghost use Rattle.std.specs.Prelude.{◌≡◌, None, OnOk, IfOk, IfErr};
ghost use Rattle.kb_book.specs.Rows.{IsUnprepared};
ghost use Rattle.kb_account.specs.Private.States.{value_of};
ghost use Rattle.kb_account.specs.Private.Begins.{begun_of, action_begun, action_refusal, IsBegun};
ghost use Rattle.kb_book.specs.SoundBooks.{IsBook};

use crate::begun::{Begun, later};
use crate::state::State;
use crate::world::World;
use kb_book::{Refusal, Unprepared, asked_day};
use kb_codec::{Action, Autopay, Bill, Charge, Credit};
use kb_days::Day;

/// The greatest amount of a charge or a credit, in minor units.
pub(crate) const MAX_CHARGE: u64 = 1_000_000_000;

impl State {
    /// A bill up to a day.
    pub fn bill(&self, world: &World, today: Day, bill: &Bill) -> Result<Begun, Unprepared>
        requires sound { IsBook (value_of self.now) }
        ensures accepted { OnOk result (action_refusal world.now (value_of self.now) today
            (Action.Bill bill.now) ≡ None) }
        ensures begun { IfOk result (λ edit. begun_of (value_of self.now) edit
            ≡ action_begun world.now (value_of self.now) today (Action.Bill bill.now)) }
        ensures sound { IfOk result (λ edit. IsBegun (value_of self.now) edit) }
        ensures refused { IfErr result (IsUnprepared (action_refusal world.now (value_of self.now) today
            (Action.Bill bill.now))) }
    {
        let same = self.unedited()?;
        let day = asked_day(bill.day, today);
        Ok(Begun {
            billed: later(self.billed, day),
            ..same
        })
    }

    /// A charge from outside the catalog.
    pub fn charge(&self, world: &World, today: Day, charge: &Charge) -> Result<Begun, Unprepared>
        requires sound { IsBook (value_of self.now) }
        ensures accepted { OnOk result (action_refusal world.now (value_of self.now) today
            (Action.Charge charge.now) ≡ None) }
        ensures begun { IfOk result (λ edit. begun_of (value_of self.now) edit
            ≡ action_begun world.now (value_of self.now) today (Action.Charge charge.now)) }
        ensures sound { IfOk result (λ edit. IsBegun (value_of self.now) edit) }
        ensures refused { IfErr result (IsUnprepared (action_refusal world.now (value_of self.now) today
            (Action.Charge charge.now))) }
    {
        let amount = charge.amount.units();
        if MAX_CHARGE < amount {
            return Err(Unprepared::Refused(Refusal::AmountTooLarge));
        }
        let same = self.unedited()?;
        Ok(Begun {
            beside: self.beside + i128::from(amount),
            ..same
        })
    }

    /// A credit that is granted.
    pub fn credit(&self, world: &World, today: Day, credit: &Credit) -> Result<Begun, Unprepared>
        requires sound { IsBook (value_of self.now) }
        ensures accepted { OnOk result (action_refusal world.now (value_of self.now) today
            (Action.Credit credit.now) ≡ None) }
        ensures begun { IfOk result (λ edit. begun_of (value_of self.now) edit
            ≡ action_begun world.now (value_of self.now) today (Action.Credit credit.now)) }
        ensures sound { IfOk result (λ edit. IsBegun (value_of self.now) edit) }
        ensures refused { IfErr result (IsUnprepared (action_refusal world.now (value_of self.now) today
            (Action.Credit credit.now))) }
    {
        let amount = credit.amount.units();
        if MAX_CHARGE < amount {
            return Err(Unprepared::Refused(Refusal::AmountTooLarge));
        }
        let same = self.unedited()?;
        Ok(Begun {
            beside: self.beside + -i128::from(amount),
            ..same
        })
    }

    /// Whether invoices are paid by themselves.
    pub fn autopay(&self, world: &World, today: Day, autopay: &Autopay) -> Result<Begun, Unprepared>
        requires sound { IsBook (value_of self.now) }
        ensures accepted { OnOk result (action_refusal world.now (value_of self.now) today
            (Action.Autopay autopay.now) ≡ None) }
        ensures begun { IfOk result (λ edit. begun_of (value_of self.now) edit
            ≡ action_begun world.now (value_of self.now) today (Action.Autopay autopay.now)) }
        ensures sound { IfOk result (λ edit. IsBegun (value_of self.now) edit) }
        ensures refused { IfErr result (IsUnprepared (action_refusal world.now (value_of self.now) today
            (Action.Autopay autopay.now))) }
    {
        let same = self.unedited()?;
        Ok(Begun {
            autopay: autopay.on,
            ..same
        })
    }
}
