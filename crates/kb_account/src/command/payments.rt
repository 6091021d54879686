//! Payments, refunds, chargebacks and settlements.
ghost use Rattle.std.specs.Prelude.{◌≡◌, ◌<◌, ◌^◌, pos, true, None, Some, OnOk, IfOk, IfErr};
ghost use Rattle.kb_book.specs.Rows.{IsUnprepared};
ghost use Rattle.kb_payment.specs.PaymentEdits.{purchased};
ghost use Rattle.kb_book.specs.Edits.{auto_key};
ghost use Rattle.kb_book.specs.Commands.{begun};
ghost use Rattle.kb_book.specs.Inner.{invoice_due};
ghost use Rattle.kb_book.specs.PaymentRows.{balance_at};
ghost use Rattle.kb_account.specs.Private.States.{value_of};
ghost use Rattle.kb_account.specs.Private.Begins.{begun_of, action_begun, own_refusal, invoice_of};
ghost use Rattle.kb_account.specs.Private.Begins.{action_refusal, HasMoved, IsBegun};
ghost use Rattle.kb_book.specs.SoundBooks.{IsBook};

use crate::begun::{Begun, Move, move_on};
use crate::due::auto_key;
use crate::state::State;
use crate::world::World;
use kb_book::{Refusal, Unprepared};
use kb_codec::{Action, Auto, Chargeback, Command, InvoiceNo, Pay, Refund, Settle};
use kb_days::{Day, Name};
use kb_edits as edits;
use kb_payment::{Attempt, Payments};
use std::alloc::Global;

/// Nothing moves.
const NOTHING: Move = Move {
    invoice: 0,
    amount: 0,
};

impl State {
    /// A payment.
    pub fn pay(
        &self,
        alloc: Global,
        world: &World,
        today: Day,
        pay: &Pay,
    ) -> Result<Begun, Unprepared>
        requires sound { IsBook (value_of self.now) }
        ensures accepted { OnOk result (action_refusal world.now (value_of self.now) today
            (Action.Pay pay.now) ≡ None) }
        ensures begun { IfOk result (λ edit. begun_of (value_of self.now) edit
            ≡ action_begun world.now (value_of self.now) today (Action.Pay pay.now)) }
        ensures sound { IfOk result (λ edit. IsBegun (value_of self.now) edit) }
        ensures refused { IfErr result (IsUnprepared (action_refusal world.now (value_of self.now) today
            (Action.Pay pay.now))) }
    {
        let payments = edits::pay(alloc, &self.payments, &self.invoices, today, pay)?;
        Ok(self.with_payments(alloc, payments, NOTHING)?)
    }

    /// A refund.
    pub fn refund(
        &self,
        alloc: Global,
        world: &World,
        today: Day,
        refund: &Refund,
    ) -> Result<Begun, Unprepared>
        requires sound { IsBook (value_of self.now) }
        ensures accepted { OnOk result (action_refusal world.now (value_of self.now) today
            (Action.Refund refund.now) ≡ None) }
        ensures begun { IfOk result (λ edit. begun_of (value_of self.now) edit
            ≡ action_begun world.now (value_of self.now) today (Action.Refund refund.now)) }
        ensures sound { IfOk result (λ edit. IsBegun (value_of self.now) edit) }
        ensures refused { IfErr result (IsUnprepared (action_refusal world.now (value_of self.now) today
            (Action.Refund refund.now))) }
    {
        let payments = edits::refund(alloc, &self.payments, today, refund)?;
        Ok(self.with_payments(alloc, payments, NOTHING)?)
    }

    /// A chargeback.
    pub fn chargeback(
        &self,
        alloc: Global,
        world: &World,
        today: Day,
        chargeback: &Chargeback,
    ) -> Result<Begun, Unprepared>
        requires sound { IsBook (value_of self.now) }
        ensures accepted { OnOk result (action_refusal world.now (value_of self.now) today
            (Action.Chargeback chargeback.now) ≡ None) }
        ensures begun { IfOk result (λ edit. begun_of (value_of self.now) edit
            ≡ action_begun world.now (value_of self.now) today (Action.Chargeback chargeback.now)) }
        ensures sound { IfOk result (λ edit. IsBegun (value_of self.now) edit) }
        ensures refused { IfErr result (IsUnprepared (action_refusal world.now (value_of self.now) today
            (Action.Chargeback chargeback.now))) }
    {
        let payments = edits::chargeback(alloc, &self.payments, today, chargeback)?;
        let invoice = self.invoice_of(chargeback.of);
        let moved = move_on(invoice, -i128::from(chargeback.amount.units()));
        Ok(self.with_payments(alloc, payments, moved)?)
    }

    /// A settlement.
    pub fn settle(
        &self,
        alloc: Global,
        world: &World,
        today: Day,
        settle: &Settle,
    ) -> Result<Begun, Unprepared>
        requires sound { IsBook (value_of self.now) }
        ensures accepted { OnOk result (own_refusal world.now (value_of self.now) today
            (Command.Settle settle.now) ≡ None) }
        ensures begun { IfOk result (λ edit. begun_of (value_of self.now) edit
            ≡ begun world.now (value_of self.now) today (Command.Settle settle.now)) }
        ensures sound { IfOk result (λ edit. IsBegun (value_of self.now) edit) }
        ensures refused { IfErr result (IsUnprepared (own_refusal world.now (value_of self.now) today
            (Command.Settle settle.now))) }
    {
        let settled = edits::settle(alloc, &self.payments, settle)?;
        let moved = move_on(invoice_by(&settled.attempt), settled.moved);
        Ok(self.with_payments(alloc, settled.payments, moved)?)
    }

    /// The automatic payment of an invoice.
    pub fn auto(
        &self,
        alloc: Global,
        world: &World,
        today: Day,
        auto: &Auto,
    ) -> Result<Begun, Unprepared>
        requires sound { IsBook (value_of self.now) }
        ensures accepted { OnOk result (own_refusal world.now (value_of self.now) today
            (Command.Auto auto.now) ≡ None) }
        ensures begun { IfOk result (λ edit. begun_of (value_of self.now) edit
            ≡ begun world.now (value_of self.now) today (Command.Auto auto.now)) }
        ensures sound { IfOk result (λ edit. IsBegun (value_of self.now) edit) }
        ensures refused { IfErr result (IsUnprepared (own_refusal world.now (value_of self.now) today
            (Command.Auto auto.now))) }
    {
        let number = auto.invoice.number();
        if self.invoice_due(today) != Some(number) {
            return Err(Unprepared::Refused(Refusal::PaymentState));
        }
        let payments = self.paid_automatically(alloc, today, auto.invoice)?;
        Ok(self.with_payments(alloc, payments, NOTHING)?)
    }

    /// The payments with the automatic payment of an invoice that is due.
    fn paid_automatically(
        &self,
        alloc: Global,
        today: Day,
        invoice: InvoiceNo,
    ) -> Result<Payments, Unprepared>
        requires sound { IsBook (value_of self.now) }
        requires due { invoice_due true (value_of self.now).payments self.now.invoices today ≡ Some invoice }
        ensures purchased { IfOk result (λ more. more ≡ purchased (value_of self.now).payments
            (auto_key invoice today) invoice (balance_at self.now.invoices invoice) None today true) }
        ensures moved { IfOk result (λ more. HasMoved (value_of self.now).payments more
            (record { invoice = 0; amount = pos 0 })) }
        ensures memory { IfErr result (λ fault. fault ≡ Unprepared.NoMemory) }
    {
        // The check has to see on which days this may be, and how many invoices there are.
        let _day = today.number();
        let _count = self.invoices.len();
        let number = invoice.number();
        let key = match auto_key(alloc, number, today) {
            Ok(key) => key,
            Err(_) => return Err(Unprepared::NoMemory),
        };
        let payments = edits::pay_automatically(
            alloc,
            &self.payments,
            &self.invoices,
            today,
            key,
            invoice,
        )?;
        Ok(payments)
    }

    /// The invoice of the attempt of a key; 0 if there is none.
    fn invoice_of(&self, key: Name) -> u32
        ensures invoice { result ≡ invoice_of (value_of self.now).payments key }
    {
        match self.payments.attempt(key) {
            None => 0,
            Some(attempt) => invoice_by(&attempt),
        }
    }
}

/// The invoice of an attempt.
fn invoice_by(attempt: &Attempt) -> u32
    ensures invoice { result ≡ attempt.now.invoice }
    ensures amount { attempt.now.amount < 2 ^ 64 }
{
    // The check has to see that the amount is a u64.
    let _amount = attempt.amount;
    attempt.invoice
}
