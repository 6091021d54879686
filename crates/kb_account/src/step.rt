//! One step of an account: refused, kept, or accepted.
ghost use Rattle.std.specs.Prelude.{◌≡◌, ◌↔◌, ◌-◌, ◌+◌, ◌^◌, ◌<◌, ◌≤◌, length, None};
ghost use Rattle.std.specs.Prelude.{true, IsTrue, OnOk, IfOk, IfErr, option_copied};
ghost use Rattle.std.specs.Arc.{arc_value};
ghost use Rattle.kb_days.specs.Calendar.{first_day, charged_days};
ghost use Rattle.std.specs.FinMap.{entries};
ghost use Rattle.kb_sharing.specs.Sums.{sum_of};
ghost use Rattle.kb_credit.specs.Sizes.{size_of};
ghost use Rattle.kb_credit.specs.Items.{amount_of};
ghost use Rattle.kb_credit.specs.InvoiceRows.{credit, unpaid};
ghost use Rattle.kb_book.specs.Rows.{IsUnprepared, first_refusal};
ghost use Rattle.kb_book.specs.Commands.{begun};
ghost use Rattle.kb_codec.specs.Senders.{key_of};
ghost use Rattle.kb_book.specs.Steps as told;
ghost use Rattle.kb_book.specs.BilledBooks.{IsBilled};
ghost use Rattle.kb_book.specs.SoundBooks.{IsBook};
ghost use Rattle.kb_account.specs.Issues.{IsIssueOf};
ghost use Rattle.kb_account.specs.Private.States.{value_of};
ghost use Rattle.kb_account.specs.Private.Begins.{begun_of, own_refusal, IsBegun};
ghost use Rattle.kb_account.specs.Private.KeptAnswers.{kept_answer, kept_refusal, kept_after};

use crate::begun::Begun;
use crate::billing::{leaves_due, with_own_line};
use crate::book::Book;
use crate::invoicing::invoices_after;
use crate::kept::Kept;
use crate::key::key_of;
use crate::next::Next;
use crate::state::State;
use crate::world::World;
use kb_base::NoMemory;
use kb_book::{Answer, Refusal, Unprepared};
use kb_codec::{Command, encode};
use kb_credit::{Invoices, Line, total_of};
use kb_days::{Day, Name};
use kb_sharing::SharedMap;
use kb_tree::{Issue, SubscriptionCharges};
use std::alloc::Global;
use std::sync::Arc;

/// The most commands of callers that an account accepts.
const MAX_COMMANDS: u64 = 1_000_000;

/// No journal has this many records, so no account this many commands.
const MAX_ACCEPTED: u64 = 4_294_967_295;

/// No memory holds this many items.
const MAX_ITEMS: u64 = 1 << 60;

impl State {
    /// The answer that was kept of a command, if it was accepted before. It is refused if another command was
    /// accepted under its key.
    pub fn kept_answer(
        &self,
        alloc: Global,
        command: &Command,
    ) -> Result<Option<Answer>, Unprepared>
        ensures answer { IfOk result (λ answer. answer
            ≡ kept_answer (told.kept_of (value_of self.now) (key_of command.now)) command.now) }
        ensures allowed { OnOk result
            (kept_refusal (told.kept_of (value_of self.now) (key_of command.now)) command.now ≡ None) }
        ensures refused { IfErr result (IsUnprepared
            (kept_refusal (told.kept_of (value_of self.now) (key_of command.now)) command.now)) }
    {
        let Some(kept) = self.kept_of(command) else {
            return Ok(None);
        };
        let spelling = encode(alloc, command)?;
        if kept.spelling.as_slice() == spelling.as_slice() {
            Ok(Some(kept.answer.answer()))
        } else {
            Err(Unprepared::Refused(Refusal::KeyReused))
        }
    }

    /// What is kept under the key of a command.
    #[tactic(auto, using(crate::proofs::KeptEntries::kept_entry))]
    fn kept_of(&self, command: &Command) -> Option<&Kept>
        ensures { option_copied result ≡ told.kept_of (value_of self.now) (key_of command.now) }
    {
        match key_of(command) {
            None => None,
            Some(key) => self.kept.get(&key),
        }
    }
}

impl State {
    /// The book after a command whose key is new, and its answer. The account may be known to be billed.
    pub fn accept(
        &self,
        alloc: Global,
        world: &World,
        today: Day,
        command: &Command,
        billed: bool,
    ) -> Result<Next, Unprepared>
        requires sound { IsBook (value_of self.now) }
        requires known { billed ≡ true → IsBilled world.now (value_of self.now) }
        ensures accepted { OnOk result
            (first_refusal (told.rows_of world.now (value_of self.now) today command.now) ≡ None) }
        ensures next { IfOk result (λ next. told.accepted_over world.now (value_of self.now) today command.now
            first_day charged_days ≡ (next.answer, next.book)) }
        ensures refused { IfErr result (IsUnprepared
            (first_refusal (told.rows_of world.now (value_of self.now) today command.now))) }
    {
        if self.has_all_commands(command) {
            return Err(Unprepared::Refused(Refusal::Limit {
                which: 5,
                limit: MAX_COMMANDS as u32,
            }));
        }
        let begun = self.begin(alloc, world, today, command)?;
        if !self.has_room() {
            return Err(Unprepared::NoMemory);
        }
        Ok(self.billed(alloc, world, today, command, begun, billed)?)
    }

    /// Whether the account has as many commands of callers as it may have, and this is one more.
    #[tactic(auto, using(crate::proofs::KeptEntries::kept_count))]
    fn has_all_commands(&self, command: &Command) -> bool
        ensures { result ≡ told.has_all_commands (value_of self.now) (key_of command.now) }
    {
        match key_of(command) {
            None => false,
            Some(_) => MAX_COMMANDS <= self.kept.len(),
        }
    }

    /// Whether there is room for one command more.
    pub fn has_room(&self) -> bool
        ensures { IsTrue result ↔ ((self.now.commands < 2 ^ 32 - 1)
            × (length self.now.invoices.items < 2 ^ 60)) }
    {
        self.commands < MAX_ACCEPTED && self.invoices.items() < MAX_ITEMS
    }

    /// The book with a command's own edit, billed, and the command's answer. If the account is known to be
    /// billed, and the command leaves what is due, no item comes of it, and none is looked for.
    fn billed(
        &self,
        alloc: Global,
        world: &World,
        today: Day,
        command: &Command,
        edit: Begun,
        billed: bool,
    ) -> Result<Next, NoMemory>
        requires sound { IsBook (value_of self.now) }
        requires known { billed ≡ true → IsBilled world.now (value_of self.now) }
        requires begun { begun_of (value_of self.now) edit
            ≡ begun world.now (value_of self.now) today command.now }
        requires edit { IsBegun (value_of self.now) edit }
        requires accepted { own_refusal world.now (value_of self.now) today command.now ≡ None }
        requires few { self.now.commands < 2 ^ 32 - 1 }
        requires room { length self.now.invoices.items < 2 ^ 60 }
        ensures { IfOk result (λ next. told.accepted_over world.now (value_of self.now) today command.now
            first_day charged_days ≡ (next.answer, next.book)) }
    {
        if billed && leaves_due(command) {
            let none = self.no_issue(alloc)?;
            return self.issued(alloc, world, today, command, edit, none);
        }
        let issue = self.issue(alloc, world, &edit)?;
        self.issued(alloc, world, today, command, edit, issue)
    }

    /// The book with a command's own edit and the items that are due with it, and the command's answer.
    pub fn issued(
        &self,
        alloc: Global,
        world: &World,
        today: Day,
        command: &Command,
        edit: Begun,
        issue: Issue,
    ) -> Result<Next, NoMemory>
        requires sound { IsBook (value_of self.now) }
        requires begun { begun_of (value_of self.now) edit
            ≡ begun world.now (value_of self.now) today command.now }
        requires edit { IsBegun (value_of self.now) edit }
        requires accepted { own_refusal world.now (value_of self.now) today command.now ≡ None }
        requires few { self.now.commands < 2 ^ 32 - 1 }
        requires room { length self.now.invoices.items < 2 ^ 60 }
        requires issue { IsIssueOf world.now (begun_of (value_of self.now) edit) issue }
        ensures { IfOk result (λ next. told.accepted_over world.now (value_of self.now) today command.now
            first_day charged_days ≡ (next.answer, next.book)) }
    {
        let charges = issue.charges;
        let lines = with_own_line(issue.lines, command)?;
        let told = lines.as_slice();
        let invoices = invoices_after(alloc, &self.invoices, today, told, edit.moved)?;
        let answer = self.answer(told, &invoices);
        let kept = self.kept_with(alloc, command, answer)?;
        let state = self.next_state(edit, invoices, charges, kept);
        Ok(Next {
            book: Book { state },
            answer,
        })
    }

    /// The account with a command's own edit, what is issued for it, and one command more.
    fn next_state(
        &self,
        edit: Begun,
        invoices: Invoices,
        charges: Arc<Vec<SubscriptionCharges>>,
        kept: SharedMap<Name, Kept>,
    ) -> State
        requires few { self.now.commands < 2 ^ 32 - 1 }
        ensures { value_of result ≡ record (begun_of (value_of self.now) edit) {
          invoices = invoices;
          charges = (arc_value charges).items;
          commands = self.now.commands + 1;
          kept = entries kept;
        } }
    {
        State {
            account: self.account,
            currency: self.currency,
            bcd: self.bcd,
            autopay: edit.autopay,
            timeline: edit.timeline,
            blocks: edit.blocks,
            billed: edit.billed,
            beside: edit.beside,
            payments: edit.payments,
            invoices,
            charges,
            overdue: edit.overdue,
            transition: edit.transition,
            commands: self.commands + 1,
            kept,
        }
    }

    /// What is told of a command with these lines, which leaves these invoices.
    fn answer(&self, lines: &[Line], invoices: &Invoices) -> Answer
        requires few { self.now.commands < 2 ^ 32 - 1 }
        requires issued { length self.now.invoices.rows ≤ self.now.commands }
        requires bounded { size_of amount_of lines.now ≤ 2 ^ 120 }
        ensures { result ≡ record {
          command = self.now.commands + 1;
          invoice = told.number_of self.now.invoices lines.now;
          total = sum_of amount_of lines.now;
          credit = credit invoices.now.rows;
          unpaid = unpaid invoices.now.rows;
        } }
    {
        Answer {
            command: self.commands + 1,
            invoice: self.number_of(lines),
            total: total_of(lines),
            credit: invoices.credit(),
            unpaid: invoices.unpaid(),
        }
    }

    /// The number of the invoice of these lines, if there is one.
    fn number_of(&self, lines: &[Line]) -> Option<u32>
        requires few { length self.now.invoices.rows < 2 ^ 32 - 1 }
        ensures { result ≡ told.number_of self.now.invoices lines.now }
    {
        if lines.is_empty() {
            None
        } else {
            Some(self.invoices.len() + 1)
        }
    }

    /// What is kept of commands, with this one and its answer, if it has a key.
    #[tactic(auto, using(crate::proofs::KeptEntries::kept_with))]
    fn kept_with(
        &self,
        alloc: Global,
        command: &Command,
        answer: Answer,
    ) -> Result<SharedMap<Name, Kept>, NoMemory>
        ensures { IfOk result (λ kept. entries kept
            ≡ kept_after (entries self.now.kept) command.now answer (key_of command.now)) }
    {
        let Some(key) = key_of(command) else {
            return self.kept.share();
        };
        let kept = Kept::new(alloc, command, answer)?;
        self.kept.with(alloc, key, kept)
    }
}
