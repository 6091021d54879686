//! Settlements of a payment, of which one will be written down: what is due with each is looked at once.
ghost use Rattle.std.specs.Prelude.{◌≡◌, ◌+◌, ◌<◌, true, None, OnOk, IfOk, IfErr};
ghost use Rattle.std.specs.Arc.{arc_value};
ghost use Rattle.kb_days.specs.Calendar.{first_day, charged_days};
ghost use Rattle.kb_book.specs.Rows.{IsUnprepared, first_refusal};
ghost use Rattle.kb_book.specs.Steps as told;
ghost use Rattle.kb_book.specs.BilledBooks.{IsBilled};
ghost use Rattle.kb_book.specs.SoundBooks.{IsBook};
ghost use Rattle.kb_account.specs.Issues.{IsIssueOf, IsSettlement};
ghost use Rattle.kb_account.specs.Prepares.{refusal_by};
ghost use Rattle.kb_account.specs.Private.States.{value_of};

use crate::billing::issue_all;
use crate::book::Book;
use crate::next::Next;
use crate::state::State;
use crate::world::World;
use kb_base::NoMemory;
use kb_book::Unprepared;
use kb_codec::Command;
use kb_days::Day;
use kb_tree::Issue;
use std::alloc::Global;
use std::sync::Arc;

impl Book {
    /// The items that bring the book up to what is due, as it stands. None is looked for if the book is known
    /// to be billed.
    pub fn issue(&self, alloc: Global, world: &World, billed: bool) -> Result<Issue, NoMemory>
        requires known { billed ≡ true → IsBilled world.now self.now }
        ensures { IfOk result (IsIssueOf world.now self.now) }
    {
        self.state.issue_now(alloc, world, billed)
    }

    /// What a settlement makes of the book, as `prepare` does; the items that are due are at hand.
    pub fn prepare_settlement(
        &self,
        alloc: Global,
        world: &World,
        today: Day,
        command: &Command,
        issue: &Issue,
    ) -> Result<Next, Unprepared>
        requires settlement { IsSettlement command.now }
        requires issue { IsIssueOf world.now self.now issue.now }
        ensures step { IfOk result (λ next. told.step world.now self.now today command.now
            ≡ Ok (next.answer, next.book)) }
        ensures refused { IfErr result (IsUnprepared (refusal_by
            (told.step world.now self.now today command.now))) }
        ensures billed { IfOk result (λ next. IsBilled world.now next.book) }
    {
        match self.state.settled(alloc, world, today, command, issue) {
            Ok(next) => Ok(next),
            Err(fault) => Err(fault),
        }
    }
}

impl State {
    /// The items that bring an account up to what is due, as it stands.
    pub fn issue_now(&self, alloc: Global, world: &World, billed: bool) -> Result<Issue, NoMemory>
        requires sound { IsBook (value_of self.now) }
        requires known { billed ≡ true → IsBilled world.now (value_of self.now) }
        ensures { IfOk result (IsIssueOf world.now (value_of self.now)) }
    {
        if !self.has_room() {
            return Err(NoMemory);
        }
        if billed {
            let none = self.no_issue(alloc)?;
            return Ok(none);
        }
        let facts = self.facts(world);
        let first = self.invoices.items() + 1;
        issue_all(alloc, &facts, &self.billed, self.charges.as_slice(), first)
    }

    /// The book after a settlement, and its answer.
    pub fn settled(
        &self,
        alloc: Global,
        world: &World,
        today: Day,
        command: &Command,
        issue: &Issue,
    ) -> Result<Next, Unprepared>
        requires sound { IsBook (value_of self.now) }
        requires settlement { IsSettlement command.now }
        requires issue { IsIssueOf world.now (value_of self.now) issue.now }
        ensures accepted { OnOk result
            (first_refusal (told.rows_of world.now (value_of self.now) today command.now) ≡ None) }
        ensures next { IfOk result (λ next. told.accepted_over world.now (value_of self.now) today command.now
            first_day charged_days ≡ (next.answer, next.book)) }
        ensures refused { IfErr result (IsUnprepared
            (first_refusal (told.rows_of world.now (value_of self.now) today command.now))) }
    {
        let begun = self.begin(alloc, world, today, command)?;
        if !self.has_room() {
            return Err(Unprepared::NoMemory);
        }
        let issue = share_issue(alloc, issue)?;
        Ok(self.issued(alloc, world, today, command, begun, issue)?)
    }
}

/// The same items. It shares what is charged.
fn share_issue(alloc: Global, issue: &Issue) -> Result<Issue, NoMemory>
    ensures lines { IfOk result (λ same. same.lines.items ≡ issue.now.lines.items) }
    ensures charges { IfOk result (λ same. (arc_value same.charges).items
        ≡ (arc_value issue.now.charges).items) }
{
    let lines = Vec::from_slice(alloc, &issue.lines)?;
    let charges = Arc::try_clone(&issue.charges)?;
    Ok(Issue { lines, charges })
}
