//! The items that an edited account gets, and the lines of a command.
ghost use Rattle.std.specs.Prelude.{◌≡◌, ◌+◌, ◌*◌, ◌^◌, ◌<◌, ◌≤◌, ◌++◌, ◌∷◌, [], length, All, IfOk};
ghost use Rattle.std.specs.Prelude.{option_to_list};
ghost use Rattle.std.specs.Arc.{arc_value};
ghost use Rattle.kb_days.specs.Calendar.{first_day, charged_days};
ghost use Rattle.kb_tree.specs.Numbers.{AreBelow};
ghost use Rattle.kb_tree.specs.ItemLines.{IsItemLine};
ghost use Rattle.kb_tree.specs.IssueValues.{issue_of};
ghost use Rattle.kb_book.specs.Dues.{facts_of};
ghost use Rattle.kb_tree.specs.Issues as told;
ghost use Rattle.kb_book.specs.Commands.{own_lines};
ghost use Rattle.kb_book.specs.Steps as steps;
ghost use Rattle.kb_account.specs.Private.States.{value_of};
ghost use Rattle.kb_account.specs.Private.Begins.{begun_of};
ghost use Rattle.kb_account.specs.Private.LeavingCommands as leaving;

use crate::begun::Begun;
use crate::state::State;
use crate::world::World;
use kb_base::NoMemory;
use kb_codec::{Action, Command};
use kb_credit::Line;
use kb_days::Day;
use kb_due::Facts;
use kb_timeline::Timeline;
use kb_tree::{Issue, ItemNo, Steps, SubscriptionCharges, issue_due};
use std::alloc::Global;
use std::marker::Brand;
use std::sync::Arc;
use std::sync::ledger::{Blank, Ledger};

impl State {
    /// The items that bring an edited account up to what is due.
    pub fn issue(&self, alloc: Global, world: &World, begun: &Begun) -> Result<Issue, NoMemory>
        requires matched { length (begun_of (value_of self.now) begun.now).charges
            ≡ length (begun_of (value_of self.now) begun.now).timeline.subscriptions }
        requires below { All (AreBelow (length self.now.invoices.items + 1))
            (begun_of (value_of self.now) begun.now).charges }
        requires room { length self.now.invoices.items < 2 ^ 60 }
        ensures issue { IfOk result (λ issue. issue_of issue
            ≡ steps.issue_over world.now (begun_of (value_of self.now) begun.now) first_day charged_days) }
        ensures few { IfOk result (λ issue. length issue.lines.items ≤ 512 * charged_days) }
        ensures plain { IfOk result (λ issue. All IsItemLine issue.lines.items) }
    {
        let facts = self.facts_after(world, begun);
        let first = self.invoices.items() + 1;
        if begun.started {
            let charges = with_start(alloc, self.charges.as_slice())?;
            return issue_all(alloc, &facts, &begun.billed, &charges, first);
        }
        issue_all(alloc, &facts, &begun.billed, self.charges.as_slice(), first)
    }

    /// No item, and what is charged as it stands.
    pub fn no_issue(&self, alloc: Global) -> Result<Issue, NoMemory>
        ensures lines { IfOk result (λ issue. issue.lines.items ≡ []) }
        ensures charges { IfOk result (λ issue. (arc_value issue.charges).items
            ≡ (arc_value self.now.charges).items) }
    {
        let charges = Arc::try_clone(&self.charges)?;
        let lines = Vec::new(alloc);
        Ok(Issue { lines, charges })
    }

    /// What billing looks at once the account is edited.
    fn facts_after<'a>(&'a self, world: &'a World, begun: &'a Begun) -> Facts<'a>
        ensures { result ≡ facts_of world.now (begun_of (value_of self.now) begun.now) }
    {
        Facts {
            catalog: &world.catalog,
            timeline: &begun.timeline,
            blocks: &begun.blocks,
            currency: self.currency,
            bcd: self.bcd,
        }
    }
}

/// The items that bring subscriptions up to what is due. Steps are counted in a ledger of its own.
pub(crate) fn issue_all(
    alloc: Global,
    facts: &Facts,
    billed: &Option<Day>,
    charges: &[SubscriptionCharges],
    first: ItemNo,
) -> Result<Issue, NoMemory>
    requires matched { length charges.now ≡ length facts.now.timeline.subscriptions }
    requires below { All (AreBelow first) charges.now }
    requires room { first ≤ 2 ^ 61 }
    ensures issue { IfOk result (λ issue. issue_of issue
        ≡ told.issue_from facts.now billed.now first_day charged_days first 0 charges.now) }
    ensures few { IfOk result (λ issue. length issue.lines.items ≤ 512 * charged_days) }
    ensures plain { IfOk result (λ issue. All IsItemLine issue.lines.items) }
{
    issue_counted::<Brand>(alloc, facts, billed, charges, first, Blank::new(1))
}

/// The same, with steps counted in a ledger.
fn issue_counted<L: Ledger>(
    alloc: Global,
    facts: &Facts,
    billed: &Option<Day>,
    charges: &[SubscriptionCharges],
    first: ItemNo,
    blank: Blank,
) -> Result<Issue, NoMemory>
    requires name { blank.name ≡ L.name }
    requires parts { blank.parts ≡ L.parts }
    requires some { 0 < blank.parts }
    requires matched { length charges.now ≡ length facts.now.timeline.subscriptions }
    requires below { All (AreBelow first) charges.now }
    requires room { first ≤ 2 ^ 61 }
    ensures issue { IfOk result (λ issue. issue_of issue
        ≡ told.issue_from facts.now billed.now first_day charged_days first 0 charges.now) }
    ensures few { IfOk result (λ issue. length issue.lines.items ≤ 512 * charged_days) }
    ensures plain { IfOk result (λ issue. All IsItemLine issue.lines.items) }
{
    let _few = count_of(facts.timeline);
    let mut steps = Steps::<L>::new(blank);
    issue_due(alloc, facts, billed, charges, first, &mut steps)
}

/// How many subscriptions there are.
fn count_of(timeline: &Timeline) -> u32
    ensures count { result ≡ length timeline.now.subscriptions }
    ensures few { result ≤ 128 }
{
    let count = timeline.len();
    if 0 < count {
        // A timeline with a subscription shows how many there may be.
        let _first = timeline.subscription(0);
    }
    count
}

/// What is charged, and a new subscription without an item behind it.
fn with_start(
    alloc: Global,
    charges: &[SubscriptionCharges],
) -> Result<Vec<SubscriptionCharges>, NoMemory>
    ensures { IfOk result (λ all. all.items ≡ charges.now ++ told.no_items ∷ []) }
{
    let mut all = Vec::with_capacity(alloc, charges.len() + 1)?;
    for one in charges {
        all.push(one.share()?)?;
    }
    all.push(SubscriptionCharges::new(alloc))?;
    Ok(all)
}

/// The lines of the new items, and that of a charge or a credit behind them.
pub(crate) fn with_own_line(mut lines: Vec<Line>, command: &Command) -> Result<Vec<Line>, NoMemory>
    ensures { IfOk result (λ all. all.items ≡ lines.items ++ own_lines command.now) }
{
    if let Some(line) = own_line(command) {
        lines.push(line)?;
    }
    Ok(lines)
}

/// Whether a command leaves what is due, so that no item comes of it if the book is billed.
pub(crate) fn leaves_due(command: &Command) -> bool
    ensures { result ≡ leaving.leaves_due command.now }
{
    match command {
        Command::Act { action, .. } => action_leaves_due(action),
        Command::Auto(_) | Command::Settle(_) => true,
        _ => false,
    }
}

/// Whether an action does.
fn action_leaves_due(action: &Action) -> bool
    ensures { result ≡ leaving.action_leaves_due action.now }
{
    match action {
        Action::Charge(_)
        | Action::Credit(_)
        | Action::Pay(_)
        | Action::Refund(_)
        | Action::Chargeback(_)
        | Action::Autopay(_) => true,
        _ => false,
    }
}

/// The line of a charge or a credit.
fn own_line(command: &Command) -> Option<Line>
    ensures { option_to_list result ≡ own_lines command.now }
{
    match command {
        Command::Act {
            action: Action::Charge(charge),
            ..
        } => Some(Line::Charge {
            amount: i128::from(charge.amount.units()),
        }),
        Command::Act {
            action: Action::Credit(credit),
            ..
        } => Some(Line::Credit {
            amount: -i128::from(credit.amount.units()),
        }),
        _ => None,
    }
}
