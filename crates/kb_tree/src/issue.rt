//! What is issued for all subscriptions of an account.
ghost use Rattle.std.specs.Prelude.{◌≡◌, ◌≤◌, ◌+◌, ◌*◌, ◌^◌, length, All, IfOk};
ghost use Rattle.kb_days.specs.Calendar.{first_day, charged_days};
ghost use Rattle.kb_tree.specs.Issues as told;
ghost use Rattle.kb_tree.specs.Numbers.{AreBelow};
ghost use Rattle.kb_tree.specs.ItemLines.{IsItemLine};
ghost use Rattle.kb_tree.specs.IssueValues.{issue_of};

use crate::item::ItemNo;
use crate::steps::Steps;
use crate::subscription::{SubscriptionCharges, subscription_issue};
use kb_base::NoMemory;
use kb_credit::Line;
use kb_days::Day;
use kb_due::Facts;
use std::alloc::Global;
use std::sync::Arc;
use std::sync::ledger::Ledger;

/// What is issued: the lines of the new items, and what is charged to each subscription with them. Books
/// share what is charged.
#[derive(Drop)]
pub struct Issue {
    pub lines: Vec<Line>,
    pub charges: Arc<Vec<SubscriptionCharges>>,
}

/// What is charged to all subscriptions, in order of creation, brought up to what is due at a billed date,
/// and the lines of the new items, which get the numbers from `first` on. It takes no step.
pub fn issue_due<L: Ledger>(
    alloc: Global,
    facts: &Facts,
    billed: &Option<Day>,
    charges: &[SubscriptionCharges],
    first: ItemNo,
    steps: &mut Steps<L>,
) -> Result<Issue, NoMemory>
    requires matched { length charges.now ≡ length facts.now.timeline.subscriptions }
    requires below { All (AreBelow first) charges.now }
    requires room { first ≤ 2 ^ 61 }
    ensures issue { IfOk result (λ issue. issue_of issue
        ≡ told.issue_from facts.now billed.now first_day charged_days first 0 charges.now) }
    ensures below { IfOk result (λ issue. All (AreBelow (first + length issue.lines.items))
        (issue_of issue).charges) }
    ensures few { IfOk result (λ issue. length issue.lines.items ≤ 4 * charged_days * length charges.now) }
    ensures plain { IfOk result (λ issue. All IsItemLine issue.lines.items) }
    ensures steps { steps.new ≡ steps.old }
{
    // The check has to see that places are u32.
    let _count = facts.timeline.len();
    let mut lines = Vec::new(alloc);
    let mut all = Vec::with_capacity(alloc, charges.len())?;
    let mut sub = 0;
    for items in charges {
        let number = first + lines.len() as u64;
        let (more, new_lines) = subscription_issue(
            alloc, facts, billed, sub, items, number, steps,
        )?;
        all.push(more)?;
        lines.extend_from_slice(&new_lines)?;
        sub += 1;
    }
    let charges = Arc::new(alloc, all)?;
    Ok(Issue { lines, charges })
}
