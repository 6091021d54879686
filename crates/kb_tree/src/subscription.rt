//! What is charged to one subscription.
ghost use Rattle.std.specs.Prelude.{◌≡◌, ◌≤◌, ◌<◌, ◌+◌, ◌*◌, ◌^◌, ◌∷◌, [], length, All, IfOk};
ghost use Rattle.kb_days.specs.Calendar.{first_day, charged_days};
ghost use Rattle.kb_due.specs.DueDays.{due_at, fee_at};
ghost use Rattle.kb_tree.specs.Issues as told;
ghost use Rattle.kb_tree.specs.Numbers.{AreBelow};
ghost use Rattle.kb_tree.specs.ItemLines.{IsItemLine};

use crate::coverage::Coverage;
use crate::due::fee_and_due_pieces;
use crate::item::ItemNo;
use crate::line::push_lines;
use crate::steps::Steps;
use kb_base::NoMemory;
use kb_credit::Line;
use kb_days::Day;
use kb_due::Facts;
use std::alloc::Global;
use std::marker::Model;
use std::sync::ledger::Ledger;

/// What is charged to a subscription: its fees, and its recurring charges.
#[derive(Drop)]
pub struct SubscriptionCharges {
    fees: Coverage,
    recurring: Coverage,
}

impl Model for SubscriptionCharges {
    ghost use Rattle.kb_tree.specs.Issues.{SubscriptionItems};

    ghost Value = { SubscriptionItems };

    ghost view = { λ charges. record { fees = charges.fees; recurring = charges.recurring } };
}

impl SubscriptionCharges {
    /// No item. It takes no memory.
    pub fn new(alloc: Global) -> SubscriptionCharges
        ensures { result ≡ told.no_items }
    {
        SubscriptionCharges {
            fees: Coverage::new(alloc),
            recurring: Coverage::new(alloc),
        }
    }

    /// The same items. It shares all that it holds.
    pub fn share(&self) -> Result<SubscriptionCharges, NoMemory>
        ensures { IfOk result (λ same. same ≡ self.now) }
    {
        let fees = self.fees.share()?;
        let recurring = self.recurring.share()?;
        Ok(SubscriptionCharges { fees, recurring })
    }
}

/// The items of the subscription at a place, brought up to what is due, the fees first, and the lines of the
/// new ones, which get the numbers from one on.
#[tactic(auto, using(crate::proofs::Issued::issued))]
pub fn subscription_issue<L: Ledger>(
    alloc: Global,
    facts: &Facts,
    billed: &Option<Day>,
    sub: u32,
    charges: &SubscriptionCharges,
    number: ItemNo,
    steps: &mut Steps<L>,
) -> Result<(SubscriptionCharges, Vec<Line>), NoMemory>
    requires there { sub < length facts.now.timeline.subscriptions }
    requires below { AreBelow number charges.now }
    requires room { number + 2 * charged_days ≤ 2 ^ 62 }
    ensures issue { IfOk result (λ made. record { lines = made.1.items; charges = made.0 ∷ [] }
        ≡ told.items_due (fee_at facts.now sub billed.now) (due_at facts.now sub billed.now) first_day
        charged_days number sub charges.now) }
    ensures below { IfOk result (λ made. AreBelow (number + length made.1.items) made.0) }
    ensures few { IfOk result (λ made. length made.1.items ≤ 4 * charged_days) }
    ensures plain { IfOk result (λ made. All IsItemLine made.1.items) }
    ensures steps { steps.new ≡ steps.old }
{
    let (fee_cells, due_cells) = fee_and_due_pieces(alloc, facts, sub, billed)?;
    let (fees, new_fees) = charges.fees.bring_up(alloc, &fee_cells, number, steps)?;
    let next = number + new_fees.len() as u64;
    let (recurring, new_charges) = charges.recurring.bring_up(alloc, &due_cells, next, steps)?;
    let mut lines = Vec::new(alloc);
    push_lines(&mut lines, sub, false, &charges.fees, &new_fees)?;
    push_lines(&mut lines, sub, true, &charges.recurring, &new_charges)?;
    Ok((SubscriptionCharges { fees, recurring }, lines))
}
