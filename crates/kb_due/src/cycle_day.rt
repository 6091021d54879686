//! The cycle day by which a day is billed.
ghost use Rattle.std.specs.Prelude.{◌≡◌, is_some, Some, unwrap_or, option_map};
ghost use Rattle.std.specs.Prelude.{option_and_then};
ghost use Rattle.kb_catalog.specs.declared.phase.Phase.{Phase};
ghost use Rattle.kb_catalog.specs.declared.product.Product.{Product};
ghost use Rattle.kb_catalog.specs.VersionProducts.{product_named};
ghost use Rattle.kb_days.specs.Calendar.{day_of_month};
ghost use Rattle.kb_due.specs.Governing.{choice_of};
ghost use Rattle.kb_due.specs.CycleDays.{ask_of, billing_align, first_billed_start, own_cycle_day, cycle_day};

use crate::facts::Facts;
use crate::governing::{Choice, Governing, choice_of};
use crate::life::lead_of;
use kb_align::next_start;
use kb_catalog::{BillingAlign, Category, Phase, Plan, PlanAsk, Version};
use kb_days::{Bcd, Day, Name, Reach, day_of_month};
use kb_money::Currency;
use kb_timeline::{Entry, Subscription};

/// The cycle day by which a day of a subscription is billed: the account's, its lead's or its own.
pub(crate) fn cycle_day(facts: &Facts, subscription: &Subscription, governing: &Governing) -> Bcd
    ensures { result ≡ cycle_day facts.now subscription.now governing.now }
{
    match billing_align(&governing.choice, governing.phase) {
        BillingAlign::Account => facts.bcd,
        BillingAlign::Bundle => {
            own_cycle_day(facts, lead_of(facts, subscription).unwrap_or(subscription))
        }
        BillingAlign::Subscription => own_cycle_day(facts, subscription),
    }
}

/// Whose cycle day is used, by the rules of the plan's version.
fn billing_align(choice: &Choice, phase: &Phase) -> BillingAlign
    ensures { billing_align choice.now phase.now ≡ Some result }
{
    choice.version.billing_alignment(&ask_of(choice, phase))
}

/// A plan and a phase of it, as the rules of its version look at them.
pub fn ask_of(choice: &Choice, phase: &Phase) -> PlanAsk
    ensures { result ≡ ask_of choice.now phase.now }
{
    PlanAsk {
        product: choice.plan.product,
        category: category_of(choice.version.version(), choice.plan.product),
        period: choice.plan.period(),
        list: choice.list.name,
        phase: Some(phase.kind),
    }
}

/// The category of a product, where the version has it.
fn category_of(version: &Version, product: Name) -> Option<Category>
    ensures { result ≡ option_map (λ (product : Product). product.category)
        (product_named version.now product) }
{
    match version.product(product) {
        None => None,
        Some(product) => Some(product.category),
    }
}

/// A subscription's own cycle day: the day of the month on which the first phase with a recurring price
/// starts, by the plan and anchor of its start; where there is none, that of its start.
fn own_cycle_day(facts: &Facts, subscription: &Subscription) -> Bcd
    ensures { result ≡ own_cycle_day facts.now subscription.now }
{
    let entry = subscription.entries.start();
    let start = billed_start(facts, entry).unwrap_or(entry.day.reach());
    number_in_month(start)
}

/// The day of its month that a day is.
fn number_in_month(day: Reach) -> Bcd
    ensures { result ≡ day_of_month day }
{
    Bcd::new(day_of_month(day)).unwrap()
}

/// The start of the first phase with a recurring price, by the plan and anchor of an entry.
fn billed_start(facts: &Facts, entry: &Entry) -> Option<Reach>
    ensures { result ≡ option_and_then (λ choice. first_billed_start facts.now.currency entry.now.anchor
        choice.plan) (choice_of facts.now.catalog entry.now.plan) }
{
    let choice = choice_of(facts.catalog, entry.plan)?;
    first_billed_start(facts.currency, entry.anchor, choice.plan)
}

/// The start of a plan's first phase with a recurring price, where there is one and it is reached.
#[tactic(auto, unfolding(kb_align::specs::Phases::phase_starts))]
fn first_billed_start(currency: Currency, anchor: Day, plan: &Plan) -> Option<Reach>
    ensures { result ≡ first_billed_start currency anchor plan.now }
{
    let mut start = Some(anchor.reach());
    for phase in plan.phases.as_slice() {
        if phase.recurring_price(currency).is_some() {
            return start;
        }
        start = next_start(&start, phase.span);
    }
    None
}
