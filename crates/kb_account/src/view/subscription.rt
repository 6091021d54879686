//! A subscription as it is shown.
ghost use Rattle.std.specs.Prelude.{◌≡◌, ◌<◌, length, option_map, IfOk, IfSome, slice_get};
ghost use Rattle.kb_due.specs.Governing.{Governing};
ghost use Rattle.kb_book.specs.Dues.{facts_of};
ghost use Rattle.kb_account.specs.Views.{live_terms, place_view, subscription_view};
ghost use Rattle.kb_account.specs.Private.States.{value_of};

use crate::state::State;
use crate::view::states::bundle_name;
use crate::world::World;
use kb_base::NoMemory;
use kb_book::SubscriptionView;
use kb_catalog::PhaseType;
use kb_days::{Day, Name, Reach};
use kb_due::{Entitlement, Facts, Governing, governing_on, live, state_on};
use kb_edits::{place_of, through_of};
use std::alloc::Global;

impl State {
    /// The subscription of a name on a day, if it is there.
    pub fn subscription_view(
        &self,
        alloc: Global,
        world: &World,
        day: Day,
        name: Name,
    ) -> Result<Option<SubscriptionView>, NoMemory>
        ensures { IfOk result (λ view. view
            ≡ subscription_view (facts_of world.now (value_of self.now)) self.now.billed day name) }
    {
        let facts = self.facts(world);
        let Some(sub) = place_of(facts.timeline, name) else {
            return Ok(None);
        };
        let view = view_at(alloc, &facts, self.billed, day, sub)?;
        Ok(Some(view))
    }
}

/// The subscription at a place on a day.
fn view_at(
    alloc: Global,
    facts: &Facts,
    billed: Option<Day>,
    day: Day,
    sub: u32,
) -> Result<SubscriptionView, NoMemory>
    requires there { sub < length facts.now.timeline.subscriptions }
    ensures { IfOk result (λ view. IfSome (slice_get facts.now.timeline.subscriptions sub)
        (λ subscription. view
        ≡ place_view facts.now billed day sub subscription)) }
{
    let subscription = facts.timeline.subscription(sub);
    let charged_through = through_of(alloc, facts, sub, billed)?;
    let terms = live_terms(facts, sub, day.reach());
    Ok(SubscriptionView {
        subscription: subscription.name,
        bundle: bundle_name(facts.timeline, subscription.bundle),
        day,
        state: state_on(facts, sub, day.reach()),
        plan: plan_of(&terms),
        phase: phase_of(&terms),
        charged_through,
    })
}

/// What governs a day of the subscription at a place, if it is live then.
fn live_terms<'a>(facts: &Facts<'a>, sub: u32, day: Reach) -> Option<Governing<'a>>
    requires there { sub < length facts.now.timeline.subscriptions }
    ensures { IfSome (slice_get facts.now.timeline.subscriptions sub) (λ subscription. result
        ≡ live_terms facts.now subscription day) }
{
    if !live(facts, sub, day) {
        return None;
    }
    let entries = &facts.timeline.subscription(sub).entries;
    governing_on(facts.catalog, entries, day)
}

/// The plan of what governs.
fn plan_of(terms: &Option<Governing>) -> Option<Name>
    ensures { result ≡ option_map (λ (governing : Governing). governing.choice.plan.name) terms.now }
{
    match terms {
        None => None,
        Some(governing) => Some(governing.choice.plan.name),
    }
}

/// The type of the phase that governs.
fn phase_of(terms: &Option<Governing>) -> Option<PhaseType>
    ensures { result ≡ option_map (λ (governing : Governing). governing.phase.kind) terms.now }
{
    match terms {
        None => None,
        Some(governing) => Some(governing.phase.kind),
    }
}
