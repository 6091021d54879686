//! How the subscriptions of an account stand on a day.
ghost use Rattle.std.specs.Prelude.{◌≡◌, ◌<◌, length, slice_get, IfOk, IfSome};
ghost use Rattle.kb_account.specs.Sums.{bundle_at, state_row, states_from, states_of};

use crate::book::Book;
use crate::world::World;
use kb_base::NoMemory;
use kb_days::{Day, Name};
use kb_due::{Entitlement, Facts, state_on};
use kb_timeline::Timeline;
use std::alloc::Global;

/// How a subscription stands on a day.
#[derive(Clone, Copy)]
pub struct StateRow {
    pub bundle: Name,
    pub subscription: Name,
    pub state: Entitlement,
}

impl Book {
    /// How each subscription stands on a day, in order of creation.
    pub fn states(&self, alloc: Global, world: &World, day: Day) -> Result<Vec<StateRow>, NoMemory>
        ensures { IfOk result (λ rows. rows.items ≡ states_of world.now self.now day) }
    {
        let rows = states_on(alloc, &self.state.facts(world), day)?;
        Ok(rows)
    }
}

/// How each subscription stands on a day.
fn states_on(alloc: Global, facts: &Facts, day: Day) -> Result<Vec<StateRow>, NoMemory>
    ensures { IfOk result (λ rows. rows.items
        ≡ states_from facts.now day 0 facts.now.timeline.subscriptions) }
{
    let mut rows = Vec::new(alloc);
    for sub in 0..facts.timeline.len() {
        rows.push(state_row(facts, sub, day))?;
    }
    Ok(rows)
}

/// How the subscription at a place stands on a day.
#[tactic(auto, using(crate::proofs::StateRows::placed_bundle))]
fn state_row(facts: &Facts, sub: u32, day: Day) -> StateRow
    requires there { sub < length facts.now.timeline.subscriptions }
    ensures { IfSome (slice_get facts.now.timeline.subscriptions sub) (λ subscription. result
        ≡ state_row facts.now day sub subscription) }
{
    let subscription = facts.timeline.subscription(sub);
    StateRow {
        bundle: bundle_name(facts.timeline, subscription.bundle),
        subscription: subscription.name,
        state: state_on(facts, sub, day.reach()),
    }
}

/// The name of the bundle at a place.
pub(crate) fn bundle_name(timeline: &Timeline, place: u32) -> Name
    requires there { place < length timeline.now.bundles }
    ensures { result ≡ bundle_at timeline.now.bundles place }
{
    timeline.bundles()[place as usize]
}
