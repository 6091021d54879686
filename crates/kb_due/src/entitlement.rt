//! Whether what was bought may be used.
ghost use Rattle.std.specs.Prelude.{◌≡◌, ◌<◌, length, Some};
ghost use Rattle.kb_due.specs.Entitlements.{state_of, state_on};

use crate::chain::chain_of;
use crate::facts::Facts;
use crate::life::{has_started, is_live};
use kb_blocking::Flag;
use kb_days::Reach;
use kb_timeline::Subscription;

/// How a subscription stands on a day.
///
/// | State | On a day |
/// |---|---|
/// | `Pending` | before its start |
/// | `Cancelled` | from its start on, where it isn't live |
/// | `Blocked` | on which it is live and its entitlement is blocked |
/// | `Active` | on which it is live and nothing blocks it |
#[derive(Clone, Copy, Debug, PartialEq, Eq)]
pub enum Entitlement {
    Pending,
    Active,
    Blocked,
    Cancelled,
}

/// How the subscription at a place stands on a day. It takes no memory.
pub fn state_on(facts: &Facts, sub: u32, day: Reach) -> Entitlement
    requires there { sub < length facts.now.timeline.subscriptions }
    ensures { state_on facts.now sub day ≡ Some result }
{
    state_of(facts, facts.timeline.subscription(sub), sub, day)
}

/// How a subscription stands on a day.
#[tactic(auto, unfolding(crate::specs::Entitlements::state_of))]
fn state_of(facts: &Facts, subscription: &Subscription, sub: u32, day: Reach) -> Entitlement
    ensures { result ≡ state_of facts.now subscription.now sub day }
{
    if !has_started(&subscription.entries, day) {
        Entitlement::Pending
    } else if !is_live(facts, subscription, day) {
        Entitlement::Cancelled
    } else if facts
        .blocks
        .blocked(chain_of(subscription, sub), Flag::Entitlement, day)
    {
        Entitlement::Blocked
    } else {
        Entitlement::Active
    }
}
