//! Where bundles and subscriptions stand.
ghost use Rattle.std.specs.Prelude.{◌≡◌, ◌<◌, ◌≤◌, ℕ, bytes_eq, nat_eq, List, length, map, IfSome};
ghost use Rattle.std.specs.List.{position_from};
ghost use Rattle.std.specs.Arc.{arc_value};
ghost use Rattle.kb_timeline.specs.declared.subscription.Subscription.{Subscription};
ghost use Rattle.kb_timeline.specs.TimelineEdits.{max_subscriptions};

use crate::subscription::Subscription;
use kb_days::Name;
use std::sync::Arc;

/// The place of the first subscription of a name.
pub(crate) fn subscription_named(subscriptions: &[Arc<Subscription>], name: Name) -> Option<u32>
    requires few { length subscriptions.now ≤ max_subscriptions }
    ensures { result ≡ position_from (λ (subscription : Subscription). bytes_eq name subscription.name) 0
        (map arc_value subscriptions.now) }
{
    for (place, subscription) in subscriptions.iter().enumerate() {
        if name == subscription.name {
            return Some(place as u32);
        }
    }
    None
}

/// The place of the first subscription of a bundle.
pub(crate) fn first_of(subscriptions: &[Arc<Subscription>], bundle: u32) -> Option<u32>
    requires few { length subscriptions.now ≤ max_subscriptions }
    ensures place { result ≡ position_from (λ (sub : Subscription). nat_eq sub.bundle bundle) 0
        (map arc_value subscriptions.now) }
    ensures there { IfSome result (λ place. place < length subscriptions.now) }
{
    for (place, subscription) in subscriptions.iter().enumerate() {
        if subscription.bundle == bundle {
            return Some(place as u32);
        }
    }
    None
}

/// The place of the first bundle of a name.
pub(crate) fn bundle_named(bundles: &[Name], name: Name) -> Option<u32>
    requires few { length bundles.now ≤ max_subscriptions }
    ensures { result ≡ position_from (λ (other : List ℕ). bytes_eq name other) 0 bundles.now }
{
    for (place, bundle) in bundles.iter().enumerate() {
        if name == *bundle {
            return Some(place as u32);
        }
    }
    None
}
