//! Where the subscription of a command stands.
ghost use Rattle.std.specs.Prelude.{◌≡◌, ◌<◌, length, slice_get, IfSome, IsSome};
ghost use Rattle.kb_timeline.specs.TimelineEdits.{subscription_named};

use kb_days::Name;
use kb_timeline::Timeline;

/// The place of the subscription of a name.
#[tactic(auto, using(crate::proofs::FoundSubscriptions::found))]
pub fn place_of(timeline: &Timeline, name: Name) -> Option<u32>
    ensures place { result ≡ subscription_named timeline.now name }
    ensures there { IfSome result (λ sub. sub < length timeline.now.subscriptions) }
    ensures member { IfSome result (λ sub. IsSome (slice_get timeline.now.subscriptions sub)) }
{
    timeline.find(name)
}
