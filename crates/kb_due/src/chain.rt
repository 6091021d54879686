//! Whose blocking states are looked at.
ghost use Rattle.std.specs.Prelude.{◌≡◌};
ghost use Rattle.kb_due.specs.Facts.{chain_of};

use kb_blocking::Chain;
use kb_timeline::Subscription;

/// The bundle and the place of a subscription, whose blocking states are looked at beside the account's.
pub fn chain_of(subscription: &Subscription, sub: u32) -> Chain
    ensures { result ≡ chain_of subscription.now sub }
{
    Chain {
        bundle: Some(subscription.bundle),
        subscription: Some(sub),
    }
}
