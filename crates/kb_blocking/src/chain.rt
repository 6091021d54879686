//! The scopes that are looked at beside each other.
ghost use Rattle.std.specs.Prelude.{◌≡◌};
ghost use Rattle.kb_blocking.specs.Blocking.{is_place, is_on_chain};

use crate::state::{Chain, Scope};

/// Whether a scope is on a chain: the account always is.
pub(crate) fn is_on_chain(chain: Chain, scope: Scope) -> bool
    ensures { result ≡ is_on_chain chain scope }
{
    match scope {
        Scope::Account => true,
        Scope::Bundle(place) => is_place(chain.bundle, place),
        Scope::Subscription(place) => is_place(chain.subscription, place),
    }
}

/// Whether a place is there, and is this one.
fn is_place(there: Option<u32>, place: u32) -> bool
    ensures { result ≡ is_place there place }
{
    match there {
        None => false,
        Some(other) => other == place,
    }
}
