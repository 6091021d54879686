//! The scope and the service of a state: its matter.
ghost use Rattle.std.specs.Prelude.{◌≡◌};
ghost use Rattle.kb_blocking.specs.Blocking.{same_scope, same_matter};

use crate::state::{BlockState, Scope};

/// Whether two states have one scope and service.
pub(crate) fn is_same_matter(state: &BlockState, other: &BlockState) -> bool
    ensures { result ≡ same_matter state.now other.now }
{
    is_same_scope(state.scope, other.scope) && state.service == other.service
}

/// Whether two scopes are the same.
fn is_same_scope(scope: Scope, other: Scope) -> bool
    ensures { result ≡ same_scope scope other }
{
    match (scope, other) {
        (Scope::Account, Scope::Account) => true,
        (Scope::Bundle(place), Scope::Bundle(other)) => place == other,
        (Scope::Subscription(place), Scope::Subscription(other)) => place == other,
        _ => false,
    }
}
