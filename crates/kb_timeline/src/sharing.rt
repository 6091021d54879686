//! Lists of a timeline with one member more, or another one. All other subscriptions are shared.
ghost use Rattle.std.specs.Prelude.{◌≡◌, ◌<◌, ◌++◌, ◌∷◌, [], length, map, IfOk};
ghost use Rattle.std.specs.Arc.{arc_value};
ghost use Rattle.kb_timeline.specs.TimelineEdits.{with_name, edited_at};

use crate::subscription::Subscription;
use kb_base::{NoMemory, Seq, shared};
use kb_days::Name;
use std::alloc::Global;
use std::sync::Arc;

/// The same names.
pub(crate) fn same_names(alloc: Global, names: &[Name]) -> Result<Seq<Name>, NoMemory>
    ensures { IfOk result (λ same. same ≡ names.now) }
{
    Ok(Seq::from_vec(names.to_vec(alloc)?))
}

/// The names, and another one behind them, unless it is there.
pub(crate) fn with_name(
    alloc: Global,
    names: &[Name],
    place: Option<u32>,
    name: Name,
) -> Result<Seq<Name>, NoMemory>
    ensures { IfOk result (λ longer. longer ≡ with_name names.now place name) }
{
    let mut longer = same_names(alloc, names)?;
    if place.is_none() {
        longer.push(name)?;
    }
    Ok(longer)
}

/// The same subscriptions, shared, and another one behind them.
pub(crate) fn with_subscription(
    alloc: Global,
    subscriptions: &[Arc<Subscription>],
    subscription: Subscription,
) -> Result<Vec<Arc<Subscription>>, NoMemory>
    ensures { IfOk result (λ longer. map arc_value longer.items
        ≡ map arc_value subscriptions.now ++ subscription ∷ []) }
{
    let mut longer = shared(alloc, subscriptions)?;
    longer.push(Arc::new(alloc, subscription)?)?;
    Ok(longer)
}

/// The same subscriptions, shared, except for another one at a place.
pub(crate) fn with_another(
    alloc: Global,
    subscriptions: &[Arc<Subscription>],
    place: u32,
    subscription: Subscription,
) -> Result<Vec<Arc<Subscription>>, NoMemory>
    requires there { place < length subscriptions.now }
    ensures { IfOk result (λ edited. map arc_value edited.items
        ≡ edited_at place (λ _. subscription) (map arc_value subscriptions.now)) }
{
    let mut edited = shared(alloc, subscriptions)?;
    edited[place as usize] = Arc::new(alloc, subscription)?;
    Ok(edited)
}
