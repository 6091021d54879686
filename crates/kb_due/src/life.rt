//! When a subscription is live.
ghost use Rattle.std.specs.Prelude.{◌≡◌, ◌<◌, ◌+◌, ◌-◌, length, option_copied};
ghost use Rattle.std.specs.List.{list_all, range_with_len};
ghost use Rattle.kb_catalog.specs.Products.{has_name};
ghost use Rattle.kb_due.specs.Life.{has_started, is_cancelled, is_running, choice_on, available_with};
ghost use Rattle.kb_due.specs.Life.{is_offered, is_kept_on, is_kept, is_kept_by, lead_subscription};
ghost use Rattle.kb_due.specs.Life.{is_live_of, is_live};

use crate::facts::Facts;
use crate::governing::{Choice, choice_of};
use kb_catalog::Catalog;
use kb_days::{Day, Name, Reach};
use kb_timeline::{Entries, Subscription};

/// Whether the subscription at a place is live on a day: it has started and isn't cancelled by then, and if
/// it is an add-on, on every day from its start its lead was so too and offered its product. It takes no
/// memory.
pub fn live(facts: &Facts, sub: u32, day: Reach) -> bool
    requires there { sub < length facts.now.timeline.subscriptions }
    ensures { result ≡ is_live facts.now sub day }
{
    is_live(facts, facts.timeline.subscription(sub), day)
}

/// Whether a subscription is live on a day.
pub fn is_live(facts: &Facts, subscription: &Subscription, day: Reach) -> bool
    ensures { result ≡ is_live_of facts.now subscription.now day }
{
    is_running(subscription, day)
        && (!subscription.addon
            || is_kept_by(
                facts.catalog,
                lead_of(facts, subscription),
                subscription,
                day,
            ))
}

/// Whether a subscription runs on a day: it has started and isn't cancelled by then.
pub fn is_running(subscription: &Subscription, day: Reach) -> bool
    ensures { result ≡ is_running subscription.now day }
{
    has_started(&subscription.entries, day) && !is_cancelled(subscription.cancel, day)
}

/// Whether there is a start on or before a day.
pub fn has_started(entries: &Entries, day: Reach) -> bool
    ensures { result ≡ has_started entries.now day }
{
    match entries.as_slice().first() {
        None => false,
        Some(start) => start.day.reach() <= day,
    }
}

/// Whether there is a cancellation on or before a day.
fn is_cancelled(cancel: Option<Day>, day: Reach) -> bool
    ensures { result ≡ is_cancelled cancel day }
{
    match cancel {
        None => false,
        Some(cancel) => cancel.reach() <= day,
    }
}

/// The lead of a subscription's bundle.
pub fn lead_of<'a>(facts: &Facts<'a>, subscription: &Subscription) -> Option<&'a Subscription>
    ensures { option_copied result ≡ lead_subscription facts.now subscription.now }
{
    let place = facts.timeline.lead(subscription.bundle)?;
    Some(facts.timeline.subscription(place))
}

/// Whether the lead of an add-on's bundle keeps it until a day.
fn is_kept_by(
    catalog: &Catalog,
    lead: Option<&Subscription>,
    addon: &Subscription,
    day: Reach,
) -> bool
    ensures { result ≡ is_kept_by catalog.now (option_copied lead.entry) addon.now day }
{
    match lead {
        None => false,
        Some(lead) => is_kept(catalog, lead, addon, day),
    }
}

/// Whether an add-on's lead runs and offers it on every day from its start to a day.
#[tactic(auto, unfolding(crate::specs::Life::is_kept))]
fn is_kept(catalog: &Catalog, lead: &Subscription, addon: &Subscription, day: Reach) -> bool
    ensures { result ≡ is_kept catalog.now lead.now addon.now day }
{
    is_kept_from(catalog, lead, addon, addon.entries.start().day, day)
}

/// Whether an add-on's lead runs and offers it on every day from one to another.
fn is_kept_from(
    catalog: &Catalog,
    lead: &Subscription,
    addon: &Subscription,
    first: Day,
    day: Reach,
) -> bool
    ensures { result ≡ list_all (is_kept_on catalog.now lead.now addon.now)
        (range_with_len first (day + 1 - first)) }
{
    for number in first.number()..day.number() + 1 {
        if !is_kept_on(catalog, lead, addon, Reach::new(number).unwrap()) {
            return false;
        }
    }
    true
}

/// Whether an add-on's lead runs and offers it on a day.
pub fn is_kept_on(catalog: &Catalog, lead: &Subscription, addon: &Subscription, day: Reach) -> bool
    ensures { result ≡ is_kept_on catalog.now lead.now addon.now day }
{
    is_running(lead, day) && is_offered(catalog, lead, addon, day)
}

/// Whether the lead's product of a day has the add-on's product of that day among its available ones.
fn is_offered(catalog: &Catalog, lead: &Subscription, addon: &Subscription, day: Reach) -> bool
    ensures { result ≡ is_offered catalog.now lead.now addon.now day }
{
    let lead = choice_on(catalog, &lead.entries, day);
    let addon = choice_on(catalog, &addon.entries, day);
    match (lead, addon) {
        (Some(lead), Some(addon)) => is_available(&lead, addon.plan.product),
        _ => false,
    }
}

/// What the entry that governs a day chose: none before the first one.
pub fn choice_on<'a>(catalog: &'a Catalog, entries: &Entries, day: Reach) -> Option<Choice<'a>>
    ensures { result ≡ choice_on catalog.now entries.now day }
{
    let entry = entries.on(day)?;
    choice_of(catalog, entry.plan)
}

/// Whether an add-on's product of this name may be had with the product of a lead's plan.
pub fn is_available(lead: &Choice, name: Name) -> bool
    ensures { result ≡ has_name (available_with lead.now) name }
{
    match lead.version.version().product(lead.plan.product) {
        None => false,
        Some(product) => product.offers(name),
    }
}
