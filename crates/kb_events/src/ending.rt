//! When the life of an add-on ends.
ghost use Rattle.std.specs.List.Sorted.{IsNonDecreasing};
ghost use Rattle.std.specs.Prelude.{◌≡◌, ◌≤◌, true, false, slice_get, Some, IfSome};
ghost use Rattle.kb_days.specs.Calendar.{first_day, last_charged};
ghost use Rattle.kb_due.specs.Life.{is_kept_on};
ghost use Rattle.kb_events.specs.Private.Cuts.{HasDay, HasEntryDays, HasLead, AreCuts};
ghost use Rattle.kb_events.specs.Private.Ends.{IsFailureFrom, IsLifeEnd};

use kb_catalog::Catalog;
use kb_days::{END_OF_DAYS, Reach};
use kb_due::{Facts, is_kept_on, lead_of};
use kb_timeline::{Entry, Subscription};

/// The first day from its start on on which an add-on isn't kept, if there is one: its start where its bundle
/// has no lead, else the first cut on which its lead doesn't run or offer it. No subscription but an add-on
/// has such an end.
pub(crate) fn life_end(
    facts: &Facts,
    subscription: &Subscription,
    start: &Entry,
    cuts: &[u32],
) -> Option<u32>
    requires start { slice_get subscription.now.entries 0 ≡ Some start.now }
    requires cuts { AreCuts cuts.now facts.now subscription.now }
    ensures end { subscription.now.addon ≡ true → IsLifeEnd facts.now subscription.now result }
    ensures cut { IfSome result (HasDay cuts.now) }
{
    if !subscription.addon {
        return None;
    }
    match lead_of(facts, subscription) {
        None => Some(start.day.number()),
        Some(lead) => kept_until(facts.catalog, lead, subscription, start.day.reach(), cuts),
    }
}

/// The first cut from a day on on which a lead doesn't run or offer an add-on, if there is one.
fn kept_until(
    catalog: &Catalog,
    lead: &Subscription,
    addon: &Subscription,
    start: Reach,
    cuts: &[u32],
) -> Option<u32>
    requires named { first_day ≤ start }
    requires last { start ≤ last_charged }
    requires rising { IsNonDecreasing cuts.now }
    requires started { HasDay cuts.now start }
    requires led { HasLead cuts.now lead.now }
    requires added { HasEntryDays cuts.now addon.now.entries }
    ensures end { IsFailureFrom (is_kept_on catalog.now lead.now addon.now) start result }
    ensures cut { IfSome result (HasDay cuts.now) }
{
    for cut in cuts {
        if is_failure(catalog, lead, addon, start.number(), *cut) {
            return Some(*cut);
        }
    }
    None
}

/// Whether the day of a number may be charged, it isn't before an add-on's first day, and the lead doesn't
/// run or offer the add-on on it.
fn is_failure(
    catalog: &Catalog,
    lead: &Subscription,
    addon: &Subscription,
    first: u32,
    number: u32,
) -> bool
    requires named { first_day ≤ first }
    ensures passes { result ≡ false → first ≤ number → number ≤ last_charged → is_kept_on catalog.now lead.now
        addon.now number ≡ true }
    ensures begun { result ≡ true → first ≤ number }
    ensures told { result ≡ true → number ≤ last_charged }
    ensures fails { result ≡ true → is_kept_on catalog.now lead.now addon.now number ≡ false }
{
    first <= number && number < END_OF_DAYS && !is_kept_at(catalog, lead, addon, number)
}

/// Whether an add-on's lead runs and offers it on the day of a number.
fn is_kept_at(catalog: &Catalog, lead: &Subscription, addon: &Subscription, number: u32) -> bool
    requires named { first_day ≤ number }
    requires told { number ≤ last_charged }
    ensures { result ≡ is_kept_on catalog.now lead.now addon.now number }
{
    is_kept_on(catalog, lead, addon, Reach::new(number).unwrap())
}
