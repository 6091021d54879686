//! What the rules of bundles allow.
ghost use Rattle.std.specs.Prelude.{◌≡◌, ◌<◌, length, slice_get, Some, IfSome};
ghost use Rattle.kb_book.specs.BundleRules as told;
ghost use Rattle.kb_book.specs.Anchors as leads;

use crate::category::{category_in, category_on};
use crate::policy::{governing_ask, governing_of};
use kb_catalog::Category;
use kb_days::{Day, Name, Reach};
use kb_due::{Choice, Facts, choice_on, is_available, live};

/// Whether a subscription of a product may start in a bundle on a day: as its lead if the bundle isn't there
/// yet, and else as an add-on that its lead offers.
pub fn may_join(facts: &Facts, bundle: Option<u32>, product: Name, day: Day) -> bool
    ensures { result ≡ told.may_join facts.now bundle product day }
{
    let category = category_on(facts.catalog, day, product);
    match bundle {
        None => may_lead(category),
        Some(bundle) => is_add_on(category) && is_offered(facts, bundle, product, day.reach()),
    }
}

/// Whether a product may lead a bundle.
fn may_lead(category: Option<Category>) -> bool
    ensures { result ≡ told.may_lead category }
{
    matches!(category, Some(Category::Base | Category::Standalone))
}

/// Whether a product is an add-on.
pub fn is_add_on(category: Option<Category>) -> bool
    ensures { result ≡ told.is_addon category }
{
    match category {
        Some(category) => category.is_add_on(),
        None => false,
    }
}

/// Whether a bundle's lead is live on a day, and offers a product.
fn is_offered(facts: &Facts, bundle: u32, product: Name, day: Reach) -> bool
    ensures { result ≡ told.is_offered_by facts.now product day (leads.bundle_lead facts.now (Some bundle)) }
{
    let Some(lead) = facts.timeline.lead(bundle) else {
        return false;
    };
    let entries = &facts.timeline.subscription(lead).entries;
    live(facts, lead, day) && is_chosen_with(choice_on(facts.catalog, entries, day), product)
}

/// Whether what was chosen, if anything was, offers a product.
fn is_chosen_with(choice: Option<Choice>, product: Name) -> bool
    ensures { result ≡ told.is_chosen_with product choice.entry }
{
    match choice {
        None => false,
        Some(choice) => offers(&choice, product),
    }
}

/// Whether a plan is of a base product that lists another one as available.
fn offers(choice: &Choice, product: Name) -> bool
    ensures { result ≡ told.offers product choice.now }
{
    is_base(category_in(choice.version, choice.plan.product)) && is_available(choice, product)
}

/// Whether a product is a base product.
fn is_base(category: Option<Category>) -> bool
    ensures { result ≡ told.is_base_product category }
{
    match category {
        Some(category) => category.is_base(),
        None => false,
    }
}

/// Whether a change of the subscription at a place, to a product, that is asked for on one day and takes
/// effect on another, breaks the rules of bundles: it alters the category, or takes an add-on to a product
/// that its lead doesn't offer on the day of effect.
pub fn breaks_bundle(facts: &Facts, sub: u32, day: Day, effect: Day, product: Name) -> bool
    requires there { sub < length facts.now.timeline.subscriptions }
    ensures { IfSome (slice_get facts.now.timeline.subscriptions sub) (λ subscription. result
        ≡ told.breaks_bundle facts.now sub subscription day effect product) }
{
    let subscription = facts.timeline.subscription(sub);
    alters_category(facts, sub, day, effect, product)
        || (subscription.addon && !is_offered(facts, subscription.bundle, product, effect.reach()))
}

/// Whether such a change alters the category.
fn alters_category(facts: &Facts, sub: u32, day: Day, effect: Day, product: Name) -> bool
    requires there { sub < length facts.now.timeline.subscriptions }
    ensures { result ≡ told.alters_category facts.now sub day effect product }
{
    differ(
        governing_category(facts, sub, day.reach()),
        category_on(facts.catalog, effect, product),
    )
}

/// The category of the product that governs a day of the subscription at a place.
fn governing_category(facts: &Facts, sub: u32, day: Reach) -> Option<Category>
    requires there { sub < length facts.now.timeline.subscriptions }
    ensures { result ≡ told.governing_category facts.now sub day }
{
    governing_ask(&governing_of(facts, sub, day)?).category
}

/// Whether two categories differ, or one isn't known.
fn differ(old: Option<Category>, new: Option<Category>) -> bool
    ensures { result ≡ told.differ old new }
{
    match (old, new) {
        (Some(old), Some(new)) => old != new,
        _ => true,
    }
}

/// Whether the subscription at a place is cancelled on whichever day, or isn't live on this one.
pub fn is_over(facts: &Facts, sub: u32, day: Reach) -> bool
    requires there { sub < length facts.now.timeline.subscriptions }
    ensures { IfSome (slice_get facts.now.timeline.subscriptions sub) (λ subscription. result
        ≡ told.is_over facts.now subscription day) }
{
    facts.timeline.subscription(sub).cancel.is_some() || !live(facts, sub, day)
}
