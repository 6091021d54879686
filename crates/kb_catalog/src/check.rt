//! Whether the rules of a version hold: a function for each definition, and the first fault of all.
ghost use Rattle.std.specs.Prelude.{◌≡◌, ◌<◌, ◌^◌, ◌≤◌, max};
ghost use Rattle.kb_catalog.specs.VersionRules.{HasCounts, places, is_broken_at, first_offender, fault_among};
ghost use Rattle.kb_catalog.specs.VersionRules.{fault_of};

mod cases;
mod lists;
mod plans;
mod products;

use crate::rule::{CatalogFault, Rule};
use crate::version::Version;

/// The first rule that a version breaks, and that rule's first offender.
pub(crate) fn fault_of(version: &Version) -> Option<CatalogFault>
    requires { HasCounts version.now }
    ensures { result ≡ fault_of version.now }
{
    fault_among(version, &Rule::ALL)
}

/// The first of some rules that a version breaks, and that rule's first offender.
fn fault_among(version: &Version, rules: &[Rule]) -> Option<CatalogFault>
    requires { HasCounts version.now }
    ensures { result ≡ fault_among version.now rules.now }
{
    for rule in rules {
        if let Some(index) = first_offender(version, *rule) {
            return Some(CatalogFault { rule: *rule, index });
        }
    }
    None
}

/// The first place at which a rule is broken.
fn first_offender(version: &Version, rule: Rule) -> Option<u32>
    requires { HasCounts version.now }
    ensures { result ≡ first_offender version.now rule }
{
    for place in 0..places(version, rule) {
        if is_broken_at(version, rule, place) {
            return Some(place as u32);
        }
    }
    None
}

/// How many places a rule has.
fn places(version: &Version, rule: Rule) -> usize
    requires { HasCounts version.now }
    ensures value { result ≡ places version.now rule }
    ensures counted { result ≤ 2 ^ 32 }
{
    match rule {
        Rule::Currencies => usize::max(1, version.currencies.len()),
        Rule::ProductNames | Rule::AddOns | Rule::AddOnsOnce => version.products.len(),
        Rule::PlanNames
        | Rule::PlanProducts
        | Rule::LastPhase
        | Rule::PhaseKinds
        | Rule::PhasePeriods
        | Rule::Prices => version.plans.len(),
        Rule::Lists => version.lists.len() + 1,
        Rule::Cases => 5,
    }
}

/// Whether a rule is broken at a place.
fn is_broken_at(version: &Version, rule: Rule, place: usize) -> bool
    ensures { result ≡ is_broken_at version.now rule place }
{
    match rule {
        Rule::Currencies => products::currency_breaks(version, place),
        Rule::ProductNames => products::name_repeats(version, place),
        Rule::AddOns => products::lists_wrongly_at(version, place),
        Rule::AddOnsOnce => products::lists_twice_at(version, place),
        Rule::PlanNames => plans::name_repeats(version, place),
        Rule::PlanProducts => plans::misses_product_at(version, place),
        Rule::LastPhase => plans::ends_wrongly_at(version, place),
        Rule::PhaseKinds => plans::kinds_misfit_at(version, place),
        Rule::PhasePeriods => plans::bills_wrongly_at(version, place),
        Rule::Prices => plans::prices_wrongly_at(version, place),
        Rule::Lists => lists::is_broken_at(version, place),
        Rule::Cases => cases::is_wrong_at(version, place),
    }
}
