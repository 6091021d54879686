//! The rules of plans, their phases and prices.
ghost use Rattle.std.specs.Prelude.{◌≡◌, bytes_eq, not};
ghost use Rattle.std.specs.List.{list_any};
ghost use Rattle.kb_base.specs.Offenders.{passes_at, repeats_at};
ghost use Rattle.kb_catalog.specs.declared.plan.Plan.{Plan};
ghost use Rattle.kb_catalog.specs.Plans.{ends_unlimited, kinds_fit, bills_wrongly, phase_prices_wrongly};
ghost use Rattle.kb_catalog.specs.VersionProducts.{has_product};
ghost use Rattle.kb_catalog.specs.VersionLists.{has_plan};

use crate::check::products::has_product;
use crate::plan::Plan;
use crate::version::Version;
use kb_days::Name;

/// Whether the name of the plan at a place stands earlier.
pub(super) fn name_repeats(version: &Version, place: usize) -> bool
    ensures { result ≡ repeats_at (λ (a : Plan) (b : Plan). bytes_eq a.name b.name) version.now.plans place }
{
    let plans = version.plans.as_slice();
    match plans.get(place) {
        None => false,
        Some(plan) => is_among(&plans[..place], &plan.name),
    }
}

/// Whether a plan of this name is there.
pub(super) fn has_plan(version: &Version, name: &Name) -> bool
    ensures { result ≡ has_plan version.now name.now }
{
    is_among(version.plans.as_slice(), name)
}

/// Whether one of these plans has this name.
fn is_among(plans: &[Plan], name: &Name) -> bool
    ensures { result ≡ list_any (λ (plan : Plan). bytes_eq name.now plan.name) plans.now }
{
    plans.iter().any(|plan| *name == plan.name)
}

/// Whether the product of the plan at a place isn't there.
pub(super) fn misses_product_at(version: &Version, place: usize) -> bool
    ensures { result ≡ passes_at version.now.plans place
        (λ (plan : Plan). not (has_product version.now plan.product)) }
{
    let plans = version.plans.as_slice();
    plans
        .get(place)
        .is_some_and(|plan| !has_product(version, &plan.product))
}

/// Whether the plan at a place has no phase, its last phase isn't unlimited, or another one is.
pub(super) fn ends_wrongly_at(version: &Version, place: usize) -> bool
    ensures { result ≡ passes_at version.now.plans place (λ (plan : Plan). not (ends_unlimited plan.phases)) }
{
    let plans = version.plans.as_slice();
    plans.get(place).is_some_and(|plan| !plan.ends_unlimited())
}

/// Whether the plan at a place has an evergreen phase that isn't last, or ends with a trial or a
/// discount.
pub(super) fn kinds_misfit_at(version: &Version, place: usize) -> bool
    ensures { result ≡ passes_at version.now.plans place (λ (plan : Plan). not (kinds_fit plan.phases)) }
{
    let plans = version.plans.as_slice();
    plans.get(place).is_some_and(|plan| !plan.kinds_fit())
}

/// Whether a phase of the plan at a place has one of a billing period and a recurring price.
pub(super) fn bills_wrongly_at(version: &Version, place: usize) -> bool
    ensures { result ≡ passes_at version.now.plans place
        (λ (plan : Plan). list_any bills_wrongly plan.phases) }
{
    let plans = version.plans.as_slice();
    plans.get(place).is_some_and(|plan| plan.bills_wrongly())
}

/// Whether a price of the plan at a place names a currency that isn't there, or one twice.
pub(super) fn prices_wrongly_at(version: &Version, place: usize) -> bool
    ensures { result ≡ passes_at version.now.plans place
        (λ (plan : Plan). list_any (phase_prices_wrongly version.now.currencies) plan.phases) }
{
    let currencies = version.currencies.as_slice();
    let plans = version.plans.as_slice();
    plans
        .get(place)
        .is_some_and(|plan| plan.prices_wrongly(currencies))
}
