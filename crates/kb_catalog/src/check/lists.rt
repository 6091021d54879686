//! The rule of price lists.
ghost use Rattle.std.specs.Prelude.{◌≡◌, ◌==◌, ◌&&◌, ◌||◌, bytes_eq, length, not};
ghost use Rattle.std.specs.List.{list_any};
ghost use Rattle.kb_base.specs.Offenders.{passes_at, repeats_at};
ghost use Rattle.kb_catalog.specs.declared.plan.Plan.{Plan};
ghost use Rattle.kb_catalog.specs.declared.price_list.PriceList.{PriceList};
ghost use Rattle.kb_catalog.specs.VersionLists.{has_plan, agrees_with_one, has_agreeing, sells_wrongly};
ghost use Rattle.kb_catalog.specs.VersionLists.{has_list, default_list};

use crate::check::plans::has_plan;
use crate::names::has_name;
use crate::plan::Plan;
use crate::price_list::PriceList;
use crate::version::Version;
use kb_days::Name;

/// Whether the list at a place has a name that stands earlier, or sells wrongly, or whether, behind the
/// last list, none is named DEFAULT.
pub(super) fn is_broken_at(version: &Version, place: usize) -> bool
    ensures { result ≡ (repeats_at (λ (a : PriceList) (b : PriceList). bytes_eq a.name b.name)
        version.now.lists place
        || passes_at version.now.lists place (sells_wrongly version.now)
        || (place == length version.now.lists && not (has_list version.now default_list))) }
{
    name_repeats(version, place)
        || sells_wrongly_at(version, place)
        || (place == version.lists.len() && !has_default_list(version))
}

/// Whether a list of this name is there.
pub(super) fn has_list(version: &Version, name: &Name) -> bool
    ensures { result ≡ has_list version.now name.now }
{
    is_among(version.lists.as_slice(), name)
}

/// Whether the name of the list at a place stands earlier.
fn name_repeats(version: &Version, place: usize) -> bool
    ensures { result ≡ repeats_at (λ (a : PriceList) (b : PriceList). bytes_eq a.name b.name)
        version.now.lists place }
{
    let lists = version.lists.as_slice();
    match lists.get(place) {
        None => false,
        Some(list) => is_among(&lists[..place], &list.name),
    }
}

/// Whether one of these lists has this name.
fn is_among(lists: &[PriceList], name: &Name) -> bool
    ensures { result ≡ list_any (λ (list : PriceList). bytes_eq name.now list.name) lists.now }
{
    lists.iter().any(|list| *name == list.name)
}

/// Whether the list at a place names a plan that isn't there, or two that agree.
fn sells_wrongly_at(version: &Version, place: usize) -> bool
    ensures { result ≡ passes_at version.now.lists place (sells_wrongly version.now) }
{
    let lists = version.lists.as_slice();
    lists
        .get(place)
        .is_some_and(|list| sells_wrongly(version, list))
}

/// Whether a list is named DEFAULT.
fn has_default_list(version: &Version) -> bool
    ensures { result ≡ has_list version.now default_list }
{
    version
        .lists
        .as_slice()
        .iter()
        .any(|list| b"DEFAULT".as_slice() == list.name.as_bytes())
}

/// Whether a list names a plan that isn't there, or two that agree.
fn sells_wrongly(version: &Version, list: &PriceList) -> bool
    ensures { result ≡ sells_wrongly version.now list.now }
{
    let names = list.plans.as_slice();
    misses_plan(version, names) || has_agreeing(version, names)
}

/// Whether one of these names is of no plan.
fn misses_plan(version: &Version, names: &[Name]) -> bool
    ensures { result ≡ list_any (λ name. not (has_plan version.now name)) names.now }
{
    names.iter().any(|name| !has_plan(version, name))
}

/// Whether two of the plans that are named agree in product and billing period.
fn has_agreeing(version: &Version, names: &[Name]) -> bool
    ensures { result ≡ has_agreeing version.now names.now }
{
    let mut rest = names;
    while let Some((name, later)) = rest.split_first() {
        if is_sold_again(version, name, later) {
            return true;
        }
        rest = later;
    }
    false
}

/// Whether a plan of a name agrees with one of some names.
fn is_sold_again(version: &Version, name: &Name, names: &[Name]) -> bool
    ensures { result ≡ list_any (λ (plan : Plan). bytes_eq name.now plan.name
        && agrees_with_one version.now plan names.now) version.now.plans }
{
    let plans = version.plans.as_slice();
    plans.iter().any(|plan| *name == plan.name && agrees_with_one(version, plan, names))
}

/// Whether a plan agrees in product and billing period with one of some names.
fn agrees_with_one(version: &Version, plan: &Plan, names: &[Name]) -> bool
    ensures { result ≡ agrees_with_one version.now plan.now names.now }
{
    let plans = version.plans.as_slice();
    plans
        .iter()
        .any(|other| plan.agrees(other) && has_name(names, &other.name))
}
