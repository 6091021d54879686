//! The rule of rule lists.
ghost use Rattle.std.specs.Prelude.{◌≡◌, ◌||◌};
ghost use Rattle.std.specs.List.{list_any};
ghost use Rattle.std.specs.Option.{option_copied};
ghost use Rattle.kb_catalog.specs.VersionProducts.{has_product};
ghost use Rattle.kb_catalog.specs.VersionLists.{has_list};
ghost use Rattle.kb_catalog.specs.VersionCases.{misses, names_wrongly, names_wrongly_to, case_names_wrongly};
ghost use Rattle.kb_catalog.specs.VersionCases.{decides_wrongly};
ghost use Rattle.kb_catalog.specs.VersionRules.{rule_list_wrong};

use crate::case::{Case, ends_open};
use crate::check::lists::has_list;
use crate::check::products::has_product;
use crate::rules::PlanCondition;
use crate::version::Version;
use kb_days::Name;

/// Whether the rule list at a place is wrong: change policy, change alignment, cancel policy, create
/// alignment, billing alignment.
pub(super) fn is_wrong_at(version: &Version, place: usize) -> bool
    ensures { result ≡ rule_list_wrong version.now place }
{
    let rules = &version.rules;
    match place {
        0 => decides_wrongly(version, rules.change_policy.as_slice()),
        1 => decides_wrongly(version, rules.change_alignment.as_slice()),
        2 => decides_wrongly(version, rules.cancel_policy.as_slice()),
        3 => decides_wrongly(version, rules.create_alignment.as_slice()),
        4 => decides_wrongly(version, rules.billing_alignment.as_slice()),
        _ => false,
    }
}

/// Whether a rule list is empty, its last case has a condition, or a case names a product or list that
/// isn't there.
fn decides_wrongly<C: Case>(version: &Version, cases: &[C]) -> bool
    ensures { result ≡ decides_wrongly version.now C.asks cases.now }
{
    !ends_open(cases) || some_names_wrongly(version, cases)
}

/// Whether one of these cases names a product or a list that isn't there.
fn some_names_wrongly<C: Case>(version: &Version, cases: &[C]) -> bool
    ensures { result ≡ list_any (λ case. case_names_wrongly version.now (C.asks case)) cases.now }
{
    cases.iter().any(|case| case_names_wrongly(version, case))
}

/// Whether a case names a product or a list that isn't there.
fn case_names_wrongly<C: Case>(version: &Version, case: &C) -> bool
    ensures { result ≡ case_names_wrongly version.now (C.asks case.now) }
{
    names_wrongly(version, case.from()) || names_wrongly_to(version, case.to())
}

/// Whether the condition on the plan asked for names a product or a list that isn't there.
fn names_wrongly_to(version: &Version, condition: Option<&PlanCondition>) -> bool
    ensures { result ≡ names_wrongly_to version.now (option_copied condition.entry) }
{
    match condition {
        None => false,
        Some(condition) => names_wrongly(version, condition),
    }
}

/// Whether a plan condition names a product or a list that isn't there.
fn names_wrongly(version: &Version, condition: &PlanCondition) -> bool
    ensures { result ≡ names_wrongly version.now condition.now }
{
    misses_product(version, &condition.product) || misses_list(version, &condition.list)
}

/// Whether a product is asked for that isn't there.
fn misses_product(version: &Version, name: &Option<Name>) -> bool
    ensures { result ≡ misses (has_product version.now) name.now }
{
    match name {
        None => false,
        Some(name) => !has_product(version, name),
    }
}

/// Whether a list is asked for that isn't there.
fn misses_list(version: &Version, name: &Option<Name>) -> bool
    ensures { result ≡ misses (has_list version.now) name.now }
{
    match name {
        None => false,
        Some(name) => !has_list(version, name),
    }
}
