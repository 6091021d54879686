//! What the rules of a change give.

use super::{ask, two_lists};
use crate::catalog::catalogs::first;
use crate::compare::same;
use kb_catalog::{Align, Catalog, Category, ChangeAsk, PhaseType, Policy, Valid};
use kb_days::Period;
use kb_samples::SampleFault;
use std::process::Abort;

/// The product, category and phase that govern; the product, period and list that are asked for; and what the
/// rules of a change give.
type Row = (
    &'static str,
    Option<Category>,
    Option<PhaseType>,
    &'static str,
    Period,
    &'static str,
    (Policy, Align),
);

const STANDALONE: Option<Category> = Some(Category::Standalone);

const TRIAL: Option<PhaseType> = Some(PhaseType::Trial);

const DISCOUNT: Option<PhaseType> = Some(PhaseType::Discount);

const MONTHLY: Period = Period::Monthly;

const ANNUAL: Period = Period::Annual;

const NOW: Policy = Policy::Immediate;

const LATER: Policy = Policy::EndOfTerm;

const NEVER: Policy = Policy::Illegal;

const START: Align = Align::StartOfSubscription;

static ROWS: [Row; 11] = [
    (
        "Big",
        STANDALONE,
        None,
        "Basic",
        MONTHLY,
        "DEFAULT",
        (NEVER, START),
    ),
    (
        "Big",
        STANDALONE,
        DISCOUNT,
        "Basic",
        MONTHLY,
        "DEFAULT",
        (NEVER, Align::StartOfBundle),
    ),
    (
        "Basic",
        None,
        None,
        "Big",
        MONTHLY,
        "DEFAULT",
        (LATER, Align::ChangeOfPlan),
    ),
    (
        "Big",
        None,
        DISCOUNT,
        "Big",
        MONTHLY,
        "DEFAULT",
        (NEVER, Align::StartOfBundle),
    ),
    ("Basic", None, TRIAL, "Basic", ANNUAL, "SALE", (NOW, START)),
    (
        "Basic",
        None,
        DISCOUNT,
        "Basic",
        ANNUAL,
        "SALE",
        (LATER, START),
    ),
    ("Basic", None, None, "Basic", ANNUAL, "SALE", (LATER, START)),
    (
        "Basic",
        None,
        None,
        "Basic",
        ANNUAL,
        "DEFAULT",
        (NOW, START),
    ),
    ("Basic", None, None, "Basic", MONTHLY, "SALE", (NOW, START)),
    (
        "Thirty",
        STANDALONE,
        None,
        "Basic",
        MONTHLY,
        "DEFAULT",
        (NEVER, START),
    ),
    (
        "Thirty",
        None,
        None,
        "Basic",
        MONTHLY,
        "DEFAULT",
        (NOW, START),
    ),
];

#[test]
fn policies_and_alignments_of_changes(rt: HostRuntime) -> Result<(), SampleFault> {
    let catalog = two_lists(rt.alloc())?;
    changes_are_decided(&rt, &catalog)
}

fn changes_are_decided(rt: &impl Abort, catalog: &Catalog) -> Result<(), SampleFault> {
    let version = first(catalog)?;
    for row in &ROWS {
        change_is_decided(rt, version, row)?;
    }
    Ok(())
}

fn change_is_decided(rt: &impl Abort, version: &Valid, row: &Row) -> Result<(), SampleFault> {
    let (product, category, phase, other, period, list, decided) = *row;
    let from = ask(product, category, MONTHLY, "DEFAULT", phase)?;
    let to = ask(other, Some(Category::Base), period, list, TRIAL)?;
    let change = ChangeAsk { from, to };
    let found = (
        version.change_policy(&change),
        version.change_alignment(&change),
    );
    same(rt, &found, &decided, row);
    Ok(())
}
