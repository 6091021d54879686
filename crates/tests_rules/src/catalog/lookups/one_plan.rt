//! What the rules of one plan give.

use super::{ask, two_lists};
use crate::catalog::catalogs::first;
use crate::compare::same;
use kb_catalog::{BillingAlign, Catalog, Category, CreateAlign, PhaseType, Policy, Valid};
use kb_days::Period;
use kb_samples::SampleFault;
use std::process::Abort;

/// A plan's product, category, list and phase; and what the rules of one plan give.
type Row = (
    &'static str,
    Option<Category>,
    &'static str,
    Option<PhaseType>,
    (Policy, CreateAlign, BillingAlign),
);

const BASE: Option<Category> = Some(Category::Base);

const ADD_ON: Option<Category> = Some(Category::AddOn);

const TRIAL: Option<PhaseType> = Some(PhaseType::Trial);

const DISCOUNT: Option<PhaseType> = Some(PhaseType::Discount);

const NOW: Policy = Policy::Immediate;

const LATER: Policy = Policy::EndOfTerm;

const START: CreateAlign = CreateAlign::StartOfSubscription;

const LEAD: CreateAlign = CreateAlign::StartOfBundle;

const ACCOUNT: BillingAlign = BillingAlign::Account;

const BUNDLE: BillingAlign = BillingAlign::Bundle;

const OWN: BillingAlign = BillingAlign::Subscription;

static ROWS: [Row; 8] = [
    ("Pro", BASE, "DEFAULT", None, (LATER, START, ACCOUNT)),
    ("Pro", BASE, "DEFAULT", TRIAL, (NOW, START, ACCOUNT)),
    ("Pro", BASE, "SALE", DISCOUNT, (LATER, START, BUNDLE)),
    ("Basic", BASE, "DEFAULT", DISCOUNT, (NOW, START, ACCOUNT)),
    ("Basic", BASE, "SALE", None, (NOW, START, ACCOUNT)),
    (
        "Support",
        ADD_ON,
        "DEFAULT",
        None,
        (Policy::Illegal, LEAD, OWN),
    ),
    ("Support", None, "DEFAULT", None, (NOW, START, OWN)),
    // The version lacks the product.
    ("Lost", None, "SALE", DISCOUNT, (NOW, START, BUNDLE)),
];

#[test]
fn rules_of_one_plan(rt: HostRuntime) -> Result<(), SampleFault> {
    let catalog = two_lists(rt.alloc())?;
    plans_are_decided(&rt, &catalog)
}

fn plans_are_decided(rt: &impl Abort, catalog: &Catalog) -> Result<(), SampleFault> {
    let version = first(catalog)?;
    for row in &ROWS {
        plan_is_decided(rt, version, row)?;
    }
    Ok(())
}

fn plan_is_decided(rt: &impl Abort, version: &Valid, row: &Row) -> Result<(), SampleFault> {
    let (product, category, list, phase, decided) = *row;
    let plan = ask(product, category, Period::Monthly, list, phase)?;
    let policy = version.cancel_policy(&plan);
    let start = version.create_alignment(&plan);
    let billing = version.billing_alignment(&plan);
    same(rt, &(policy, start, billing), &decided, row);
    Ok(())
}
