//! What the shop's own rules give.

use super::ask;
use crate::catalog::catalogs::first;
use crate::compare::same;
use kb_catalog::{
    Align, BillingAlign, Catalog, Category, ChangeAsk, CreateAlign, PlanAsk, Policy, Valid,
};
use kb_catalog_text::SHOP;
use kb_days::Period;
use kb_samples::{SampleFault, catalog};
use std::process::Abort;

/// The product of an annual plan that governs, and its category; the product and period that are asked for;
/// the policy of the change; and the cancel policy and the alignment of a start of the one that governs.
type Row = (
    &'static str,
    Option<Category>,
    &'static str,
    Period,
    Policy,
    (Policy, CreateAlign),
);

const NOW: Policy = Policy::Immediate;

const LATER: Policy = Policy::EndOfTerm;

const START: CreateAlign = CreateAlign::StartOfSubscription;

static ROWS: [Row; 5] = [
    (
        "Big",
        Some(Category::Standalone),
        "Basic",
        Period::Annual,
        Policy::Illegal,
        (NOW, START),
    ),
    (
        "Basic",
        Some(Category::Base),
        "Big",
        Period::Monthly,
        NOW,
        (NOW, START),
    ),
    (
        "Pro",
        Some(Category::Base),
        "Basic",
        Period::Annual,
        LATER,
        (LATER, START),
    ),
    (
        "Support",
        Some(Category::AddOn),
        "Pro",
        Period::Monthly,
        NOW,
        (NOW, CreateAlign::StartOfBundle),
    ),
    // The version lacks the product.
    ("Lost", None, "Lost", Period::Annual, LATER, (NOW, START)),
];

#[test]
fn rules_of_the_shop(rt: HostRuntime) -> Result<(), SampleFault> {
    let catalog = catalog(rt.alloc(), &[SHOP])?;
    shop_rules_decide(&rt, &catalog)
}

fn shop_rules_decide(rt: &impl Abort, catalog: &Catalog) -> Result<(), SampleFault> {
    let version = first(catalog)?;
    for row in &ROWS {
        shop_decides(rt, version, row)?;
    }
    Ok(())
}

fn shop_decides(rt: &impl Abort, version: &Valid, row: &Row) -> Result<(), SampleFault> {
    let (product, category, other, period, policy, alone) = *row;
    let from = ask(product, category, Period::Annual, "DEFAULT", None)?;
    let to = ask(other, None, period, "DEFAULT", None)?;
    shop_decides_alone(rt, version, &from, alone);
    let change = ChangeAsk { from, to };
    let found = (
        version.change_policy(&change),
        version.change_alignment(&change),
    );
    same(rt, &found, &(policy, Align::StartOfSubscription), row);
    Ok(())
}

fn shop_decides_alone(
    rt: &impl Abort,
    version: &Valid,
    plan: &PlanAsk,
    decided: (Policy, CreateAlign),
) {
    let policy = version.cancel_policy(plan);
    let start = version.create_alignment(plan);
    let billing = version.billing_alignment(plan);
    let wanted = (decided.0, decided.1, BillingAlign::Account);
    same(rt, &(policy, start, billing), &wanted, &plan.product);
}
