//! What billing asks of a version: of the shop, and of the shop with two lists.

mod changes;
mod one_plan;
mod shop_rules;

use kb_catalog::{Catalog, Category, PhaseType, PlanAsk};
use kb_catalog_text::SHOP;
use kb_days::Period;
use kb_samples::{SampleFault, catalog, name};
use std::alloc::Global;

/// Two lists, of which SALE sells another plan for Basic and a month, and one for a year; and rules of their
/// own.
const TWO_LISTS: &str = r#"
list = [
 {name="DEFAULT", plans=["basic-monthly", "pro-monthly"]},
 {name="SALE", plans=["basic-sale", "basic-annual", "starter-monthly"]}]
[rules]
change_policy = [
 {from_product="Big", policy="ILLEGAL"},
 {to_product="Big", policy="END_OF_TERM"},
 {phase="TRIAL", policy="IMMEDIATE"},
 {from_category="STANDALONE", policy="ILLEGAL"},
 {to_period="ANNUAL", to_list="SALE", policy="END_OF_TERM"},
 {policy="IMMEDIATE"}]
change_alignment = [
 {from_product="Big", phase="DISCOUNT", alignment="START_OF_BUNDLE"},
 {to_product="Big", alignment="CHANGE_OF_PLAN"},
 {alignment="START_OF_SUBSCRIPTION"}]
cancel_policy = [
 {phase="TRIAL", policy="IMMEDIATE"},
 {product="Pro", policy="END_OF_TERM"},
 {category="ADD_ON", policy="ILLEGAL"},
 {policy="IMMEDIATE"}]
create_alignment = [{category="ADD_ON", alignment="START_OF_BUNDLE"}, {alignment="START_OF_SUBSCRIPTION"}]
billing_alignment = [
 {list="SALE", phase="DISCOUNT", alignment="BUNDLE"},
 {product="Support", alignment="SUBSCRIPTION"},
 {alignment="ACCOUNT"}]
"#;

/// An eighth plan of the shop.
const SALE_PLAN: &str = r#"},
 {name="basic-sale", product="Basic", phase=[
  {type="EVERGREEN", unit="UNLIMITED", period="MONTHLY", recurring={USD=900}}]}]
"#;

/// The shop with a plan more and with two lists.
fn two_lists(alloc: Global) -> Result<Catalog, SampleFault> {
    let (shop, _) = SHOP.split_once("}]\nlist = [").ok_or(SampleFault::Word)?;
    let text = format!(in alloc; "{shop}{SALE_PLAN}{TWO_LISTS}")?;
    catalog(alloc, &[text.as_str()])
}

/// What is asked of a plan.
fn ask(
    product: &str,
    category: Option<Category>,
    period: Period,
    list: &str,
    phase: Option<PhaseType>,
) -> Result<PlanAsk, SampleFault> {
    Ok(PlanAsk {
        product: name(product)?,
        category,
        period,
        list: name(list)?,
        phase,
    })
}
