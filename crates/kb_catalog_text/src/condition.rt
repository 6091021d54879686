//! The conditions of a case on a plan.
ghost use Rattle.toml.specs.View.{table_view};
ghost use Rattle.kb_catalog_text.specs.Reads.{IsRead};
ghost use Rattle.kb_catalog_text.specs.CatalogEntries.{condition_in, plan_conditions_in, from_conditions_in};
ghost use Rattle.kb_catalog_text.specs.CatalogEntries.{to_conditions_in};

use crate::from_value::optional;
use crate::key_fault::KeyFault;
use kb_catalog::PlanCondition;
use std::alloc::Global;
use toml::Table;

/// The conditions on the plan that is looked at.
pub(crate) fn plan_conditions(alloc: Global, table: &Table) -> Result<PlanCondition, KeyFault>
    ensures { IsRead result (plan_conditions_in (table_view table.now)) }
{
    read_conditions(alloc, table, "product", "category", "period", "list")
}

/// The conditions on the plan that governs before a change.
pub(crate) fn from_conditions(alloc: Global, table: &Table) -> Result<PlanCondition, KeyFault>
    ensures { IsRead result (from_conditions_in (table_view table.now)) }
{
    read_conditions(
        alloc,
        table,
        "from_product",
        "from_category",
        "from_period",
        "from_list",
    )
}

/// The conditions on the plan asked for by a change.
pub(crate) fn to_conditions(alloc: Global, table: &Table) -> Result<PlanCondition, KeyFault>
    ensures { IsRead result (to_conditions_in (table_view table.now)) }
{
    read_conditions(
        alloc,
        table,
        "to_product",
        "to_category",
        "to_period",
        "to_list",
    )
}

/// The conditions on a plan, at these four keys.
fn read_conditions(
    alloc: Global,
    table: &Table,
    product_key: &str,
    category_key: &str,
    period_key: &str,
    list_key: &str,
) -> Result<PlanCondition, KeyFault>
    ensures { IsRead result (condition_in product_key.now category_key.now period_key.now list_key.now
        (table_view table.now)) }
{
    let product = optional(alloc, table, product_key)?;
    let category = optional(alloc, table, category_key)?;
    let period = optional(alloc, table, period_key)?;
    let list = optional(alloc, table, list_key)?;
    Ok(PlanCondition {
        product,
        category,
        period,
        list,
    })
}
