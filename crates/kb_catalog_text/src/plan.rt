//! A plan.
ghost use Rattle.toml.specs.View.{table_view};
ghost use Rattle.kb_catalog_text.specs.Reads.{IsRead};
ghost use Rattle.kb_catalog_text.specs.CatalogEntries.{plan_in};

use crate::entries::{Entry, entries_at};
use crate::from_value::required;
use crate::key_fault::KeyFault;
use crate::keys::{Among, known_keys};
use kb_catalog::Plan;
use std::alloc::Global;
use toml::Table;

impl Entry for Plan {
    ghost says = { plan_in };

    fn entry(alloc: Global, table: &Table) -> Result<Plan, KeyFault> {
        read_plan(alloc, table)
    }
}

/// The plan that a table says.
fn read_plan(alloc: Global, table: &Table) -> Result<Plan, KeyFault>
    ensures { IsRead result (plan_in (table_view table.now)) }
{
    let keys = Among {
        keys: &["name", "product", "phase"],
    };
    known_keys(alloc, table, &keys)?;
    let name = required(alloc, table, "name")?;
    let product = required(alloc, table, "product")?;
    let phases = entries_at(alloc, table, "phase")?;
    Ok(Plan {
        name,
        product,
        phases,
    })
}
