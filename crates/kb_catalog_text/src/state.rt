//! An overdue state.
ghost use Rattle.toml.specs.View.{table_view};
ghost use Rattle.kb_catalog_text.specs.Reads.{IsRead};
ghost use Rattle.kb_catalog_text.specs.StateEntries.{state_in};

use crate::entries::Entry;
use crate::from_value::{optional, required};
use crate::key_fault::KeyFault;
use crate::keys::{Among, known_keys};
use kb_overdue::OverdueState;
use std::alloc::Global;
use toml::Table;

impl Entry for OverdueState {
    ghost says = { state_in };

    fn entry(alloc: Global, table: &Table) -> Result<OverdueState, KeyFault> {
        read_state(alloc, table)
    }
}

/// The state that a table says.
fn read_state(alloc: Global, table: &Table) -> Result<OverdueState, KeyFault>
    ensures { IsRead result (state_in (table_view table.now)) }
{
    let keys = Among {
        keys: &[
            "name",
            "days",
            "count",
            "total",
            "block_change",
            "block_entitlement",
            "block_billing",
        ],
    };
    known_keys(alloc, table, &keys)?;
    let name = required(alloc, table, "name")?;
    let days = optional(alloc, table, "days")?;
    let count = optional(alloc, table, "count")?;
    let total = optional(alloc, table, "total")?;
    let block_change = required(alloc, table, "block_change")?;
    let block_entitlement = required(alloc, table, "block_entitlement")?;
    let block_billing = required(alloc, table, "block_billing")?;
    Ok(OverdueState {
        name,
        days,
        count,
        total,
        block_change,
        block_entitlement,
        block_billing,
    })
}
