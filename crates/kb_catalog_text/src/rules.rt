//! The rules.
ghost use Rattle.toml.specs.View.{table_view};
ghost use Rattle.kb_catalog_text.specs.Reads.{IsRead};
ghost use Rattle.kb_catalog_text.specs.CatalogEntries.{rules_in};

use crate::entries::{Entry, entries_at};
use crate::key_fault::KeyFault;
use crate::keys::{Among, known_keys};
use kb_catalog::Rules;
use std::alloc::Global;
use toml::Table;

impl Entry for Rules {
    ghost says = { rules_in };

    fn entry(alloc: Global, table: &Table) -> Result<Rules, KeyFault> {
        read_rules(alloc, table)
    }
}

/// The rules that a table says.
fn read_rules(alloc: Global, table: &Table) -> Result<Rules, KeyFault>
    ensures { IsRead result (rules_in (table_view table.now)) }
{
    let keys = Among {
        keys: &[
            "change_policy",
            "change_alignment",
            "cancel_policy",
            "create_alignment",
            "billing_alignment",
        ],
    };
    known_keys(alloc, table, &keys)?;
    let change_policy = entries_at(alloc, table, "change_policy")?;
    let change_alignment = entries_at(alloc, table, "change_alignment")?;
    let cancel_policy = entries_at(alloc, table, "cancel_policy")?;
    let create_alignment = entries_at(alloc, table, "create_alignment")?;
    let billing_alignment = entries_at(alloc, table, "billing_alignment")?;
    Ok(Rules {
        change_policy,
        change_alignment,
        cancel_policy,
        create_alignment,
        billing_alignment,
    })
}
