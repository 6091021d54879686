//! A price list.
ghost use Rattle.toml.specs.View.{table_view};
ghost use Rattle.kb_catalog_text.specs.Reads.{IsRead};
ghost use Rattle.kb_catalog_text.specs.CatalogEntries.{list_in};

use crate::entries::Entry;
use crate::from_value::required;
use crate::key_fault::KeyFault;
use crate::keys::{Among, known_keys};
use kb_catalog::PriceList;
use std::alloc::Global;
use toml::Table;

impl Entry for PriceList {
    ghost says = { list_in };

    fn entry(alloc: Global, table: &Table) -> Result<PriceList, KeyFault> {
        read_list(alloc, table)
    }
}

/// The price list that a table says.
fn read_list(alloc: Global, table: &Table) -> Result<PriceList, KeyFault>
    ensures { IsRead result (list_in (table_view table.now)) }
{
    let keys = Among {
        keys: &["name", "plans"],
    };
    known_keys(alloc, table, &keys)?;
    let name = required(alloc, table, "name")?;
    let plans = required(alloc, table, "plans")?;
    Ok(PriceList { name, plans })
}
