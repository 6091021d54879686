//! The whole document of a catalog.
ghost use Rattle.toml.specs.View.{table_view};
ghost use Rattle.kb_catalog_text.specs.Reads.{IsRead};
ghost use Rattle.kb_catalog_text.specs.CatalogText.{version_in};

use crate::entries::{entries_at, entry_at};
use crate::format::Format;
use crate::from_value::required;
use crate::key_fault::KeyFault;
use crate::keys::{Among, known_keys};
use kb_catalog::Version;
use std::alloc::Global;
use toml::Table;

/// The version that a document says.
pub(crate) fn read_version(alloc: Global, table: &Table) -> Result<Version, KeyFault>
    ensures { IsRead result (version_in (table_view table.now)) }
{
    let keys = Among {
        keys: &[
            "format",
            "effective",
            "currencies",
            "product",
            "plan",
            "list",
            "rules",
        ],
    };
    known_keys(alloc, table, &keys)?;
    let _format: Format = required(alloc, table, "format")?;
    let effective = required(alloc, table, "effective")?;
    let currencies = required(alloc, table, "currencies")?;
    let products = entries_at(alloc, table, "product")?;
    let plans = entries_at(alloc, table, "plan")?;
    let lists = entries_at(alloc, table, "list")?;
    let rules = entry_at(alloc, table, "rules")?;
    Ok(Version {
        effective,
        currencies,
        products,
        plans,
        lists,
        rules,
    })
}
