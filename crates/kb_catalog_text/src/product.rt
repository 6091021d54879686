//! A product.
ghost use Rattle.toml.specs.View.{table_view};
ghost use Rattle.kb_catalog_text.specs.Reads.{IsRead};
ghost use Rattle.kb_catalog_text.specs.CatalogEntries.{product_in};

use crate::entries::Entry;
use crate::from_value::{list_or_empty, required};
use crate::key_fault::KeyFault;
use crate::keys::{Among, known_keys};
use kb_catalog::Product;
use std::alloc::Global;
use toml::Table;

impl Entry for Product {
    ghost says = { product_in };

    fn entry(alloc: Global, table: &Table) -> Result<Product, KeyFault> {
        read_product(alloc, table)
    }
}

/// The product that a table says.
fn read_product(alloc: Global, table: &Table) -> Result<Product, KeyFault>
    ensures { IsRead result (product_in (table_view table.now)) }
{
    let keys = Among {
        keys: &["name", "category", "available", "included"],
    };
    known_keys(alloc, table, &keys)?;
    let name = required(alloc, table, "name")?;
    let category = required(alloc, table, "category")?;
    let available = list_or_empty(alloc, table, "available")?;
    let included = list_or_empty(alloc, table, "included")?;
    Ok(Product {
        name,
        category,
        available,
        included,
    })
}
