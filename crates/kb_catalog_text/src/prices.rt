//! The prices of a phase: a table with a key for each currency.
ghost use Rattle.std.specs.Prelude.{◌≡◌, [], Ok};
ghost use Rattle.toml.specs.View.{table_view};
ghost use Rattle.kb_money.specs.Currency.{is_currency};
ghost use Rattle.kb_catalog_text.specs.Reads.{IsRead, read_or, read_table, keys_read};
ghost use Rattle.kb_catalog_text.specs.CatalogEntries.{amounts_in, prices_in};

use crate::from_value::{FromValue, read_or, table_of};
use crate::key_fault::KeyFault;
use crate::keys::{Currencies, known_keys};
use kb_base::Seq;
use kb_catalog::Price;
use kb_money::{Currency, Minor};
use std::alloc::Global;
use std::marker::Model;
use toml::{Table, Value};

/// The prices of a table.
#[derive(Drop)]
struct Prices {
    prices: Seq<Price>,
}

impl Model for Prices {
    ghost use Rattle.std.specs.Prelude.{List};
    ghost use Rattle.kb_catalog.specs.declared.phase.Price.{Price};

    ghost Value = { List Price };

    ghost view = { λ prices. prices.prices };
}

/// The prices of the table at a key; none where it isn't there.
pub(crate) fn prices_at(alloc: Global, table: &Table, key: &str) -> Result<Seq<Price>, KeyFault>
    ensures { IsRead result (read_or [] (read_table prices_in) key.now (table_view table.now)) }
{
    let none = Prices {
        prices: Seq::new(alloc),
    };
    let found = read_or(alloc, table, key, none)?;
    Ok(found.prices)
}

impl FromValue for Prices {
    ghost reads = { read_table prices_in };

    #[tactic(auto, using(crate::proofs::ReadSteps::inner))]
    fn read(alloc: Global, key: &str, value: &Value) -> Result<Prices, KeyFault> {
        read_prices(alloc, table_of(alloc, key, value)?)
    }
}

/// The prices that a table says.
fn read_prices(alloc: Global, table: &Table) -> Result<Prices, KeyFault>
    ensures { IsRead result (prices_in (table_view table.now)) }
{
    known_keys(alloc, table, &Currencies)?;
    let prices = read_amounts(alloc, table)?;
    Ok(Prices { prices })
}

/// The price of each currency of a table whose keys are currencies.
fn read_amounts(alloc: Global, table: &Table) -> Result<Seq<Price>, KeyFault>
    requires currencies { keys_read is_currency (table_view table.now) ≡ Ok tt }
    ensures { IsRead result (amounts_in (table_view table.now)) }
{
    let mut prices = Seq::new(alloc);
    for (key, value) in table.iter() {
        let currency = match Currency::new(key.as_bytes()) {
            Some(currency) => currency,
            None => unreachable!(),
        };
        let amount = Minor::read(alloc, key.as_str(), value)?;
        prices.push(Price { currency, amount })?;
    }
    Ok(prices)
}
