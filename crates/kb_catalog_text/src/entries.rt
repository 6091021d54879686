//! Entries: what the tables of a text say, alone and in arrays.
ghost use Rattle.std.specs.Prelude.{[]};
ghost use Rattle.toml.specs.Data.{Members};
ghost use Rattle.toml.specs.View.{view, table_view, items_view};
ghost use Rattle.kb_catalog_text.specs.Reads.{Read, IsRead, required, read_or, read_table, read_array};
ghost use Rattle.kb_catalog_text.specs.Reads.{read_items};

use crate::from_value::{table_of, value_at};
use crate::key_fault::KeyFault;
use kb_base::Seq;
use std::alloc::Global;
use toml::{Table, Value};

/// What a table of a text may say.
pub trait Entry: Sized + Drop {
    ghost says: { Members → Read Self };

    /// What a table says, or the first fault of it.
    fn entry(alloc: Global, table: &Table) -> Result<Self, KeyFault>
        ensures { IsRead result (says (table_view table.now)) };
}

/// What the table at a key says, which has to be there.
#[tactic(auto, using(crate::proofs::ReadSteps::at_key))]
pub fn entry_at<T: Entry>(alloc: Global, table: &Table, key: &str) -> Result<T, KeyFault>
    ensures { IsRead result (required (read_table T.says) key.now (table_view table.now)) }
{
    match value_at(table, key) {
        None => Err(KeyFault::missing(alloc, key)),
        Some(value) => read_entry(alloc, key, value),
    }
}

/// What the tables of the array at a key say, which has to be there.
#[tactic(auto, using(crate::proofs::ReadSteps::at_key))]
pub fn entries_at<T: Entry>(alloc: Global, table: &Table, key: &str) -> Result<Seq<T>, KeyFault>
    ensures { IsRead result (required (read_array (read_table T.says)) key.now (table_view table.now)) }
{
    match value_at(table, key) {
        None => Err(KeyFault::missing(alloc, key)),
        Some(value) => read_array(alloc, key, value),
    }
}

/// What the tables of the array at a key say; none where it isn't there.
#[tactic(auto, using(crate::proofs::ReadSteps::at_key))]
pub fn entries_or_empty<T: Entry>(
    alloc: Global,
    table: &Table,
    key: &str,
) -> Result<Seq<T>, KeyFault>
    ensures { IsRead result (read_or [] (read_array (read_table T.says)) key.now (table_view table.now)) }
{
    match value_at(table, key) {
        None => Ok(Seq::new(alloc)),
        Some(value) => read_array(alloc, key, value),
    }
}

/// What the tables of an array say, which a value at a key has to be.
#[tactic(auto, using(crate::proofs::ReadSteps::inner))]
fn read_array<T: Entry>(alloc: Global, key: &str, value: &Value) -> Result<Seq<T>, KeyFault>
    ensures { IsRead result (read_array (read_table T.says) key.now (view value.now)) }
{
    match value.as_array() {
        None => Err(KeyFault::wrong_kind(alloc, key)),
        Some(items) => read_items(alloc, key, items.as_slice()),
    }
}

/// What the tables of an array at a key say, one after another.
fn read_items<T: Entry>(alloc: Global, key: &str, items: &[Value]) -> Result<Seq<T>, KeyFault>
    ensures { IsRead result (read_items (read_table T.says) key.now (items_view items.now)) }
{
    let mut entries = Seq::new(alloc);
    for item in items {
        entries.push(read_entry(alloc, key, item)?)?;
    }
    Ok(entries)
}

/// What the table says that a value at a key has to be.
#[tactic(auto, using(crate::proofs::ReadSteps::inner))]
fn read_entry<T: Entry>(alloc: Global, key: &str, value: &Value) -> Result<T, KeyFault>
    ensures { IsRead result (read_table T.says key.now (view value.now)) }
{
    T::entry(alloc, table_of(alloc, key, value)?)
}
