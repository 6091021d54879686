//! How a value is read at a key of a table.
ghost use Rattle.std.specs.Prelude.{ℕ, ◌≡◌, List, [], Some, None, IfOk, IfErr, option_map};
ghost use Rattle.toml.specs.Data.{Data, get_member, as_table};
ghost use Rattle.toml.specs.View.{view, table_view, items_view};
ghost use Rattle.kb_catalog_text.specs.Reads.{Read, IsRead, IsTold, required, optional, read_or};
ghost use Rattle.kb_catalog_text.specs.Reads.{read_items, read_array};

use crate::key_fault::KeyFault;
use kb_base::Seq;
use std::alloc::Global;
use toml::{Table, Value};

/// What can be read from a value at a key.
pub trait FromValue: Sized + Drop {
    ghost reads: { List ℕ → Data → Read Self };

    /// What the value says, or the first fault of it; faults of the value as a whole name the key.
    fn read(alloc: Global, key: &str, value: &Value) -> Result<Self, KeyFault>
        ensures { IsRead result (reads key.now (view value.now)) };
}

/// What the value at a key says, which has to be there.
#[tactic(auto, using(crate::proofs::ReadSteps::at_key))]
pub fn required<T: FromValue>(alloc: Global, table: &Table, key: &str) -> Result<T, KeyFault>
    ensures { IsRead result (required T.reads key.now (table_view table.now)) }
{
    match value_at(table, key) {
        None => Err(KeyFault::missing(alloc, key)),
        Some(value) => T::read(alloc, key, value),
    }
}

/// What the value at a key says, if it is there.
#[tactic(auto, using(crate::proofs::ReadSteps::at_key))]
pub fn optional<T: FromValue>(
    alloc: Global,
    table: &Table,
    key: &str,
) -> Result<Option<T>, KeyFault>
    ensures { IsRead result (optional T.reads key.now (table_view table.now)) }
{
    match value_at(table, key) {
        None => Ok(None),
        Some(value) => Ok(Some(T::read(alloc, key, value)?)),
    }
}

/// What the value at a key says, or another value where it isn't there.
#[tactic(auto, using(crate::proofs::ReadSteps::at_key))]
pub fn read_or<T: FromValue>(
    alloc: Global,
    table: &Table,
    key: &str,
    other: T,
) -> Result<T, KeyFault>
    ensures { IsRead result (read_or other T.reads key.now (table_view table.now)) }
{
    match value_at(table, key) {
        None => Ok(other),
        Some(value) => T::read(alloc, key, value),
    }
}

/// What the elements of the array at a key say; none where it isn't there.
pub fn list_or_empty<T: FromValue>(
    alloc: Global,
    table: &Table,
    key: &str,
) -> Result<Seq<T>, KeyFault>
    ensures { IsRead result (read_or [] (read_array T.reads) key.now (table_view table.now)) }
{
    read_or(alloc, table, key, Seq::new(alloc))
}

/// The table that a value at a key is.
pub fn table_of<'v>(alloc: Global, key: &str, value: &'v Value) -> Result<&'v Table, KeyFault>
    ensures ok { IfOk result (λ table. as_table (view value.now) ≡ Some (table_view table.now)) }
    ensures fault { IfErr result (λ fault. (as_table (view value.now) ≡ None)
        × IsTold fault (KeyFault.WrongKind key.now)) }
{
    match value.as_table() {
        None => Err(KeyFault::wrong_kind(alloc, key)),
        Some(table) => Ok(table),
    }
}

impl<T: FromValue> FromValue for Seq<T> {
    ghost reads = { read_array T.reads };

    #[tactic(auto, using(crate::proofs::ReadSteps::inner))]
    fn read(alloc: Global, key: &str, value: &Value) -> Result<Seq<T>, KeyFault> {
        match value.as_array() {
            None => Err(KeyFault::wrong_kind(alloc, key)),
            Some(items) => read_items(alloc, key, items.as_slice()),
        }
    }
}

/// What the elements of an array at a key say.
fn read_items<T: FromValue>(alloc: Global, key: &str, items: &[Value]) -> Result<Seq<T>, KeyFault>
    ensures { IsRead result (read_items T.reads key.now (items_view items.now)) }
{
    let mut elements = Seq::new(alloc);
    for item in items {
        elements.push(T::read(alloc, key, item)?)?;
    }
    Ok(elements)
}

/// The value at a key.
pub fn value_at<'t>(table: &'t Table, key: &str) -> Option<&'t Value>
    ensures { option_map (λ value. view value.now) result ≡ get_member key.now (table_view table.now) }
{
    table.get(key)
}
