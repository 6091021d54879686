//! The kinds of values that a text has at its keys.
ghost use Rattle.std.specs.Prelude.{◌≡◌, ◌≤◌, ◌&&◌, nat_le, if◌then◌else◌, option_and_then, Some, None};
ghost use Rattle.std.specs.Prelude.{IfSome};
ghost use Rattle.toml.specs.Data.{as_bool};
ghost use Rattle.toml.specs.View.{view};
ghost use Rattle.kb_catalog_text.specs.Reads.{IsRead, read_as, read_found};
ghost use Rattle.kb_catalog_text.specs.Kinds.{name_in, currency_in, day_in, number_in, count_in, amount_in};
ghost use Rattle.kb_catalog_text.specs.Kinds.{threshold_in, format_in, natural};

use crate::format::Format;
use crate::from_value::FromValue;
use crate::key_fault::KeyFault;
use kb_days::{Count, Day, Name, parse};
use kb_money::{Currency, Minor};
use kb_overdue::{MAX_THRESHOLD, Threshold};
use std::alloc::Global;
use toml::Value;

/// What was found in a value, or the fault that it is of another kind.
pub(crate) fn found<T: Drop>(alloc: Global, key: &str, found: Option<T>) -> Result<T, KeyFault>
    ensures { IsRead result (read_found key.now found) }
{
    match found {
        None => Err(KeyFault::wrong_kind(alloc, key)),
        Some(found) => Ok(found),
    }
}

impl FromValue for Name {
    ghost reads = { read_as name_in };

    fn read(alloc: Global, key: &str, value: &Value) -> Result<Name, KeyFault> {
        found(alloc, key, name_in(value))
    }
}

/// The name that a value is.
#[tactic(auto, unfolding(crate::specs::Kinds::name_in, crate::specs::Kinds::text_where))]
fn name_in(value: &Value) -> Option<Name>
    ensures { result ≡ name_in (view value.now) }
{
    match value.as_str() {
        None => None,
        Some(text) => Name::new(text.as_bytes()),
    }
}

impl FromValue for Currency {
    ghost reads = { read_as currency_in };

    fn read(alloc: Global, key: &str, value: &Value) -> Result<Currency, KeyFault> {
        found(alloc, key, currency_in(value))
    }
}

/// The currency that a value is.
#[tactic(auto, unfolding(crate::specs::Kinds::currency_in, crate::specs::Kinds::text_where))]
fn currency_in(value: &Value) -> Option<Currency>
    ensures { result ≡ currency_in (view value.now) }
{
    match value.as_str() {
        None => None,
        Some(text) => Currency::new(text.as_bytes()),
    }
}

impl FromValue for Day {
    ghost reads = { read_as day_in };

    fn read(alloc: Global, key: &str, value: &Value) -> Result<Day, KeyFault> {
        found(alloc, key, day_in(value))
    }
}

/// The day that a value is.
#[tactic(auto, unfolding(crate::specs::Kinds::day_in))]
fn day_in(value: &Value) -> Option<Day>
    ensures { result ≡ day_in (view value.now) }
{
    match value.as_str() {
        None => None,
        Some(text) => parse(text.as_bytes()).ok(),
    }
}

impl FromValue for bool {
    ghost reads = { read_as as_bool };

    fn read(alloc: Global, key: &str, value: &Value) -> Result<bool, KeyFault> {
        found(alloc, key, value.as_bool())
    }
}

impl FromValue for Count {
    ghost reads = { read_as count_in };

    fn read(alloc: Global, key: &str, value: &Value) -> Result<Count, KeyFault> {
        found(alloc, key, count_in(value))
    }
}

/// The count of units that a value is.
#[tactic(auto, unfolding(crate::specs::Kinds::count_in))]
fn count_in(value: &Value) -> Option<Count>
    ensures { result ≡ count_in (view value.now) }
{
    match number_in(value, 1, 1200) {
        None => None,
        Some(number) => Count::new(number as u32),
    }
}

impl FromValue for Minor {
    ghost reads = { read_as amount_in };

    fn read(alloc: Global, key: &str, value: &Value) -> Result<Minor, KeyFault> {
        found(alloc, key, amount_in(value))
    }
}

/// The price in minor units that a value is.
#[tactic(auto, unfolding(crate::specs::Kinds::amount_in))]
fn amount_in(value: &Value) -> Option<Minor>
    ensures { result ≡ amount_in (view value.now) }
{
    match number_in(value, 0, 1_000_000_000) {
        None => None,
        Some(number) => Minor::new(number),
    }
}

impl FromValue for Threshold {
    ghost reads = { read_as threshold_in };

    fn read(alloc: Global, key: &str, value: &Value) -> Result<Threshold, KeyFault> {
        found(alloc, key, threshold_in(value))
    }
}

/// The threshold of an overdue state that a value is.
#[tactic(auto, unfolding(crate::specs::Kinds::threshold_in))]
fn threshold_in(value: &Value) -> Option<Threshold>
    ensures { result ≡ threshold_in (view value.now) }
{
    match number_in(value, 1, MAX_THRESHOLD) {
        None => None,
        Some(number) => Threshold::new(number),
    }
}

impl FromValue for Format {
    ghost reads = { read_as format_in };

    fn read(alloc: Global, key: &str, value: &Value) -> Result<Format, KeyFault> {
        found(alloc, key, format_in(value))
    }
}

/// The format whose number a value is.
#[tactic(auto, unfolding(crate::specs::Kinds::format_in))]
fn format_in(value: &Value) -> Option<Format>
    ensures { result ≡ format_in (view value.now) }
{
    match value.as_integer() {
        Some(1) => Some(Format::One),
        _ => None,
    }
}

/// The number that a value is, from one to another.
#[tactic(auto, unfolding(crate::specs::Kinds::number_in))]
fn number_in(value: &Value, low: u64, high: u64) -> Option<u64>
    ensures value { result ≡ number_in low high (view value.now) }
    ensures bounds { IfSome result (λ number. (low ≤ number) × (number ≤ high)) }
{
    match value.as_integer() {
        None => None,
        Some(integer) => number_from(integer, low, high),
    }
}

/// The number that an integer is, from one to another.
fn number_from(integer: i64, low: u64, high: u64) -> Option<u64>
    ensures value { result ≡ option_and_then (λ number. if nat_le low number && nat_le number high
        then Some number else None) (natural integer) }
    ensures bounds { IfSome result (λ number. (low ≤ number) × (number ≤ high)) }
{
    if integer < 0 {
        return None;
    }
    let number = integer as u64;
    if low <= number && number <= high {
        Some(number)
    } else {
        None
    }
}
