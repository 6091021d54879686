//! A phase of a plan.
ghost use Rattle.std.specs.Prelude.{◌≡◌, Ok};
ghost use Rattle.toml.specs.View.{table_view, view};
ghost use Rattle.kb_catalog_text.specs.Reads.{IsRead, keys_read, is_among};
ghost use Rattle.kb_catalog_text.specs.CatalogEntries.{phase_in, phase_keys, is_unlimited_in, is_word};
ghost use Rattle.kb_catalog_text.specs.CatalogEntries.{span_in, length_in, is_counted, span_of};

use crate::entries::Entry;
use crate::from_value::{read_or, required, value_at};
use crate::key_fault::KeyFault;
use crate::keys::{Among, known_keys};
use crate::prices::prices_at;
use crate::span_unit::SpanUnit;
use kb_catalog::Phase;
use kb_days::{Count, Period, Span};
use std::alloc::Global;
use toml::{Table, Value};

impl Entry for Phase {
    ghost says = { phase_in };

    fn entry(alloc: Global, table: &Table) -> Result<Phase, KeyFault> {
        read_phase(alloc, table)
    }
}

/// The phase that a table says.
fn read_phase(alloc: Global, table: &Table) -> Result<Phase, KeyFault>
    ensures { IsRead result (phase_in (table_view table.now)) }
{
    known_phase_keys(alloc, table)?;
    let kind = required(alloc, table, "type")?;
    let span = read_span(alloc, table)?;
    let fixed = prices_at(alloc, table, "fixed")?;
    let period = read_or(alloc, table, "period", Period::NoBillingPeriod)?;
    let recurring = prices_at(alloc, table, "recurring")?;
    Ok(Phase {
        kind,
        span,
        fixed,
        period,
        recurring,
    })
}

/// Refuses the first key that a phase may not have: an unlimited one has no length.
fn known_phase_keys(alloc: Global, table: &Table) -> Result<(), KeyFault>
    ensures { IsRead result (keys_read (is_among (phase_keys (is_unlimited_in (table_view table.now))))
        (table_view table.now)) }
{
    if is_unlimited(table) {
        let keys = Among {
            keys: &["type", "unit", "fixed", "period", "recurring"],
        };
        known_keys(alloc, table, &keys)
    } else {
        let keys = Among {
            keys: &["type", "unit", "length", "fixed", "period", "recurring"],
        };
        known_keys(alloc, table, &keys)
    }
}

/// Whether the unit of a phase is UNLIMITED.
#[tactic(auto, unfolding(crate::specs::CatalogEntries::is_unlimited_in))]
fn is_unlimited(table: &Table) -> bool
    ensures { result ≡ is_unlimited_in (table_view table.now) }
{
    match value_at(table, "unit") {
        None => false,
        Some(value) => is_word(value, "UNLIMITED"),
    }
}

/// Whether a value is a word.
fn is_word(value: &Value, word: &str) -> bool
    ensures { result ≡ is_word word.now (view value.now) }
{
    match value.as_str() {
        None => false,
        Some(text) => text == word,
    }
}

/// How long the phase of a table is.
fn read_span(alloc: Global, table: &Table) -> Result<Span, KeyFault>
    ensures { IsRead result (span_in (table_view table.now)) }
{
    let unit = required(alloc, table, "unit")?;
    read_length(alloc, table, unit)
}

/// How long the phase of a table is, in its unit.
fn read_length(alloc: Global, table: &Table, unit: SpanUnit) -> Result<Span, KeyFault>
    ensures { IsRead result (length_in unit (table_view table.now)) }
{
    if !is_counted(unit) {
        return Ok(Span::Unlimited);
    }
    let count = required(alloc, table, "length")?;
    Ok(span_of(unit, count))
}

/// Whether a unit is counted.
fn is_counted(unit: SpanUnit) -> bool
    ensures { result ≡ is_counted unit }
{
    !matches!(unit, SpanUnit::Unlimited)
}

/// So many units.
fn span_of(unit: SpanUnit, count: Count) -> Span
    ensures { result ≡ span_of unit count }
{
    match unit {
        SpanUnit::Days => Span::Days(count),
        SpanUnit::Weeks => Span::Weeks(count),
        SpanUnit::Months => Span::Months(count),
        SpanUnit::Years => Span::Years(count),
        SpanUnit::Unlimited => Span::Unlimited,
    }
}
