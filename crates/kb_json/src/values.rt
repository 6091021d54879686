//! What a value is read as.
ghost use Rattle.std.specs.Prelude.{◌≡◌, ◌≤◌, if◌then◌else◌, IfSome};
ghost use Rattle.serde_json.specs.View.{view};
ghost use Rattle.kb_json.specs.Values.{name_in, is_key, key_in, currency_in, period_in, scope_in, day_in};
ghost use Rattle.kb_json.specs.Values.{whole_in, amount_in, invoice_in, bcd_in};

use crate::words::{period_named, scope_named};
use kb_codec::{Amount, BlockScope, InvoiceNo, MAX_AMOUNT};
use kb_days::{Bcd, Day, Name, Period, parse};
use kb_money::Currency;
use serde_json::Value;

/// The name that a value is.
#[tactic(auto, unfolding(crate::specs::Values::name_in, crate::specs::Values::text_where))]
pub fn name_in(value: &Value) -> Option<Name>
    ensures { result ≡ name_in (view value.now) }
{
    match value.as_str() {
        None => None,
        Some(text) => Name::new(text.as_bytes()),
    }
}

/// The request key of a caller that a value is.
#[tactic(auto, unfolding(crate::specs::Values::key_in, crate::specs::Values::text_where))]
pub fn key_in(value: &Value) -> Option<Name>
    ensures { result ≡ key_in (view value.now) }
{
    match value.as_str() {
        None => None,
        Some(text) => key_of(text.as_bytes()),
    }
}

/// The request key of a caller that some bytes are.
fn key_of(bytes: &[u8]) -> Option<Name>
    ensures { result ≡ if is_key bytes.now then Some bytes.now else None }
{
    if bytes.starts_with(b"bill-") {
        return None;
    }
    Name::new(bytes)
}

/// The currency that a value is.
#[tactic(auto, unfolding(crate::specs::Values::currency_in, crate::specs::Values::text_where))]
pub fn currency_in(value: &Value) -> Option<Currency>
    ensures { result ≡ currency_in (view value.now) }
{
    match value.as_str() {
        None => None,
        Some(text) => Currency::new(text.as_bytes()),
    }
}

/// The billing period whose word a value is.
#[tactic(auto, unfolding(crate::specs::Values::period_in))]
pub fn period_in(value: &Value) -> Option<Period>
    ensures { result ≡ period_in (view value.now) }
{
    match value.as_str() {
        None => None,
        Some(text) => period_named(text),
    }
}

/// What a block speaks of, whose word a value is.
#[tactic(auto, unfolding(crate::specs::Values::scope_in))]
pub fn scope_in(value: &Value) -> Option<BlockScope>
    ensures { result ≡ scope_in (view value.now) }
{
    match value.as_str() {
        None => None,
        Some(text) => scope_named(text),
    }
}

/// The day whose date a value is.
#[tactic(auto, unfolding(crate::specs::Values::day_in))]
pub fn day_in(value: &Value) -> Option<Day>
    ensures { result ≡ day_in (view value.now) }
{
    match value.as_str() {
        None => None,
        Some(text) => parse(text.as_bytes()).ok(),
    }
}

/// The amount that a value is.
#[tactic(auto, unfolding(crate::specs::Values::amount_in))]
pub fn amount_in(value: &Value) -> Option<Amount>
    ensures { result ≡ amount_in (view value.now) }
{
    match whole_in(value, MAX_AMOUNT) {
        None => None,
        Some(units) => Amount::new(units),
    }
}

/// The number of an invoice that a value is.
#[tactic(auto, unfolding(crate::specs::Values::invoice_in))]
pub fn invoice_in(value: &Value) -> Option<InvoiceNo>
    ensures { result ≡ invoice_in (view value.now) }
{
    match whole_in(value, 4_294_967_295) {
        None => None,
        Some(number) => InvoiceNo::new(number as u32),
    }
}

/// The day of the month that a value is.
#[tactic(auto, unfolding(crate::specs::Values::bcd_in))]
pub fn bcd_in(value: &Value) -> Option<Bcd>
    ensures { result ≡ bcd_in (view value.now) }
{
    match whole_in(value, 31) {
        None => None,
        Some(number) => Bcd::new(number as u32),
    }
}

/// The whole number from 1 to another that a value is.
#[tactic(auto, unfolding(crate::specs::Values::whole_in))]
pub fn whole_in(value: &Value, most: u64) -> Option<u64>
    ensures value { result ≡ whole_in most (view value.now) }
    ensures bounds { IfSome result (λ whole. (1 ≤ whole) × (whole ≤ most)) }
{
    match value.as_u64() {
        None => None,
        Some(whole) => {
            if 1 <= whole && whole <= most {
                Some(whole)
            } else {
                None
            }
        }
    }
}
