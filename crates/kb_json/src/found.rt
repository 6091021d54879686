//! The values at the members of an object in which nothing is wrong.
ghost use Rattle.std.specs.Prelude.{◌≡◌, codes};
ghost use Rattle.serde_json.specs.View.{members_view};
ghost use Rattle.kb_json.specs.Asked.{name_at, truth_at, day_at, amount_if, currency_at, period_at};
ghost use Rattle.kb_json.specs.Asked.{scope_at, bcd_at, amount_at, invoice_at, text_at, flags_at};

use crate::member::Member;
use crate::object::{Object, value_at};
use crate::values::{
    amount_in, bcd_in, currency_in, day_in, invoice_in, name_in, period_in, scope_in,
};
use kb_blocking::Flags;
use kb_codec::{Amount, BlockScope, InvoiceNo};
use kb_days::{Bcd, Day, Name, Period};
use kb_money::Currency;

/// The name at a member: `DEFAULT` where it is missing, as only a price list may be.
pub(crate) fn name_at(object: &Object, member: Member) -> Name
    ensures { result ≡ name_at (members_view object.now.entries) member }
{
    match value_at(object, member) {
        None => default_name(),
        Some(value) => match name_in(value) {
            None => default_name(),
            Some(name) => name,
        },
    }
}

/// The name of the price list that governs where none is named.
fn default_name() -> Name
    ensures { result ≡ codes "DEFAULT" }
{
    Name::new(b"DEFAULT").unwrap()
}

/// The truth at a member: false where it is missing.
pub(crate) fn truth_at(object: &Object, member: Member) -> bool
    ensures { result ≡ truth_at (members_view object.now.entries) member }
{
    match value_at(object, member) {
        None => false,
        Some(value) => value.as_bool().unwrap_or(false),
    }
}

/// The day at a member that may be missing.
pub(crate) fn day_at(object: &Object, member: Member) -> Option<Day>
    ensures { result ≡ day_at (members_view object.now.entries) member }
{
    match value_at(object, member) {
        None => None,
        Some(value) => day_in(value),
    }
}

/// The amount at a member that may be missing.
pub(crate) fn amount_if(object: &Object, member: Member) -> Option<Amount>
    ensures { result ≡ amount_if (members_view object.now.entries) member }
{
    match value_at(object, member) {
        None => None,
        Some(value) => amount_in(value),
    }
}

/// The currency at a member that is there.
pub(crate) fn currency_at(object: &Object, member: Member) -> Currency
    ensures { result ≡ currency_at (members_view object.now.entries) member }
{
    match value_at(object, member) {
        None => no_currency(),
        Some(value) => match currency_in(value) {
            None => no_currency(),
            Some(currency) => currency,
        },
    }
}

/// The code for no currency.
fn no_currency() -> Currency
    ensures { result ≡ codes "XXX" }
{
    Currency::new(b"XXX").unwrap()
}

/// The billing period at a member that is there.
pub(crate) fn period_at(object: &Object, member: Member) -> Period
    ensures { result ≡ period_at (members_view object.now.entries) member }
{
    match value_at(object, member) {
        None => Period::NoBillingPeriod,
        Some(value) => period_in(value).unwrap_or(Period::NoBillingPeriod),
    }
}

/// What a block speaks of, at a member that is there.
pub(crate) fn scope_at(object: &Object, member: Member) -> BlockScope
    ensures { result ≡ scope_at (members_view object.now.entries) member }
{
    match value_at(object, member) {
        None => BlockScope::Account,
        Some(value) => scope_in(value).unwrap_or(BlockScope::Account),
    }
}

/// The day of the month at a member that is there.
pub(crate) fn bcd_at(object: &Object, member: Member) -> Bcd
    ensures { result ≡ bcd_at (members_view object.now.entries) member }
{
    match value_at(object, member) {
        None => Bcd::new(1).unwrap(),
        Some(value) => match bcd_in(value) {
            None => Bcd::new(1).unwrap(),
            Some(bcd) => bcd,
        },
    }
}

/// The amount at a member that is there.
pub(crate) fn amount_at(object: &Object, member: Member) -> Amount
    ensures { result ≡ amount_at (members_view object.now.entries) member }
{
    match amount_if(object, member) {
        None => Amount::new(1).unwrap(),
        Some(amount) => amount,
    }
}

/// The number of an invoice at a member that is there.
pub(crate) fn invoice_at(object: &Object, member: Member) -> InvoiceNo
    ensures { result ≡ invoice_at (members_view object.now.entries) member }
{
    match value_at(object, member) {
        None => InvoiceNo::new(1).unwrap(),
        Some(value) => match invoice_in(value) {
            None => InvoiceNo::new(1).unwrap(),
            Some(invoice) => invoice,
        },
    }
}

/// The text at a member that is there.
pub(crate) fn text_at(object: &Object, member: Member) -> &str
    ensures { result.now ≡ text_at (members_view object.now.entries) member }
{
    match value_at(object, member) {
        None => "",
        Some(value) => value.as_str().unwrap_or(""),
    }
}

/// What a blocking state turns on.
pub(crate) fn flags_at(object: &Object) -> Flags
    ensures { result ≡ flags_at (members_view object.now.entries) }
{
    Flags {
        change: truth_at(object, Member::Change),
        entitlement: truth_at(object, Member::Entitlement),
        billing: truth_at(object, Member::Billing),
    }
}
