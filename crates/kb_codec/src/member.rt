//! Members, written at the end of some bytes.
ghost use Rattle.std.specs.Prelude.{◌≡◌, ◌<◌, ◌≤◌, ◌^◌, ◌++◌, length, OnOk};
ghost use Rattle.kb_codec.specs.Members.{four_bytes, eight_bytes, name_bytes, currency_bytes, bcd_bytes};
ghost use Rattle.kb_codec.specs.Members.{day_bytes, invoice_bytes, amount_bytes, optional_bytes, truth_bytes};
ghost use Rattle.kb_codec.specs.Members.{truth_byte, period_bytes, period_byte, scope_bytes, scope_byte};
ghost use Rattle.kb_codec.specs.Members.{status_bytes, status_byte, flags_bytes, flags_byte, text_bytes};

use crate::amount::Amount;
use crate::invoice_no::InvoiceNo;
use crate::scope::BlockScope;
use kb_base::NoMemory;
use kb_blocking::Flags;
use kb_days::{Bcd, Day, Name, Period};
use kb_money::Currency;
use kb_payment::Status;

#[tactic(auto, unfolding(crate::specs::Members::four_bytes))]
fn put_four(out: &mut Vec<u8>, number: u32) -> Result<(), NoMemory>
    ensures { OnOk result (out.new.items ≡ out.old.items ++ four_bytes number) }
{
    Ok(out.extend_from_slice(&number.to_be_bytes())?)
}

#[tactic(auto, unfolding(crate::specs::Members::eight_bytes))]
fn put_eight(out: &mut Vec<u8>, number: u64) -> Result<(), NoMemory>
    ensures { OnOk result (out.new.items ≡ out.old.items ++ eight_bytes number) }
{
    Ok(out.extend_from_slice(&number.to_be_bytes())?)
}

/// A name: a byte with its length, and its bytes. Here and below, `Err` comes only if memory runs out.
#[tactic(auto, unfolding(crate::specs::Members::name_bytes))]
pub fn put_name(out: &mut Vec<u8>, name: &Name) -> Result<(), NoMemory>
    ensures { OnOk result (out.new.items ≡ out.old.items ++ name_bytes name.now) }
{
    let bytes = name.as_bytes();
    out.push(bytes.len() as u8)?;
    Ok(out.extend_from_slice(bytes)?)
}

/// A currency: its three letters.
#[tactic(auto, unfolding(crate::specs::Members::currency_bytes))]
pub fn put_currency(out: &mut Vec<u8>, currency: &Currency) -> Result<(), NoMemory>
    ensures { OnOk result (out.new.items ≡ out.old.items ++ currency_bytes currency.now) }
{
    Ok(out.extend_from_slice(currency.as_bytes())?)
}

/// A day of the month: its number, in one byte.
#[tactic(auto, unfolding(crate::specs::Members::bcd_bytes))]
pub fn put_bcd(out: &mut Vec<u8>, bcd: Bcd) -> Result<(), NoMemory>
    ensures { OnOk result (out.new.items ≡ out.old.items ++ bcd_bytes bcd) }
{
    Ok(out.push(bcd.number() as u8)?)
}

/// A day: its number, in four bytes.
#[tactic(auto, unfolding(crate::specs::Members::day_bytes))]
pub fn put_day(out: &mut Vec<u8>, day: Day) -> Result<(), NoMemory>
    ensures { OnOk result (out.new.items ≡ out.old.items ++ day_bytes day) }
{
    put_four(out, day.number())
}

/// The number of an invoice, in four bytes.
#[tactic(auto, unfolding(crate::specs::Members::invoice_bytes))]
pub fn put_invoice(out: &mut Vec<u8>, invoice: InvoiceNo) -> Result<(), NoMemory>
    ensures { OnOk result (out.new.items ≡ out.old.items ++ invoice_bytes invoice) }
{
    put_four(out, invoice.number())
}

/// An amount: its minor units, in eight bytes.
#[tactic(auto, unfolding(crate::specs::Members::amount_bytes))]
pub fn put_amount(out: &mut Vec<u8>, amount: Amount) -> Result<(), NoMemory>
    ensures { OnOk result (out.new.items ≡ out.old.items ++ amount_bytes amount) }
{
    put_eight(out, amount.units())
}

/// A day that may be missing: 0, or 1 and the day.
#[tactic(auto, unfolding(crate::specs::Members::optional_bytes))]
pub fn put_optional_day(out: &mut Vec<u8>, day: &Option<Day>) -> Result<(), NoMemory>
    ensures { OnOk result (out.new.items ≡ out.old.items ++ optional_bytes day_bytes day.now) }
{
    match day {
        None => Ok(out.push(0)?),
        Some(day) => {
            out.push(1)?;
            put_day(out, *day)
        }
    }
}

/// An amount that may be missing: 0, or 1 and the amount.
#[tactic(auto, unfolding(crate::specs::Members::optional_bytes))]
pub fn put_optional_amount(out: &mut Vec<u8>, amount: &Option<Amount>) -> Result<(), NoMemory>
    ensures { OnOk result (out.new.items ≡ out.old.items ++ optional_bytes amount_bytes amount.now) }
{
    match amount {
        None => Ok(out.push(0)?),
        Some(amount) => {
            out.push(1)?;
            put_amount(out, *amount)
        }
    }
}

/// Whether something is on: 0 or 1.
#[tactic(auto, unfolding(crate::specs::Members::truth_bytes))]
pub fn put_truth(out: &mut Vec<u8>, truth: bool) -> Result<(), NoMemory>
    ensures { OnOk result (out.new.items ≡ out.old.items ++ truth_bytes truth) }
{
    Ok(out.push(truth_byte(truth))?)
}

/// A billing period: its place among them, from 0.
#[tactic(auto, unfolding(crate::specs::Members::period_bytes))]
pub fn put_period(out: &mut Vec<u8>, period: Period) -> Result<(), NoMemory>
    ensures { OnOk result (out.new.items ≡ out.old.items ++ period_bytes period) }
{
    Ok(out.push(period_byte(period))?)
}

/// What a blocking state speaks of: its place among them, from 0.
#[tactic(auto, unfolding(crate::specs::Members::scope_bytes))]
pub fn put_scope(out: &mut Vec<u8>, scope: BlockScope) -> Result<(), NoMemory>
    ensures { OnOk result (out.new.items ≡ out.old.items ++ scope_bytes scope) }
{
    Ok(out.push(scope_byte(scope))?)
}

/// How an attempt stands: its place among them, from 0.
#[tactic(auto, unfolding(crate::specs::Members::status_bytes))]
pub fn put_status(out: &mut Vec<u8>, status: Status) -> Result<(), NoMemory>
    ensures { OnOk result (out.new.items ≡ out.old.items ++ status_bytes status) }
{
    Ok(out.push(status_byte(status))?)
}

/// The flags of a blocking state, in one byte: 1 for changes, 2 for entitlement and 4 for billing.
#[tactic(auto, unfolding(crate::specs::Members::flags_bytes))]
pub fn put_flags(out: &mut Vec<u8>, flags: &Flags) -> Result<(), NoMemory>
    ensures { OnOk result (out.new.items ≡ out.old.items ++ flags_bytes flags.now) }
{
    Ok(out.push(flags_byte(flags))?)
}

/// A text of fewer than 2^32 bytes: their number and they.
#[tactic(auto, unfolding(crate::specs::Members::text_bytes))]
pub fn put_text(out: &mut Vec<u8>, text: &[u8]) -> Result<(), NoMemory>
    requires { length text.now < 2 ^ 32 }
    ensures { OnOk result (out.new.items ≡ out.old.items ++ text_bytes text.now) }
{
    put_four(out, text.len() as u32)?;
    Ok(out.extend_from_slice(text)?)
}

/// 0 for off and 1 for on.
fn truth_byte(truth: bool) -> u8
    ensures value { result ≡ truth_byte truth }
    ensures most { result ≤ 1 }
{
    if truth { 1 } else { 0 }
}

/// The byte of a period: its place among them, from 0.
fn period_byte(period: Period) -> u8
    ensures { result ≡ period_byte period }
{
    match period {
        Period::Daily => 0,
        Period::Weekly => 1,
        Period::Biweekly => 2,
        Period::ThirtyDays => 3,
        Period::Monthly => 4,
        Period::Quarterly => 5,
        Period::Biannual => 6,
        Period::Annual => 7,
        Period::Biennial => 8,
        Period::NoBillingPeriod => 9,
    }
}

/// The byte of what a blocking state speaks of.
fn scope_byte(scope: BlockScope) -> u8
    ensures { result ≡ scope_byte scope }
{
    match scope {
        BlockScope::Account => 0,
        BlockScope::Bundle => 1,
        BlockScope::Subscription => 2,
    }
}

/// The byte of how an attempt stands.
fn status_byte(status: Status) -> u8
    ensures { result ≡ status_byte status }
{
    match status {
        Status::Unknown => 0,
        Status::Pending => 1,
        Status::Success => 2,
        Status::PaymentFailure => 3,
        Status::PluginFailure => 4,
    }
}

/// The flags as one byte: 1 for changes, 2 for entitlement and 4 for billing.
fn flags_byte(flags: &Flags) -> u8
    ensures { result ≡ flags_byte flags.now }
{
    truth_byte(flags.change) + 2 * truth_byte(flags.entitlement) + 4 * truth_byte(flags.billing)
}
