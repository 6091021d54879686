//! Members, read one after the other from the front of some bytes.
ghost use Rattle.std.specs.Prelude.{◌≡◌, length, slice_get, nat_eq, option_copied};
ghost use Rattle.std.specs.Int.{w32, w64, from_be_bytes};
ghost use Rattle.kb_codec.specs.Reading.{Reads, byte_in, bytes_in, four_in, eight_in, name_in, currency_in};
ghost use Rattle.kb_codec.specs.Reading.{bcd_in, day_in, invoice_in, amount_in, truth_in, truths};
ghost use Rattle.kb_codec.specs.Reading.{optional_in, period_in, scope_in, status_in, flags_in, text_in};
ghost use Rattle.kb_codec.specs.Reading.{all_periods, all_scopes, all_statuses, flags_of};

use crate::amount::Amount;
use crate::invoice_no::InvoiceNo;
use crate::scope::BlockScope;
use kb_blocking::Flags;
use kb_days::{Bcd, Day, Name, Period};
use kb_money::Currency;
use kb_payment::Status;
use std::marker::Model;

/// What is left of some bytes. A read takes its value from the front; after a `None` nothing is said of what
/// is left.
#[derive(Drop)]
pub struct Rest<'a> {
    bytes: &'a [u8],
}

impl<'a> Model for Rest<'a> {
    ghost use Rattle.std.specs.Prelude.{List, ℕ};

    ghost Value = { List ℕ };

    ghost view = { λ rest. rest.bytes.now };
}

impl<'a> Rest<'a> {
    /// All of some bytes.
    pub fn new(bytes: &'a [u8]) -> Rest<'a>
        ensures { result ≡ bytes.now }
    {
        Rest { bytes }
    }

    /// Whether nothing is left.
    pub fn is_empty(&self) -> bool
        ensures { result ≡ nat_eq (length self.now) 0 }
    {
        self.bytes.is_empty()
    }

    /// The next byte.
    pub fn byte(&mut self) -> Option<u8>
        ensures { Reads byte_in self.old result self.new }
    {
        match self.bytes {
            [] => None,
            [byte, rest @ ..] => {
                self.bytes = rest;
                Some(*byte)
            }
        }
    }

    /// So many bytes.
    fn bytes(&mut self, count: usize) -> Option<&'a [u8]>
        ensures { Reads (bytes_in count) self.old (option_copied result) self.new }
    {
        if self.bytes.len() < count {
            return None;
        }
        let (front, rest) = self.bytes.split_at(count);
        self.bytes = rest;
        Some(front)
    }

    #[tactic(auto, unfolding(crate::specs::Reading::four_in))]
    fn four(&mut self) -> Option<u32>
        ensures { Reads four_in self.old result self.new }
    {
        Some(four_of(self.bytes(4)?))
    }

    #[tactic(auto, unfolding(crate::specs::Reading::eight_in))]
    fn eight(&mut self) -> Option<u64>
        ensures { Reads eight_in self.old result self.new }
    {
        Some(eight_of(self.bytes(8)?))
    }

    /// A name; none if what stands there is none.
    #[tactic(auto, unfolding(crate::specs::Reading::name_in))]
    pub fn name(&mut self) -> Option<Name>
        ensures { Reads name_in self.old result self.new }
    {
        let count = self.byte()?;
        Name::new(self.bytes(usize::from(count))?)
    }

    /// A currency, from three letters.
    #[tactic(auto, unfolding(crate::specs::Reading::currency_in))]
    pub fn currency(&mut self) -> Option<Currency>
        ensures { Reads currency_in self.old result self.new }
    {
        Currency::new(self.bytes(3)?)
    }

    /// A day of the month, from one byte: 1 to 31.
    #[tactic(auto, unfolding(crate::specs::Reading::bcd_in))]
    pub fn bcd(&mut self) -> Option<Bcd>
        ensures { Reads bcd_in self.old result self.new }
    {
        Bcd::new(u32::from(self.byte()?))
    }

    /// A day, from its number in four bytes.
    #[tactic(auto, unfolding(crate::specs::Reading::day_in))]
    pub fn day(&mut self) -> Option<Day>
        ensures { Reads day_in self.old result self.new }
    {
        Day::new(self.four()?)
    }

    /// The number of an invoice, from four bytes: not 0.
    #[tactic(auto, unfolding(crate::specs::Reading::invoice_in))]
    pub fn invoice(&mut self) -> Option<InvoiceNo>
        ensures { Reads invoice_in self.old result self.new }
    {
        InvoiceNo::new(self.four()?)
    }

    /// An amount, from its minor units in eight bytes.
    #[tactic(auto, unfolding(crate::specs::Reading::amount_in))]
    pub fn amount(&mut self) -> Option<Amount>
        ensures { Reads amount_in self.old result self.new }
    {
        Amount::new(self.eight()?)
    }

    /// Whether something is on: 0 or 1.
    #[tactic(auto, unfolding(crate::specs::Reading::truth_in))]
    pub fn truth(&mut self) -> Option<bool>
        ensures { Reads truth_in self.old result self.new }
    {
        truth_of(self.byte()?)
    }

    /// A day that may be missing.
    #[tactic(auto, unfolding(crate::specs::Reading::optional_in))]
    pub fn optional_day(&mut self) -> Option<Option<Day>>
        ensures { Reads (optional_in day_in) self.old result self.new }
    {
        if self.truth()? {
            Some(Some(self.day()?))
        } else {
            Some(None)
        }
    }

    /// An amount that may be missing.
    #[tactic(auto, unfolding(crate::specs::Reading::optional_in))]
    pub fn optional_amount(&mut self) -> Option<Option<Amount>>
        ensures { Reads (optional_in amount_in) self.old result self.new }
    {
        if self.truth()? {
            Some(Some(self.amount()?))
        } else {
            Some(None)
        }
    }

    /// A billing period, from its place among them.
    #[tactic(auto, unfolding(crate::specs::Reading::period_in))]
    pub fn period(&mut self) -> Option<Period>
        ensures { Reads period_in self.old result self.new }
    {
        period_of(self.byte()?)
    }

    /// What a blocking state speaks of, from its place among them.
    #[tactic(auto, unfolding(crate::specs::Reading::scope_in))]
    pub fn scope(&mut self) -> Option<BlockScope>
        ensures { Reads scope_in self.old result self.new }
    {
        scope_of(self.byte()?)
    }

    /// How an attempt stands, from its place among them.
    #[tactic(auto, unfolding(crate::specs::Reading::status_in))]
    pub fn status(&mut self) -> Option<Status>
        ensures { Reads status_in self.old result self.new }
    {
        status_of(self.byte()?)
    }

    /// The flags of a blocking state, from one byte below 8.
    #[tactic(auto, unfolding(crate::specs::Reading::flags_in))]
    pub fn flags(&mut self) -> Option<Flags>
        ensures { Reads flags_in self.old result self.new }
    {
        flags_of(self.byte()?)
    }

    /// The bytes of a text.
    #[tactic(auto, unfolding(crate::specs::Reading::text_in))]
    pub(crate) fn text(&mut self) -> Option<&'a [u8]>
        ensures { Reads text_in self.old (option_copied result) self.new }
    {
        let count = self.four()?;
        self.bytes(count as usize)
    }
}

/// A number in four bytes, the highest of them first.
fn four_of(bytes: &[u8]) -> u32
    requires { length bytes.now ≡ 4 }
    ensures { result ≡ from_be_bytes w32 bytes.now }
{
    u32::from_be_bytes([bytes[0], bytes[1], bytes[2], bytes[3]])
}

/// A number in eight bytes, the highest of them first.
fn eight_of(bytes: &[u8]) -> u64
    requires { length bytes.now ≡ 8 }
    ensures { result ≡ from_be_bytes w64 bytes.now }
{
    u64::from_be_bytes([
        bytes[0], bytes[1], bytes[2], bytes[3], bytes[4], bytes[5], bytes[6], bytes[7],
    ])
}

/// Whether something is on, by its byte.
fn truth_of(byte: u8) -> Option<bool>
    ensures { result ≡ slice_get truths byte }
{
    match byte {
        0 => Some(false),
        1 => Some(true),
        _ => None,
    }
}

/// The period of a byte.
fn period_of(byte: u8) -> Option<Period>
    ensures { result ≡ slice_get all_periods byte }
{
    match byte {
        0 => Some(Period::Daily),
        1 => Some(Period::Weekly),
        2 => Some(Period::Biweekly),
        3 => Some(Period::ThirtyDays),
        4 => Some(Period::Monthly),
        5 => Some(Period::Quarterly),
        6 => Some(Period::Biannual),
        7 => Some(Period::Annual),
        8 => Some(Period::Biennial),
        9 => Some(Period::NoBillingPeriod),
        _ => None,
    }
}

/// What a blocking state speaks of, by its byte.
fn scope_of(byte: u8) -> Option<BlockScope>
    ensures { result ≡ slice_get all_scopes byte }
{
    match byte {
        0 => Some(BlockScope::Account),
        1 => Some(BlockScope::Bundle),
        2 => Some(BlockScope::Subscription),
        _ => None,
    }
}

/// How an attempt stands, by its byte.
fn status_of(byte: u8) -> Option<Status>
    ensures { result ≡ slice_get all_statuses byte }
{
    match byte {
        0 => Some(Status::Unknown),
        1 => Some(Status::Pending),
        2 => Some(Status::Success),
        3 => Some(Status::PaymentFailure),
        4 => Some(Status::PluginFailure),
        _ => None,
    }
}

/// The flags of a byte.
fn flags_of(byte: u8) -> Option<Flags>
    ensures { result ≡ flags_of byte }
{
    if byte < 8 {
        Some(Flags {
            change: byte % 2 == 1,
            entitlement: byte / 2 % 2 == 1,
            billing: byte / 4 == 1,
        })
    } else {
        None
    }
}
