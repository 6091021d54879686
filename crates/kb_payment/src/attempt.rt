//! One attempt to move money.
ghost use Rattle.std.specs.Prelude.{◌≡◌, ◌||◌, not};
ghost use Rattle.kb_payment.specs.Attempts.{is_open, is_success, is_paid_purchase};

use kb_days::{Day, Name};

/// Which way money is to go.
#[derive(Clone, Copy, Debug, PartialEq, Eq)]
pub enum Kind {
    /// The customer pays on an invoice.
    Purchase,
    /// Some of a purchase is given back.
    Refund,
    /// Some of a purchase was taken back by the customer's bank. It has happened already.
    Chargeback,
}

/// How an attempt stands.
///
/// | Status | Means | May be settled to |
/// |---|---|---|
/// | `Unknown` | noted, and perhaps asked of the gateway | any status |
/// | `Pending` | the gateway hasn't decided | any status |
/// | `Success` | the money has moved | none |
/// | `PaymentFailure` | the gateway refused it | none |
/// | `PluginFailure` | it was never tried | none |
///
/// The first two are open, the others final.
#[derive(Clone, Copy, Debug, PartialEq, Eq)]
pub enum Status {
    Unknown,
    Pending,
    Success,
    PaymentFailure,
    PluginFailure,
}

/// One attempt to move money. Amounts are in minor units.
#[derive(Clone, Copy, Debug, PartialEq, Eq)]
pub struct Attempt {
    pub kind: Kind,
    /// The number of the invoice on which it pays, or from which it takes back.
    pub invoice: u32,
    /// The key of the purchase of which it gives back; none for a purchase.
    pub of: Option<Name>,
    pub amount: u64,
    /// The day on which it was accepted.
    pub day: Day,
    pub status: Status,
    /// It was made by the automatic payment of its account.
    pub auto: bool,
}

impl Status {
    /// Whether the attempt may yet be settled.
    pub fn is_open(self) -> bool
        ensures { result ≡ is_open self }
    {
        matches!(self, Status::Unknown | Status::Pending)
    }

    /// Whether the money has moved.
    pub fn is_success(self) -> bool
        ensures { result ≡ is_success self }
    {
        matches!(self, Status::Success)
    }

    /// Whether it never will.
    pub fn has_failed(self) -> bool
        ensures { not result ≡ (is_success self || is_open self) }
    {
        matches!(self, Status::PaymentFailure | Status::PluginFailure)
    }
}

impl Attempt {
    /// Whether a refund or a chargeback may name it: it is a successful purchase.
    pub fn is_paid_purchase(&self) -> bool
        ensures { result ≡ is_paid_purchase self.now }
    {
        matches!(self.kind, Kind::Purchase) && self.status.is_success()
    }
}
