//! What a gateway is asked.

use kb_days::Name;
use kb_money::Currency;
use kb_payment::Kind;
use uuid::Uuid;

/// An order to move money.
#[derive(Clone, Copy, Debug, PartialEq, Eq, Drop)]
pub struct Order {
    pub account: Name,
    /// The payment key, of which the account has one attempt.
    pub key: Name,
    /// The gateway's id of the payment: that of `gateway_id`.
    pub id: Uuid,
    pub kind: Kind,
    /// In minor units.
    pub amount: u64,
    pub currency: Currency,
}

/// A payment that an order is of, by its account and payment key.
#[derive(Clone, Copy, Debug, PartialEq, Eq, Drop)]
pub struct Asked {
    pub account: Name,
    pub key: Name,
}
