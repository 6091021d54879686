//! Orders that are sent.

use kb_days::Name;
use kb_gateway::{Order, gateway_id};
use kb_money::Currency;
use kb_payment::Kind;
use std::test::Fail;

/// The line that asks for the order of 1250 dollars, and the one that asks what became of it.
pub const ASK: &[u8] = b"ASK 419057e9-e213-5cbe-8f20-63536fe96a2c PURCHASE 1250 USD\n";

pub const LOOK: &[u8] = b"LOOK 419057e9-e213-5cbe-8f20-63536fe96a2c\n";

/// An order on the payment p1 of the account a1.
pub fn order_of(kind: Kind, amount: u64, currency: &[u8]) -> Result<Order, Fail> {
    let account = Name::new(b"a1").ok_or("an account")?;
    let key = Name::new(b"p1").ok_or("a key")?;
    Ok(Order {
        account,
        key,
        id: gateway_id(account, key),
        kind,
        amount,
        currency: Currency::new(currency).ok_or("a currency")?,
    })
}
