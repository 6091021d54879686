//! What is asked of an account.

use kb_days::{Day, Name};

/// What is asked of an account. The first name is that of the account.
#[derive(Clone, Copy, Debug, PartialEq, Eq)]
pub enum Query {
    Account(Name),
    /// An invoice, by its number.
    Invoice(Name, u32),
    /// A payment, by its key.
    Payment(Name, Name),
    /// A subscription on a day, by its name. A day that isn't named is today.
    Subscription(Name, Name, Option<Day>),
}
