//! Money: prices in minor units, currencies, and what some of a period's days cost.
//!
//! The rule kept here: a price is spread over the days of its period by rounding the running total,
//! never a single part. So days cost the same in whatever parts they are billed, and all days of a
//! period cost its price. Layers above take prices in as `Minor`, and price by `part`.
#![tactic(auto)]

mod currency;
mod minor;
mod proration;

pub use currency::Currency;
pub use minor::{MAX_MINOR, Minor};
pub use proration::{MAX_DAYS, cum, part};
