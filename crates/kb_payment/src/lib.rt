//! Payments: attempts on invoices, each known by its payment key.
//!
//! The rule kept here: a key names one attempt, and a final attempt never changes. An invoice has at most one
//! open purchase. What is given back of a purchase, done or under way, is never more than the purchase. What
//! is paid on an invoice is its successful purchases less their successful refunds and chargebacks.
#![tactic(auto)]

mod attempt;
mod fault;
mod kept_attempt;
mod on_invoice;
mod payments;
mod threads;

pub use attempt::{Attempt, Kind, Status};
pub use fault::PayFault;
pub use payments::{MAX_PURCHASE, Payments};
