//! Each command's own edit: of the subscriptions, the blocking states or the payments of an account, a file a
//! command.
//!
//! The rule kept here: what is asked for on a day is looked up in the version of that day; the policy of that
//! version gives the day of effect; and the version of the day of effect gives the new plan, its price and
//! its anchor. A command is refused by the first of its refusals, in their order, or gives the new value that
//! these terms make of the part that it edits. Layers above put it into the account's book, and bill what is
//! due then.
#![tactic(auto)]

mod anchor;
mod blocks;
mod bundle;
mod cancellations;
mod category;
mod changes;
mod due;
mod effect;
mod entry;
mod pauses;
mod payments;
mod places;
mod plan;
mod policy;
mod price;
mod settlements;
mod starts;
mod states;
mod words;

pub use blocks::block;
pub use cancellations::{cancel, uncancel};
pub use changes::change;
pub use due::{invoice_due, is_transition_due, overdue_state};
pub use effect::through_of;
pub use pauses::{pause, resume};
pub use payments::{chargeback, pay, pay_automatically, refund};
pub use places::place_of;
pub use settlements::{Settled, settle};
pub use starts::start;
pub use states::enter_state;
