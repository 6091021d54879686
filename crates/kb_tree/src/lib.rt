//! Covers: what each day of a subscription is charged by, as bills and repairs have left it.
//!
//! The rule kept here: after a change a day keeps its charge where that is by the due cell. Where it isn't, a
//! repair of that very item takes it off, and a bill charges the due cell. So each day has exactly its due
//! charge or none, and a day whose due cell stays is never billed again. Of each subscription, in order of
//! creation, first the fees and then the recurring charges are brought up to what is due, by items that get
//! the account's next numbers. Layers above keep two covers for each subscription, and put the items' lines
//! on one invoice.
#![tactic(auto)]

mod cells;
mod changes;
mod charging;
mod cost;
mod cover;
mod coverage;
mod days;
mod due;
mod issue;
mod item;
mod line;
mod live;
mod making;
mod steps;
mod subscription;
mod walking;

pub use cover::Cover;
pub use issue::{Issue, issue_due};
pub use item::{ItemNo, NewItem};
pub use steps::Steps;
pub use subscription::SubscriptionCharges;
