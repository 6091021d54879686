//! Commands: what may be asked of the platform, and their bytes.
//!
//! The rule kept here: a command holds only what may be asked. Its names, days, currencies and texts are of
//! types that refuse all else, an amount is 1 to 10^12 minor units, and an invoice has a number from 1 on.
//! Each command has one spelling, member by member, and no spelling begins another one; bytes that aren't a
//! spelling are no command. Layers above keep and send commands by `encode`, take them in by `decode`, and
//! speak of the commands that were accepted as a history of entries, each a command with its day.
#![tactic(auto)]

mod action;
mod amount;
mod bytes;
mod command;
mod invoice_no;
mod member;
mod reading;
mod rest;
mod scope;
mod text_members;
mod texts;
mod writing;

pub use action::{
    Action, Autopay, Bill, Block, Cancel, Change, Charge, Chargeback, Create, Credit, OpenAccount,
    Pause, Pay, Refund, Resume, Uncancel,
};
pub use amount::{Amount, MAX_AMOUNT};
pub use bytes::{decode, encode, no_spelling_begins_another};
pub use command::{Auto, Catalog, Command, Overdue, OverdueRules, Settle};
pub use invoice_no::InvoiceNo;
pub use scope::BlockScope;
