//! Invoices: what an account was charged and paid, and credit that levels them.
//!
//! The rule kept here: an invoice's balance is its total and its credit adjustments, less what is paid on it.
//! Levelling turns what is paid beyond an invoice into credit, and uses credit on what is unpaid, the lowest
//! number first. So nothing is unpaid while there is credit, and credit is exactly by how much more is paid
//! than charged. Layers above issue invoices, pay on them and level them, and ask for what is unpaid.
#![tactic(auto)]

mod adjustment;
mod invoice;
mod invoices;
mod levelling;
mod line;
mod lines;
mod open_invoice;
mod row;
mod sums;
mod threads;

pub use invoice::Invoice;
pub use invoices::Invoices;
pub use line::Line;
pub use lines::total_of;
pub use row::Row;
