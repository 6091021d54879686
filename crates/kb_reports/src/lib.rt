//! Reports over lanes: balances, arrears and states.
//!
//! The rule kept here: a report is one text for each account, the accounts in the order of their names over
//! all lanes, and each text is a function of the account's book, the texts of its lane and the day that is
//! named. A report reads and prints as it goes, and changes no lane. Layers above open the lanes, and
//! choose the report.
#![tactic(auto)]

mod arrears;
mod balances;
mod line;
mod listed;
mod printing;
mod report;
mod states;

pub use arrears::Arrears;
pub use balances::Balances;
pub use printing::{Unprinted, print};
pub use states::States;
