//! Accounts to test on: catalogs read from a shop's texts, accounts as they are told in steps, and accounts
//! as billing looks at them.
//!
//! The rule kept here: nothing that ships stands on it. Crates of tests take its accounts into their tests
//! alone; what an account tells in dates and names that make no sense is a `SampleFault`, which fails the
//! test.
#![tactic(auto)]

mod account;
mod account_facts;
mod cases;
mod cells;
mod club;
mod draws;
mod fault;
mod read;
mod step;
mod steps;
mod telling;

pub use account::Account;
pub use account_facts::facts;
pub use cases::Case;
pub use cells::{cells_on, is_there};
pub use club::{CLUB, DEARER_CLUB};
pub use draws::draw_account;
pub use fault::SampleFault;
pub use read::{catalog, currency, day, name, reach};
pub use step::{Anchor, Step};
pub use telling::{changed, line, overdue, replaced, split, told, told_overdue};
