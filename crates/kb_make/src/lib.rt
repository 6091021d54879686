//! Accounts made from a seed, on one lane in memory.
//!
//! The rule kept here: a seed, a number of accounts and a number of months stand for one list of commands,
//! each with its day, that a reader can work out by hand. They are performed one after another by a lane in
//! memory that has the shop's texts, and what each leaves to do is done before the next, by a gateway that
//! takes each payment. A summary tells what all accounts add up to then. The layer above prints it.
#![tactic(auto)]

mod commands;
mod days;
mod draws;
mod gateway;
mod generator;
mod making;
mod names;
mod opening;
mod place;
mod sending;
mod summary;
mod totals;

pub use generator::Generator;
pub use making::make;
