//! What is due: the cell that each day of a subscription is charged by.
//!
//! The rule kept here: a day is charged by its cell, where the subscription is live, its billing isn't
//! blocked and its phase has a recurring price, once the cell's period and what last changed it have begun by
//! the billed date. Layers above ask day by day, and measure whatever is quicker against these answers.
#![tactic(auto)]

mod cell;
mod cell_day;
mod chain;
mod cycle_day;
mod due;
mod entitlement;
mod facts;
mod fee;
mod governing;
mod life;
mod rate;

pub use cell::{Cell, Piece};
pub use chain::chain_of;
pub use cycle_day::ask_of;
pub use due::due_on;
pub use entitlement::{Entitlement, state_on};
pub use facts::Facts;
pub use fee::{fee_by, fee_on};
pub use governing::{Choice, Governing, choice_of, governing_on};
pub use life::{choice_on, is_available, is_kept_on, is_running, lead_of, live};
pub use rate::rate_by;
