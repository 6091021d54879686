//! A lock that hands on one value whose history only grows.
//!
//! The rule kept here: whoever takes the value finds a history that begins with all that its pass has
//! seen, and nobody but the holder of the turn can change the value. Turns come in the order of the
//! tickets drawn. Layers above keep a value that counts its history under a `Held`, and give each
//! thread a `Pass`.
#![tactic(auto)]

mod counted;
mod crossing;
mod held;
mod pass;
mod plays;
mod steps;
mod table;
mod turns;
mod waits;

pub use counted::Counted;
pub use held::Held;
pub use pass::{Pass, Turn};
pub use turns::first_come_first_served;
