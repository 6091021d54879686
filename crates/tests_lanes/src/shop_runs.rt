//! Runs of the program on shops in memory, on which the tests of runs stand.
//!
//! A shop is a vault with the texts of kb_samples, and its gateways do what a script says. A run that ends
//! otherwise than a row says is a fault that names it.

pub(crate) mod holding;
pub(crate) mod runs;
pub(crate) mod script;
pub(crate) mod shops;
