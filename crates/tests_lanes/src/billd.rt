//! A shop's month, run anew with each call of its gateway failing.

mod gateways;
mod months;
mod rows;
