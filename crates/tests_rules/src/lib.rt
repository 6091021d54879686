//! Tests of the rules, and of the bytes and texts that they are told by: what no transcript says, such as
//! days, periods and command bytes drawn at random, and ends of ranges.
#![tactic(auto)]

#[cfg(test)]
mod accounts;
#[cfg(test)]
mod bytes;
#[cfg(test)]
mod catalog;
#[cfg(test)]
mod codec;
#[cfg(test)]
mod compare;
#[cfg(test)]
mod days;
#[cfg(test)]
mod overdue;
#[cfg(test)]
mod periods;
#[cfg(test)]
mod sharing;
