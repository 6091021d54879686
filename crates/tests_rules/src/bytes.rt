//! Faults and lists, bytes in memory, and money.

mod bytes;
mod lists;
mod money;
