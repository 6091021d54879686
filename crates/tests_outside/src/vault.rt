//! Clocks and vaults, in memory and of the system.

mod clocks;
mod folders;
mod keeping;
mod memory;
