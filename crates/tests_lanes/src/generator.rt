//! The commands of a seed.

mod seeds;
