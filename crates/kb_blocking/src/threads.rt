//! Blocking states among threads: the check proves here that threads may hand them on, and lend them to each
//! other.

use crate::blocks::Blocks;

/// Blocking states are among the values that threads may share.
fn blocks_are_shared(blocks: &Blocks) {
    is_shared(blocks)
}

/// A value that threads may hand on and lend to each other.
fn is_shared<T: Send + Sync>(_value: &T) {}
