//! Lists among threads: the check proves here that threads may hand them on, and lend them to each other, if
//! they may do so with what stands in them.

use crate::list::SharedList;

/// A list of such members is one of the values that threads may share.
fn lists_are_shared<T: Send + Sync>(list: &SharedList<T>) {
    is_shared(list)
}

/// A value that threads may hand on and lend to each other.
fn is_shared<T: Send + Sync>(_value: &T) {}
