//! Maps among threads: the check proves here that threads may hand them on, and lend them to each other, if
//! they may do so with what stands in them.

use crate::key::Key;
use crate::map::SharedMap;

/// A map of such keys and values is one of the values that threads may share.
fn maps_are_shared<K: Key + Send + Sync, V: Send + Sync>(map: &SharedMap<K, V>) {
    is_shared(map)
}

/// A value that threads may hand on and lend to each other.
fn is_shared<T: Send + Sync>(_value: &T) {}
