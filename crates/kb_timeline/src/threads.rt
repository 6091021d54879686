//! Timelines among threads: the check proves here that threads may hand them on, and lend them to each other.

use crate::timeline::Timeline;

/// A timeline is one of the values that threads may share.
fn timelines_are_shared(timeline: &Timeline) {
    is_shared(timeline)
}

/// A value that threads may hand on and lend to each other.
fn is_shared<T: Send + Sync>(_value: &T) {}
