//! A lock, its passes and its turns may cross threads where the value may.
use crate::counted::Counted;
use crate::held::Held;
use crate::pass::{Pass, Turn};

fn is_send<X: Send>() {}

fn is_sync<X: Sync>() {}

/// Threads may share a lock and hand on the lock, a pass and a turn.
fn may_cross<T: Counted + Drop + Send>() {
    is_sync::<Held<T>>();
    is_send::<Held<T>>();
    is_send::<Pass<T>>();
    is_send::<Turn<T>>();
}
