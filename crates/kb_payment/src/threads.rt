//! Payments among threads: the check proves here that threads may hand them on, and lend them to each other.

use crate::payments::Payments;

/// Payments are among the values that threads may share.
fn payments_are_shared(payments: &Payments) {
    is_shared(payments)
}

/// A value that threads may hand on and lend to each other.
fn is_shared<T: Send + Sync>(_value: &T) {}
