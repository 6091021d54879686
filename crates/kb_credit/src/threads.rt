//! Invoices among threads: the check proves here that threads may hand them on, and lend them to each other.

use crate::invoices::Invoices;

/// Invoices are among the values that threads may share.
fn invoices_are_shared(invoices: &Invoices) {
    is_shared(invoices)
}

/// A value that threads may hand on and lend to each other.
fn is_shared<T: Send + Sync>(_value: &T) {}
