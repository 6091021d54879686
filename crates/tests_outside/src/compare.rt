//! How what is found is held against a row.

use std::fmt::Debug;
use std::process::Abort;

/// What is found for a row is what the row wants.
pub(crate) fn same<T: PartialEq + Debug, R: Debug>(
    rt: &impl Abort,
    found: &T,
    wanted: &T,
    row: &R,
) {
    assert_eq!(rt; *found, *wanted, "{row:?}");
}
