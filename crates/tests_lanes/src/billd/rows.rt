//! What a row is.

use crate::shop_runs::script::Script;

/// Lines that a new shop is run on.
pub(crate) struct Row {
    /// What it shows.
    pub(crate) name: &'static str,
    /// The overdue text: `o`, or `none`, in which there is no state.
    pub(crate) overdue: &'static str,
    pub(crate) script: Script,
    pub(crate) lines: &'static str,
}
