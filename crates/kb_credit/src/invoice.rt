//! What is told of an invoice.

use kb_days::Day;

/// The day of an invoice, and the total of its items except the credit adjustments, in minor units.
#[derive(Clone, Copy, Debug, PartialEq, Eq)]
pub struct Invoice {
    pub day: Day,
    pub total: i128,
}
