//! What is kept of the purchases on one invoice, so that no edit looks at all attempts.

use kb_days::Day;

/// The purchases on one invoice.
#[derive(Clone, Copy, Drop)]
pub struct OnInvoice {
    /// Whether one is open.
    pub has_open: bool,
    /// The day of the latest automatic payment.
    pub automatic: Option<Day>,
}
