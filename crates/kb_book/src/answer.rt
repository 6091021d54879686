//! What is told of an accepted command.

/// What is told of an accepted command. Sums are in minor units.
#[derive(Clone, Copy)]
pub struct Answer {
    /// How many commands of the account were accepted with it, inner ones included.
    pub command: u64,
    /// The number of the invoice that it issued, if it did.
    pub invoice: Option<u32>,
    /// The total of that invoice, or 0.
    pub total: i128,
    /// The account's credit after it.
    pub credit: i128,
    /// What is unpaid after it.
    pub unpaid: i128,
}
