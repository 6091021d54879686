//! What an account adds up to.
ghost use Rattle.std.specs.Prelude.{◌≡◌};
ghost use Rattle.kb_book.specs.BoundedSums.{IsBounded};
ghost use Rattle.kb_account.specs.Sums.{sums_of};

use crate::book::Book;
use kb_days::{Day, Name};

/// What an account adds up to. Sums are in minor units, from -2^103 to 2^103.
#[derive(Clone, Copy)]
pub struct Sums {
    /// How many commands were accepted, inner ones included.
    pub commands: u64,
    /// How many invoices there are.
    pub invoices: u32,
    /// What all invoices total.
    pub charged: i128,
    /// What is paid on them.
    pub paid: i128,
    /// By how much payments exceed charges, if they do.
    pub credit: i128,
    /// What is unpaid of all invoices.
    pub unpaid: i128,
    /// How many invoices are unpaid.
    pub unpaid_count: u32,
    /// The day of the earliest unpaid invoice, if there is one.
    pub earliest: Option<Day>,
    /// The name of the present overdue state. None is CLEAR.
    pub overdue: Option<Name>,
}

impl Book {
    /// What the account adds up to. It takes no memory.
    pub fn sums(&self) -> Sums
        ensures sums { result ≡ sums_of self.now }
        ensures charged { IsBounded result.charged }
        ensures paid { IsBounded result.paid }
        ensures credit { IsBounded result.credit }
        ensures unpaid { IsBounded result.unpaid }
    {
        let state = &self.state;
        let invoices = &state.invoices;
        Sums {
            commands: state.commands,
            invoices: invoices.len(),
            charged: invoices.charged(),
            paid: invoices.paid(),
            credit: invoices.credit(),
            unpaid: invoices.unpaid(),
            unpaid_count: invoices.unpaid_count(),
            earliest: invoices.earliest_unpaid(),
            overdue: state.overdue,
        }
    }
}
