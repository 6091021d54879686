//! One line of an invoice.
ghost use Rattle.std.specs.Prelude.{◌≡◌};
ghost use Rattle.kb_credit.specs.Items.{amount_of, is_adjustment};

use kb_days::Reach;

/// One item of an invoice. Amounts are in minor units, negative for what is given back; `to` is the day after
/// the last one; a subscription is its place among those of the account, from 0.
#[derive(Clone, Copy, Debug, PartialEq, Eq)]
pub enum Line {
    /// Days that are billed: as a recurring charge, or else as a fee.
    Bill {
        subscription: u32,
        recurring: bool,
        from: Reach,
        to: Reach,
        amount: i128,
    },
    /// Days of a billed item that are taken back. `of` is the number of that item.
    Repair {
        subscription: u32,
        of: u64,
        from: Reach,
        to: Reach,
        amount: i128,
    },
    /// A charge from outside the catalog.
    Charge {
        amount: i128,
    },
    /// A credit that is granted.
    Credit {
        amount: i128,
    },
    /// A credit adjustment: credit that is made, if it is above 0, and credit that is used, if it is below.
    Cba {
        amount: i128,
    },
}

impl Line {
    /// The amount, in minor units.
    pub fn amount(&self) -> i128
        ensures { result ≡ amount_of self.now }
    {
        match self {
            Line::Bill { amount, .. }
            | Line::Repair { amount, .. }
            | Line::Charge { amount }
            | Line::Credit { amount }
            | Line::Cba { amount } => *amount,
        }
    }

    /// Whether it is a credit adjustment.
    pub fn is_adjustment(&self) -> bool
        ensures { result ≡ is_adjustment self.now }
    {
        matches!(self, Line::Cba { .. })
    }
}
