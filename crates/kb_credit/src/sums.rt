//! The sums over all invoices.
ghost use Rattle.std.specs.Prelude.{◌≡◌, ◌+◌, ◌^◌, ◌≤◌, ◌+ℤ◌, ◌-ℤ◌, pos, nat_abs};
ghost use Rattle.std.specs.Int.{int_max};

use crate::row::Row;

/// What all invoices total, what is paid on them, and their credit adjustments.
#[derive(Clone, Copy)]
pub(crate) struct Sums {
    pub(crate) charged: i128,
    pub(crate) paid: i128,
    pub(crate) credit: i128,
}

/// The sums of no invoice.
pub(crate) fn no_sums() -> Sums
    ensures { result ≡ record { charged = pos 0; paid = pos 0; credit = pos 0 } }
{
    Sums {
        charged: 0,
        paid: 0,
        credit: 0,
    }
}

/// The sums, where an invoice is issued.
pub(crate) fn with_issued(sums: &Sums, row: &Row) -> Sums
    requires small { nat_abs (sums.now.charged +ℤ row.now.total) ≤ 2 ^ 126 }
    ensures { result ≡ record sums.now { charged = sums.now.charged +ℤ row.now.total } }
{
    Sums {
        charged: sums.charged + row.total,
        paid: sums.paid,
        credit: sums.credit,
    }
}

/// The sums, where an amount is paid.
pub(crate) fn with_paid(sums: &Sums, amount: i128) -> Sums
    requires small { nat_abs (sums.now.paid +ℤ amount) ≤ 2 ^ 126 }
    ensures { result ≡ record sums.now { paid = sums.now.paid +ℤ amount } }
{
    Sums {
        charged: sums.charged,
        paid: sums.paid + amount,
        credit: sums.credit,
    }
}

/// The sums of levelled invoices: credit is by how much more is paid than charged.
pub(crate) fn levelled(sums: &Sums) -> Sums
    requires small { nat_abs sums.now.charged + nat_abs sums.now.paid ≤ 2 ^ 126 }
    ensures { result ≡ record sums.now { credit = int_max (pos 0) (sums.now.paid -ℤ sums.now.charged) } }
{
    Sums {
        charged: sums.charged,
        paid: sums.paid,
        credit: above(sums),
    }
}

/// By how much more is paid than charged, if it is.
fn above(sums: &Sums) -> i128
    requires small { nat_abs sums.now.charged + nat_abs sums.now.paid ≤ 2 ^ 126 }
    ensures { result ≡ int_max (pos 0) (sums.now.paid -ℤ sums.now.charged) }
{
    if sums.paid < sums.charged {
        0
    } else {
        sums.paid - sums.charged
    }
}
