//! What holds of what histories lead to.
ghost use Rattle.kb_histories.specs.HeldMachines.{PlansStay, ReplaysHavePlans, VersionsStay};
ghost use Rattle.kb_histories.specs.BilledNow.{BooksStayBilledNow, NoInvoiceIsDue, ReplaysAreBilledNow};
ghost use Rattle.kb_histories.specs.EvenNow.{BooksStayEvenNow, ReplaysAreEvenNow};
ghost use Rattle.kb_histories.specs.BoundedWork.{ReplayedWorkIsBounded};

/// A command leaves the versions that there are, so the catalog keeps the plans of all accounts.
pub fn plans_are_held()
    ensures versions { VersionsStay }
    ensures stay { PlansStay }
    ensures replayed { ReplaysHavePlans }
{}

/// Accounts are billed by the texts of now, and have no invoice that is yet to be issued.
pub fn accounts_are_billed()
    ensures stay { BooksStayBilledNow }
    ensures replayed { ReplaysAreBilledNow }
    ensures none_due { NoInvoiceIsDue }
{}

/// Each account's credit is exactly by how much its payments exceed its charges, by the texts of now.
pub fn accounts_are_even()
    ensures stay { BooksStayEvenNow }
    ensures replayed { ReplaysAreEvenNow }
{}

/// The work that accounts may yet ask for by themselves is at most a transition each, and a payment for each
/// of their invoices.
pub fn replayed_work_is_bounded()
    ensures { ReplayedWorkIsBounded }
{}
