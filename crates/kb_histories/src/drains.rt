//! The work that accounts may yet ask for by themselves.
ghost use Rattle.kb_histories.specs.BilledMachines.{BooksStayBilled, ReplaysAreBilled};
ghost use Rattle.kb_histories.specs.DueWork.{DueCommandsTakeWork};
ghost use Rattle.kb_histories.specs.SettledWork.{SettlementsAddNoWork};
ghost use Rattle.kb_histories.specs.NamedWork.{FewerNamesHaveNoMore, WorkIsBounded};
ghost use Rattle.kb_histories.specs.WorkAtHand.{DueCommandsTakeAtHand, SettlementsAddInvoices};
ghost use Rattle.kb_histories.specs.WorkAtHand.{AtHandIsBounded};

/// Books stay billed, by the texts that there were at their last command.
pub fn books_are_billed()
    ensures stay { BooksStayBilled }
    ensures replayed { ReplaysAreBilled }
{}

/// The command that an account asks for by itself takes at least as much work off as it leaves to do.
pub fn due_commands_take_work()
    ensures { DueCommandsTakeWork }
{}

/// A settlement adds no work.
pub fn settlements_add_no_work()
    ensures { SettlementsAddNoWork }
{}

/// Fewer accounts have no more work, and their invoices bound it.
pub fn work_is_bounded()
    ensures fewer { FewerNamesHaveNoMore }
    ensures bounded { WorkIsBounded }
{}

/// The command that an account asks for by itself takes as much off the work at hand as it leaves to do, and
/// a settlement adds none, except for an invoice that they issue; and the work at hand is bounded.
pub fn work_at_hand_is_bounded()
    ensures due { DueCommandsTakeAtHand }
    ensures settled { SettlementsAddInvoices }
    ensures bounded { AtHandIsBounded }
{}
