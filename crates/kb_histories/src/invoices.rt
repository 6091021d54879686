//! What the invoices of accounts hold.
ghost use Rattle.kb_histories.specs.AddUp.{InvoicesStayAddedUp, ReplaysAddUp};
ghost use Rattle.kb_histories.specs.OnlyAdded.{CommandsOnlyAdd, HistoriesOnlyAdd, CommandsIssueOne};
ghost use Rattle.kb_histories.specs.Shown.{ItemsStayShown, ReplaysAreShown};

/// Items are only added to invoices, and each invoice keeps its number, its day and its total.
pub fn items_are_only_added()
    ensures stay { CommandsOnlyAdd }
    ensures replayed { HistoriesOnlyAdd }
    ensures one_invoice { CommandsIssueOne }
{}

/// The items of each invoice add up to its total and to its credit adjustments, whatever was adjusted since.
pub fn invoices_add_up()
    ensures stay { InvoicesStayAddedUp }
    ensures replayed { ReplaysAddUp }
{}

/// What invoices show of subscriptions, bills and repairs, is what their days are charged by.
pub fn items_are_shown()
    ensures stay { ItemsStayShown }
    ensures replayed { ReplaysAreShown }
{}
