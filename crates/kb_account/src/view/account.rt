//! An account as it is shown.
ghost use Rattle.std.specs.Prelude.{◌≡◌};
ghost use Rattle.kb_account.specs.Views.{account_view};
ghost use Rattle.kb_account.specs.Private.States.{value_of};

use crate::state::State;
use kb_book::AccountView;

impl State {
    /// The account as it is shown.
    pub fn account_view(&self) -> AccountView
        ensures { result ≡ account_view (value_of self.now) }
    {
        let invoices = &self.invoices;
        AccountView {
            account: self.account,
            currency: self.currency,
            billed: self.billed,
            charged: invoices.charged(),
            paid: invoices.paid(),
            credit: invoices.credit(),
            unpaid: invoices.unpaid(),
            overdue: self.overdue,
        }
    }
}
