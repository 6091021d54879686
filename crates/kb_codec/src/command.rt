//! Commands.

use crate::action::Action;
use crate::invoice_no::InvoiceNo;
use kb_catalog_text::{Checked, CheckedOverdue};
use kb_days::Name;
use kb_payment::Status;

/// What may be asked of the platform: a text is handed in, a caller asks for an action on an account, or the
/// platform goes on by itself. The key of a command is the word by which it is known when it comes again;
/// `account` and `payment` are the names of what it speaks of.
///
/// | Kind | Command |
/// |---|---|
/// | 1 | `Catalog` |
/// | 2 | `OverdueRules` |
/// | 3 to 17 | `Act`, by its action |
/// | 18 | `Auto` |
/// | 19 | `Settle` |
/// | 20 | `Overdue` |
pub enum Command {
    Catalog(Catalog),
    OverdueRules(OverdueRules),
    /// A caller asks for an action on an account.
    Act {
        account: Name,
        key: Name,
        action: Action,
    },
    Auto(Auto),
    Settle(Settle),
    Overdue(Overdue),
}

impl Drop for Command {
    /// Drops all that it holds. No crate above has to show again how that is dropped.
    fn drop(self) {
        match self {
            Command::Catalog(_catalog) => {}
            Command::OverdueRules(_overdue_rules) => {}
            Command::Act {
                account: _account,
                key: _key,
                action: _action,
            } => {}
            Command::Auto(_auto) => {}
            Command::Settle(_settle) => {}
            Command::Overdue(_overdue) => {}
        }
    }
}

/// A catalog text is handed in.
#[derive(Drop)]
pub struct Catalog {
    pub key: Name,
    pub text: Checked,
}

/// An overdue text is handed in.
#[derive(Drop)]
pub struct OverdueRules {
    pub key: Name,
    pub text: CheckedOverdue,
}

/// The automatic payment of an invoice is attempted.
#[derive(Drop)]
pub struct Auto {
    pub account: Name,
    pub invoice: InvoiceNo,
}

/// A payment attempt is settled.
#[derive(Drop)]
pub struct Settle {
    pub account: Name,
    /// The payment key of the attempt.
    pub payment: Name,
    pub status: Status,
}

/// The overdue state is looked at anew.
#[derive(Drop)]
pub struct Overdue {
    pub account: Name,
}
