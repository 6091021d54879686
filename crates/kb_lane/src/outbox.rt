//! What an accepted command leaves to do.
ghost use Rattle.std.specs.Prelude.{◌≡◌, ℕ, List, IfOk};
ghost use Rattle.std.specs.Option.{option_to_list};
ghost use Rattle.kb_lane.specs.Outbox.{ask_of, check_of};

use crate::work::Work;
use kb_account::auto_key;
use kb_base::NoMemory;
use kb_codec::{Action, Command};
use kb_days::{Day, Name};
use kb_machine::account_of;
use std::alloc::Global;

/// The payment that the gateway is to be asked for.
pub fn ask_of(alloc: Global, today: Day, command: &Command) -> Result<Option<Work>, NoMemory>
    ensures { IfOk result (λ ask. option_to_list ask ≡ ask_of (today, command.now)) }
{
    match command {
        Command::Act {
            account,
            action,
            ..
        } => Ok(asked_by(*account, action)),
        Command::Auto(members) => {
            let key = auto_key(alloc, members.invoice.number(), today)?;
            Ok(Some(Work::Ask(members.account, key)))
        }
        _ => Ok(None),
    }
}

/// The payment of an action on an account.
fn asked_by(account: Name, action: &Action) -> Option<Work>
    ensures { (today : ℕ) (key : List ℕ) → option_to_list result
        ≡ ask_of (today, Command.Act account key action.now) }
{
    match action {
        Action::Pay(pay) => Some(Work::Ask(account, pay.payment)),
        Action::Refund(refund) => Some(Work::Ask(account, refund.payment)),
        _ => None,
    }
}

/// The look at the account of a command.
pub fn check_of(command: &Command) -> Option<Work>
    ensures { option_to_list result ≡ check_of command.now }
{
    match account_of(command) {
        Some(account) => Some(Work::Check(account)),
        None => None,
    }
}
