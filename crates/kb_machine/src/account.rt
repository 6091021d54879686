//! The account of a command.
ghost use Rattle.std.specs.Prelude.{◌≡◌, ℕ, true, false, IfSome, IfNone};
ghost use Rattle.kb_machine.specs.Machines.{MachineValue, judged, account_judged};
ghost use Rattle.kb_codec.specs.Senders.{is_text, account_of};

use kb_codec::Command;
use kb_days::Name;

/// The account that a command is on; none for a text.
#[tactic(auto, unfolding(crate::specs::Machines::judged))]
pub fn account_of(command: &Command) -> Option<Name>
    ensures account { IfSome result (λ account. account ≡ account_of command.now) }
    ensures judged { IfSome result (λ account. (machine : MachineValue) (today : ℕ)
        → judged machine today command.now ≡ account_judged machine today command.now) }
    ensures text { IfNone result (is_text command.now ≡ true) }
    ensures no_text { IfSome result (λ account. is_text command.now ≡ false) }
{
    match command {
        Command::Catalog(_) | Command::OverdueRules(_) => None,
        Command::Act { account, .. } => Some(*account),
        Command::Auto(members) => Some(members.account),
        Command::Settle(members) => Some(members.account),
        Command::Overdue(members) => Some(members.account),
    }
}
