//! What a lane is yet to do.

use kb_days::Name;

/// What a lane is yet to do for an account.
#[derive(Clone, Copy, Debug, PartialEq, Eq)]
pub enum Work {
    /// To ask the gateway for the payment of this account under this payment key.
    Ask(Name, Name),
    /// To look whether the account asks for a command by itself.
    Check(Name),
}
