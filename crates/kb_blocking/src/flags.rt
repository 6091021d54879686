//! The flags of a state.
ghost use Rattle.std.specs.Prelude.{◌≡◌};
ghost use Rattle.kb_blocking.specs.Blocking.{has_flag};

use crate::state::{Flag, Flags};

/// Whether a state has a flag on.
pub(crate) fn has_flag(flag: Flag, flags: Flags) -> bool
    ensures { result ≡ has_flag flag flags }
{
    match flag {
        Flag::Change => flags.change,
        Flag::Entitlement => flags.entitlement,
        Flag::Billing => flags.billing,
    }
}
