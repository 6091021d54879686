//! Why a timeline isn't edited.
ghost use Rattle.std.specs.Prelude.{◌≡◌};

use kb_base::NoMemory;
use thiserror::Error;

/// What there may be only so many of.
#[derive(Clone, Copy, Debug, PartialEq, Eq, Error)]
pub enum Limit {
    /// The subscriptions of an account: `MAX_SUBSCRIPTIONS`.
    #[error("the account has 128 subscriptions and can take no more: create this one in another account")]
    Subscriptions,
    /// The entries of a subscription: `MAX_ENTRIES`.
    #[error("the subscription has 1,024 entries: only a change that takes the place of others can be made")]
    Entries,
}

/// Why an edit is refused. The causes are looked for in this order; a refusal leaves the timeline as it is.
#[derive(Clone, Copy, Debug, PartialEq, Eq, Error)]
pub enum EditFault {
    /// A subscription has this name.
    #[error("the account has a subscription of this name: choose another name")]
    SubscriptionExists,
    /// The day lies before the start.
    #[error("the day lies before the start of the subscription: choose that day or a later one")]
    BeforeStart,
    /// The subscription is cancelled, on whichever day.
    #[error("the subscription is cancelled: take the cancellation back first")]
    Cancelled,
    /// There is no cancellation to take back.
    #[error("the subscription has no cancellation to take back")]
    NotCancelled,
    /// There would be too many.
    #[error("{0}")]
    Limit(Limit),
    /// Memory ran out.
    #[error("out of memory")]
    NoMemory,
}

impl From<NoMemory> for EditFault {
    ghost use Rattle.kb_timeline.specs.declared.edit_fault.EditFault.TheVariants.{NoMemory};

    ghost from_gives = { λ _ fault. fault ≡ NoMemory };

    fn from(_: NoMemory) -> EditFault {
        EditFault::NoMemory
    }
}
