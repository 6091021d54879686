//! What a gateway tells.
ghost use Rattle.std.specs.Prelude.{◌≡◌};
ghost use Rattle.kb_gateway.specs.Answers.{status_of};

use kb_days::Name;
use kb_payment::Status;

/// What a gateway answers to an order.
#[derive(Clone, Copy, Debug, PartialEq, Eq, Drop)]
pub enum Told {
    /// The money has moved.
    Processed,
    /// It isn't decided yet.
    Pending,
    /// The order is refused.
    Error,
    /// The order was never tried.
    Canceled,
    /// The gateway can't say.
    Undefined,
}

/// What a gateway knows of an order that may have been asked before.
#[derive(Clone, Copy, Debug, PartialEq, Eq, Drop)]
pub enum Seen {
    Told(Told),
    /// The order never reached it.
    NotSeen,
}

/// Which call an answer is to.
#[derive(Clone, Copy, Debug, PartialEq, Eq, Drop)]
pub enum Call {
    Ask,
    LookUp,
}

/// What was heard from a gateway: an answer, or that the call failed.
#[derive(Clone, Copy, Debug, PartialEq, Eq, Drop)]
pub enum Heard {
    Told(Told),
    NotSeen,
    Failed,
}

/// One call of a gateway: on which payment of which account, and what was heard.
#[derive(Clone, Copy, Debug, PartialEq, Eq, Drop)]
pub struct Saying {
    pub account: Name,
    pub key: Name,
    pub call: Call,
    pub heard: Heard,
}

/// The status that an attempt gets by what the gateway told.
pub fn status_of(told: Told) -> Status
    ensures { result ≡ status_of told }
{
    match told {
        Told::Processed => Status::Success,
        Told::Pending => Status::Pending,
        Told::Error => Status::PaymentFailure,
        Told::Canceled => Status::PluginFailure,
        Told::Undefined => Status::Unknown,
    }
}
