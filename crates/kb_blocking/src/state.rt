//! Blocking states, and what they are asked about.

use kb_days::{Day, Name};

/// What a blocking state speaks of: the account, or the bundle or subscription at a place of it.
#[derive(Clone, Copy, Debug)]
pub enum Scope {
    Account,
    Bundle(u32),
    Subscription(u32),
}

/// What a blocking state may block.
#[derive(Clone, Copy, Debug)]
pub enum Flag {
    /// New subscriptions and changes of plan. A cancellation isn't stopped by it.
    Change,
    /// The use of what was bought.
    Entitlement,
    /// Charges.
    Billing,
}

/// Which of these are blocked.
#[derive(Clone, Copy, Debug)]
pub struct Flags {
    pub change: bool,
    pub entitlement: bool,
    pub billing: bool,
}

/// A state of a service from a day on, until a later state of the same scope and service.
#[derive(Clone, Copy, Debug)]
pub struct BlockState {
    pub scope: Scope,
    pub service: Name,
    pub state: Name,
    pub day: Day,
    pub flags: Flags,
}

/// The bundle and the subscription, by their places, of which blocking states are looked at beside their
/// account's.
#[derive(Clone, Copy, Debug)]
pub struct Chain {
    pub bundle: Option<u32>,
    pub subscription: Option<u32>,
}
