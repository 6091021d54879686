//! The steps that an account is told in.

use kb_blocking::Scope;

/// A step of an account. Dates are as `2024-03-10`; a plan is that of the name in the version of its date.
#[derive(Clone, Copy, Debug)]
pub enum Step {
    /// Creates the next subscription on a plan, as an add-on or not; its phases are counted from that day.
    Create {
        plan: &'static str,
        from: &'static str,
        addon: bool,
    },
    /// Changes the subscription at a place to a plan.
    Change {
        sub: u32,
        plan: &'static str,
        from: &'static str,
        anchor: Anchor,
    },
    /// Cancels the subscription at a place.
    Cancel {
        sub: u32,
        from: &'static str,
    },
    /// Takes back the cancellation of the subscription at a place.
    Uncancel {
        sub: u32,
    },
    /// Adds a blocking state of a scope and a service, with the flag for billing and that for use.
    Block {
        scope: Scope,
        service: &'static str,
        from: &'static str,
        billing: bool,
        entitlement: bool,
    },
}

/// The day from which the phases of a change are counted.
#[derive(Clone, Copy, Debug)]
pub enum Anchor {
    /// The day on which the subscription starts.
    Start,
    /// The day of the change.
    Change,
    /// Another day.
    Day(&'static str),
}
