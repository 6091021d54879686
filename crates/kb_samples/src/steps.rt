//! Steps of accounts, a line each.

/// Creates the next subscription on a plan from a date on.
#[macro_export]
macro_rules! create {
    ($plan:literal, $from:literal) => {
        kb_samples::Step::Create {
            plan: $plan,
            from: $from,
            addon: false,
        }
    };
}

/// Creates the next subscription as an add-on.
#[macro_export]
macro_rules! add_on {
    ($plan:literal, $from:literal) => {
        kb_samples::Step::Create {
            plan: $plan,
            from: $from,
            addon: true,
        }
    };
}

/// Changes the subscription at a place to a plan whose phases are counted from its start, or from another
/// anchor.
#[macro_export]
macro_rules! change {
    ($sub:literal, $plan:literal, $from:literal) => {
        kb_samples::Step::Change {
            sub: $sub,
            plan: $plan,
            from: $from,
            anchor: kb_samples::Anchor::Start,
        }
    };
    ($sub:literal, $plan:literal, $from:literal, $anchor:expr) => {
        kb_samples::Step::Change {
            sub: $sub,
            plan: $plan,
            from: $from,
            anchor: $anchor,
        }
    };
}

/// Cancels the subscription at a place from a date on.
#[macro_export]
macro_rules! cancel {
    ($sub:literal, $from:literal) => {
        kb_samples::Step::Cancel {
            sub: $sub,
            from: $from,
        }
    };
}

/// Adds a state that blocks billing or not, and use or not.
#[macro_export]
macro_rules! block {
    ($scope:expr, $service:literal, $from:literal, $billing:literal, $use:literal) => {
        kb_samples::Step::Block {
            scope: $scope,
            service: $service,
            from: $from,
            billing: $billing,
            entitlement: $use,
        }
    };
}
