//! The kinds of route.

/// The kind of a route of the service.
#[derive(Clone, Copy, Debug, PartialEq, Eq)]
pub enum Kind {
    Commands,
    Janitor,
    Account,
    Invoice,
    Payment,
    Subscription,
}
