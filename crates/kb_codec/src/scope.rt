//! What a blocking state speaks of.

/// What the target of a blocking state is the name of.
///
/// | Scope | Byte |
/// |---|---|
/// | `Account` | 0 |
/// | `Bundle` | 1 |
/// | `Subscription` | 2 |
#[derive(Clone, Copy)]
pub enum BlockScope {
    Account,
    Bundle,
    Subscription,
}
