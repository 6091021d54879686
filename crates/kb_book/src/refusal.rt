//! Why a command is refused.

/// Why a command is refused. A refusal changes nothing.
#[derive(Clone, Copy)]
pub enum Refusal {
    /// A name, key, currency or word isn't one, or a reserved one is used.
    BadName,
    /// A day isn't one that a command may name, or a cycle day is above 31.
    BadDate,
    /// The account isn't there.
    NoAccount,
    /// The account is there already.
    AccountExists,
    /// No version of the catalog is effective on the day of the start.
    NoCatalog,
    /// There is no such plan.
    NoPlan,
    /// A price of the plan isn't told in the account's currency.
    NoPrice,
    /// The account has a subscription of that name.
    SubscriptionExists,
    /// There is no such subscription, bundle or target of a block.
    NoSubscription,
    /// A bundle may not have this subscription, or this change of it.
    BundleRule,
    /// The day is before the start.
    BeforeStart,
    /// A cancellation stands, or the subscription isn't live on the day asked for.
    Cancelled,
    /// There is no cancellation to take back.
    NotCancelled,
    /// Starts and changes are blocked on the day asked for.
    ChangeBlocked,
    /// The catalog's rules forbid it.
    PolicyIllegal,
    /// The key was used for another command, or the payment key has an attempt.
    KeyReused,
    /// There is no invoice of that number.
    NoInvoice,
    /// Nothing is left to pay of the invoice.
    NothingDue,
    /// A purchase on the invoice is open.
    AttemptOpen,
    /// The payment that is named isn't there.
    NoPayment,
    /// The payment that is named isn't a successful purchase; or an inner command isn't to be accepted.
    PaymentState,
    /// The amount is above what is allowed.
    AmountTooLarge,
    /// A quantity would pass its limit: which, and its number.
    Limit { which: u32, limit: u32 },
    /// A version isn't dated after the last one.
    VersionOrder,
}
