//! The members of requests, and what their values are.
ghost use Rattle.std.specs.Prelude.{◌≡◌};
ghost use Rattle.kb_json.specs.Members.{member_name, sort_of};

/// A member of a request.
#[derive(Clone, Copy)]
pub enum Member {
    /// The day on which a dated line is asked.
    Today,
    /// The name of the account.
    Account,
    /// The key of the request.
    Key,
    /// The text that is handed in.
    Text,
    /// The currency of the account.
    Currency,
    /// The day of the month that the account is billed on.
    Bcd,
    /// Whether invoices are paid as they are issued.
    Autopay,
    /// The name of the bundle.
    Bundle,
    /// The name of the subscription.
    Subscription,
    /// The name of the product.
    Product,
    /// The billing period.
    Period,
    /// The name of the price list.
    List,
    /// The day that is asked for.
    Day,
    /// What a block speaks of.
    Scope,
    /// The name of what a block speaks of.
    Target,
    /// The service that sets a state.
    Service,
    /// The name of a state.
    State,
    /// Whether creates and changes are stopped.
    Change,
    /// Whether use is stopped.
    Entitlement,
    /// Whether billing is stopped.
    Billing,
    /// The amount in minor units.
    Amount,
    /// The name of the payment.
    Payment,
    /// The number of the invoice.
    Invoice,
    /// The name of the payment that is paid back.
    Of,
    /// Whether invoices are paid as they are issued, from now on.
    On,
}

/// What a member's value is.
#[derive(Clone, Copy)]
pub enum Sort {
    /// The text of a name.
    Name,
    /// The text of a request key that a caller may use.
    Key,
    /// The text of a currency.
    Currency,
    /// The word of a billing period.
    Period,
    /// The word of what a block speaks of.
    Scope,
    /// The text of a day.
    Day,
    /// A day of the month.
    Bcd,
    /// An amount in minor units.
    Amount,
    /// The number of an invoice.
    Invoice,
    /// True or false.
    Truth,
    /// A catalog text or an overdue text.
    Text,
}

impl Member {
    /// The name of the member.
    pub fn name(self) -> &'static str
        ensures { result.now ≡ member_name self }
    {
        match self {
            Member::Today => "today",
            Member::Account => "account",
            Member::Key => "key",
            Member::Text => "text",
            Member::Currency => "currency",
            Member::Bcd => "bcd",
            Member::Autopay => "autopay",
            Member::Bundle => "bundle",
            Member::Subscription => "subscription",
            Member::Product => "product",
            Member::Period => "period",
            Member::List => "list",
            Member::Day => "day",
            Member::Scope => "scope",
            Member::Target => "target",
            Member::Service => "service",
            Member::State => "state",
            Member::Change => "change",
            Member::Entitlement => "entitlement",
            Member::Billing => "billing",
            Member::Amount => "amount",
            Member::Payment => "payment",
            Member::Invoice => "invoice",
            Member::Of => "of",
            Member::On => "on",
        }
    }

    /// What its value is.
    pub fn sort(self) -> Sort
        ensures { result ≡ sort_of self }
    {
        match self {
            Member::Today | Member::Day => Sort::Day,
            Member::Key => Sort::Key,
            Member::Text => Sort::Text,
            Member::Currency => Sort::Currency,
            Member::Bcd => Sort::Bcd,
            Member::Period => Sort::Period,
            Member::Scope => Sort::Scope,
            Member::Amount => Sort::Amount,
            Member::Invoice => Sort::Invoice,
            Member::Autopay | Member::Change | Member::Entitlement | Member::Billing | Member::On =>
                Sort::Truth,
            _ => Sort::Name,
        }
    }
}
