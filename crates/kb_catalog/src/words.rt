//! The words of a catalog.
ghost use Rattle.std.specs.Prelude.{◌≡◌};
ghost use Rattle.kb_catalog.specs.Alignments.{align_of};
ghost use Rattle.kb_catalog.specs.Products.{is_base, is_add_on};

/// What kind of product one is.
#[derive(Clone, Copy, Debug, PartialEq, Eq)]
pub enum Category {
    /// It may lead a bundle and have add-ons.
    Base,
    /// It comes only beside a base product.
    AddOn,
    /// It leads a bundle without add-ons.
    Standalone,
}

impl Category {
    /// Whether it may lead a bundle and have add-ons.
    pub fn is_base(self) -> bool
        ensures { result ≡ is_base self }
    {
        matches!(self, Category::Base)
    }

    /// Whether it comes only beside a base product.
    pub fn is_add_on(self) -> bool
        ensures { result ≡ is_add_on self }
    {
        matches!(self, Category::AddOn)
    }
}

/// What kind of phase one is.
#[derive(Clone, Copy, Debug, PartialEq, Eq)]
pub enum PhaseType {
    Trial,
    Discount,
    FixedTerm,
    Evergreen,
}

/// When a change or a cancellation takes effect.
#[derive(Clone, Copy, Debug, PartialEq, Eq)]
pub enum Policy {
    /// On the day asked for.
    Immediate,
    /// When what is charged is used up.
    EndOfTerm,
    /// Never: it is refused.
    Illegal,
}

/// From which day the phases of a start are counted.
#[derive(Clone, Copy, Debug, PartialEq, Eq)]
pub enum CreateAlign {
    /// From the start of the bundle's lead.
    StartOfBundle,
    /// From the start of the subscription.
    StartOfSubscription,
}

/// From which day the phases of a start or a change are counted.
#[derive(Clone, Copy, Debug, PartialEq, Eq)]
pub enum Align {
    /// From the start of the bundle's lead.
    StartOfBundle,
    /// From the start of the subscription.
    StartOfSubscription,
    /// From the day on which the change takes effect.
    ChangeOfPlan,
}

impl From<CreateAlign> for Align {
    ghost from_gives = { λ create align. align ≡ align_of create };

    fn from(create: CreateAlign) -> Align {
        match create {
            CreateAlign::StartOfBundle => Align::StartOfBundle,
            CreateAlign::StartOfSubscription => Align::StartOfSubscription,
        }
    }
}

/// Whose cycle day a subscription is billed by.
#[derive(Clone, Copy, Debug, PartialEq, Eq)]
pub enum BillingAlign {
    /// The account's.
    Account,
    /// That of the bundle's lead.
    Bundle,
    /// The subscription's own.
    Subscription,
}
