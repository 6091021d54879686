//! The numbers and names of refusals.
ghost use Rattle.std.specs.Prelude.{◌≡◌};
ghost use Rattle.kb_json.specs.Refusals.{refusal_number, refusal_name};

use kb_book::Refusal;

/// The number of a refusal: 1 to 24.
pub(crate) fn refusal_number(refusal: Refusal) -> u32
    ensures { result ≡ refusal_number refusal }
{
    match refusal {
        Refusal::BadName => 1,
        Refusal::BadDate => 2,
        Refusal::NoAccount => 3,
        Refusal::AccountExists => 4,
        Refusal::NoCatalog => 5,
        Refusal::NoPlan => 6,
        Refusal::NoPrice => 7,
        Refusal::SubscriptionExists => 8,
        Refusal::NoSubscription => 9,
        Refusal::BundleRule => 10,
        Refusal::BeforeStart => 11,
        Refusal::Cancelled => 12,
        Refusal::NotCancelled => 13,
        Refusal::ChangeBlocked => 14,
        Refusal::PolicyIllegal => 15,
        Refusal::KeyReused => 16,
        Refusal::NoInvoice => 17,
        Refusal::NothingDue => 18,
        Refusal::AttemptOpen => 19,
        Refusal::NoPayment => 20,
        Refusal::PaymentState => 21,
        Refusal::AmountTooLarge => 22,
        Refusal::Limit { .. } => 23,
        Refusal::VersionOrder => 24,
    }
}

/// The name of a refusal.
pub(crate) fn refusal_name(refusal: Refusal) -> &'static str
    ensures { result.now ≡ refusal_name refusal }
{
    match refusal {
        Refusal::BadName => "BadName",
        Refusal::BadDate => "BadDate",
        Refusal::NoAccount => "NoAccount",
        Refusal::AccountExists => "AccountExists",
        Refusal::NoCatalog => "NoCatalog",
        Refusal::NoPlan => "NoPlan",
        Refusal::NoPrice => "NoPrice",
        Refusal::SubscriptionExists => "SubscriptionExists",
        Refusal::NoSubscription => "NoSubscription",
        Refusal::BundleRule => "BundleRule",
        Refusal::BeforeStart => "BeforeStart",
        Refusal::Cancelled => "Cancelled",
        Refusal::NotCancelled => "NotCancelled",
        Refusal::ChangeBlocked => "ChangeBlocked",
        Refusal::PolicyIllegal => "PolicyIllegal",
        Refusal::KeyReused => "KeyReused",
        Refusal::NoInvoice => "NoInvoice",
        Refusal::NothingDue => "NothingDue",
        Refusal::AttemptOpen => "AttemptOpen",
        Refusal::NoPayment => "NoPayment",
        Refusal::PaymentState => "PaymentState",
        Refusal::AmountTooLarge => "AmountTooLarge",
        Refusal::Limit { .. } => "Limit",
        Refusal::VersionOrder => "VersionOrder",
    }
}
