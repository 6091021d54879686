//! The kinds of requests: the word at their member `do`, and their other members.
ghost use Rattle.std.specs.Prelude.{◌≡◌};
ghost use Rattle.kb_json.specs.RequestKinds.{kind_word, kinds_of, kind_named, members_of};

use crate::member::Member;

/// What is asked for. The first 17 are commands.
#[derive(Clone, Copy)]
pub enum Kind {
    /// A version of the shop's catalog is handed in.
    Catalog,
    /// The shop's overdue rules are handed in.
    OverdueRules,
    /// An account is opened.
    OpenAccount,
    /// A subscription is begun.
    Create,
    /// A subscription changes its plan.
    Change,
    /// A subscription is cancelled.
    Cancel,
    /// A cancellation to come is taken back.
    Uncancel,
    /// A bundle is paused.
    Pause,
    /// A bundle is resumed.
    Resume,
    /// A blocking state is set.
    Block,
    /// An account is billed up to a day.
    Bill,
    /// An amount is charged by hand.
    Charge,
    /// An amount is given as credit.
    Credit,
    /// An invoice is paid.
    Pay,
    /// A payment is paid back.
    Refund,
    /// A payment is taken back by its payer.
    Chargeback,
    /// Whether invoices are paid as they are issued.
    Autopay,
    /// Payments whose outcome isn't known are looked up.
    Janitor,
    /// An account is shown.
    Account,
    /// An invoice is shown.
    Invoice,
    /// A payment is shown.
    Payment,
    /// A subscription is shown.
    Subscription,
}

impl Kind {
    /// The word of the kind.
    pub fn word(self) -> &'static str
        ensures { result.now ≡ kind_word self }
    {
        match self {
            Kind::Catalog => "catalog",
            Kind::OverdueRules => "overdue",
            Kind::OpenAccount => "open",
            Kind::Create => "create",
            Kind::Change => "change",
            Kind::Cancel => "cancel",
            Kind::Uncancel => "uncancel",
            Kind::Pause => "pause",
            Kind::Resume => "resume",
            Kind::Block => "block",
            Kind::Bill => "bill",
            Kind::Charge => "charge",
            Kind::Credit => "credit",
            Kind::Pay => "pay",
            Kind::Refund => "refund",
            Kind::Chargeback => "chargeback",
            Kind::Autopay => "autopay",
            Kind::Janitor => "janitor",
            Kind::Account => "account",
            Kind::Invoice => "invoice",
            Kind::Payment => "payment",
            Kind::Subscription => "subscription",
        }
    }
}

/// The kind of a word; a line that may not be dated asks for commands alone.
#[tactic(auto, unfolding(crate::specs::RequestKinds::kind_named))]
pub fn kind_named(dated: bool, word: &str) -> Option<Kind>
    ensures { result ≡ kind_named dated word.now }
{
    for kind in kinds_of(dated) {
        if word == kind.word() {
            return Some(*kind);
        }
    }
    None
}

/// The kinds that a line may ask for.
fn kinds_of(dated: bool) -> &'static [Kind]
    ensures { result.now ≡ kinds_of dated }
{
    if dated {
        &[
            Kind::Catalog,
            Kind::OverdueRules,
            Kind::OpenAccount,
            Kind::Create,
            Kind::Change,
            Kind::Cancel,
            Kind::Uncancel,
            Kind::Pause,
            Kind::Resume,
            Kind::Block,
            Kind::Bill,
            Kind::Charge,
            Kind::Credit,
            Kind::Pay,
            Kind::Refund,
            Kind::Chargeback,
            Kind::Autopay,
            Kind::Janitor,
            Kind::Account,
            Kind::Invoice,
            Kind::Payment,
            Kind::Subscription,
        ]
    } else {
        &[
            Kind::Catalog,
            Kind::OverdueRules,
            Kind::OpenAccount,
            Kind::Create,
            Kind::Change,
            Kind::Cancel,
            Kind::Uncancel,
            Kind::Pause,
            Kind::Resume,
            Kind::Block,
            Kind::Bill,
            Kind::Charge,
            Kind::Credit,
            Kind::Pay,
            Kind::Refund,
            Kind::Chargeback,
            Kind::Autopay,
        ]
    }
}

/// The members that a request of a kind has to have, in their order.
pub fn needed(kind: Kind) -> &'static [Member]
    ensures { result.now ≡ (members_of kind).needed }
{
    match kind {
        Kind::Catalog | Kind::OverdueRules => &[Member::Key, Member::Text],
        Kind::OpenAccount => &[Member::Account, Member::Key, Member::Currency, Member::Bcd],
        Kind::Create => {
            &[
                Member::Account,
                Member::Key,
                Member::Bundle,
                Member::Subscription,
                Member::Product,
                Member::Period,
            ]
        }
        Kind::Change => {
            &[
                Member::Account,
                Member::Key,
                Member::Subscription,
                Member::Product,
                Member::Period,
            ]
        }
        Kind::Cancel | Kind::Uncancel => &[Member::Account, Member::Key, Member::Subscription],
        Kind::Pause | Kind::Resume => &[Member::Account, Member::Key, Member::Bundle],
        Kind::Block => {
            &[
                Member::Account,
                Member::Key,
                Member::Scope,
                Member::Target,
                Member::Service,
                Member::State,
            ]
        }
        Kind::Bill => &[Member::Account, Member::Key],
        Kind::Charge | Kind::Credit => &[Member::Account, Member::Key, Member::Amount],
        Kind::Pay => &[
            Member::Account,
            Member::Key,
            Member::Payment,
            Member::Invoice,
        ],
        Kind::Refund | Kind::Chargeback => {
            &[
                Member::Account,
                Member::Key,
                Member::Payment,
                Member::Of,
                Member::Amount,
            ]
        }
        Kind::Autopay => &[Member::Account, Member::Key, Member::On],
        Kind::Janitor => &[],
        Kind::Account => &[Member::Account],
        Kind::Invoice => &[Member::Account, Member::Invoice],
        Kind::Payment => &[Member::Account, Member::Payment],
        Kind::Subscription => &[Member::Account, Member::Subscription],
    }
}

/// The members that it may have beside those, in their order.
pub fn optional(kind: Kind) -> &'static [Member]
    ensures { result.now ≡ (members_of kind).optional }
{
    match kind {
        Kind::OpenAccount => &[Member::Autopay],
        Kind::Create | Kind::Change => &[Member::List, Member::Day],
        Kind::Block => &[
            Member::Day,
            Member::Change,
            Member::Entitlement,
            Member::Billing,
        ],
        Kind::Cancel | Kind::Pause | Kind::Resume | Kind::Bill | Kind::Subscription => {
            &[Member::Day]
        }
        Kind::Pay => &[Member::Amount],
        _ => &[],
    }
}
