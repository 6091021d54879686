//! What is shown of an account.

use kb_base::Seq;
use kb_catalog::PhaseType;
use kb_credit::Line;
use kb_days::{Day, Name, Reach};
use kb_due::Entitlement;
use kb_money::Currency;
use kb_payment::{Kind, Status};

/// The answer to a query.
#[derive(Drop)]
pub enum View {
    Account(AccountView),
    Invoice(InvoiceView),
    Payment(PaymentView),
    Subscription(SubscriptionView),
}

/// An account. Sums are in minor units.
#[derive(Clone, Copy)]
pub struct AccountView {
    pub account: Name,
    pub currency: Currency,
    /// Up to which day it is billed, if it is.
    pub billed: Option<Day>,
    pub charged: i128,
    pub paid: i128,
    pub credit: i128,
    pub unpaid: i128,
    /// The name of the present overdue state. None is CLEAR.
    pub overdue: Option<Name>,
}

/// An invoice. Sums are in minor units.
#[derive(Drop)]
pub struct InvoiceView {
    /// Its number.
    pub invoice: u32,
    pub day: Day,
    /// The sum of its items, without its credit adjustments.
    pub total: i128,
    /// What is left to pay of it.
    pub balance: i128,
    /// Its items, in order of their numbers.
    pub items: Seq<ItemView>,
}

/// An item of an invoice.
#[derive(Clone, Copy)]
pub struct ItemView {
    /// Its number.
    pub item: u64,
    /// The name of its subscription. None if it is of none.
    pub subscription: Option<Name>,
    pub line: Line,
}

/// A payment. The amount is in minor units.
#[derive(Clone, Copy)]
pub struct PaymentView {
    pub payment: Name,
    pub kind: Kind,
    /// The number of the invoice on which it pays, or from which it takes back.
    pub invoice: u32,
    pub amount: u64,
    pub status: Status,
}

/// A subscription on a day.
#[derive(Clone, Copy)]
pub struct SubscriptionView {
    pub subscription: Name,
    pub bundle: Name,
    pub day: Day,
    pub state: Entitlement,
    /// The plan that it is on. None if it isn't live on the day.
    pub plan: Option<Name>,
    /// The type of the phase that it is in. None if it isn't live on the day.
    pub phase: Option<PhaseType>,
    /// The day until which it is charged, that day excluded. None if no day is.
    pub charged_through: Option<Reach>,
}
