//! Actions: what a caller may ask for on an account.

use crate::amount::Amount;
use crate::invoice_no::InvoiceNo;
use crate::scope::BlockScope;
use kb_blocking::Flags;
use kb_days::{Bcd, Day, Name, Period};
use kb_money::Currency;

/// What a caller asks for on an account. `bundle`, `subscription` and `payment` are the names of what it
/// speaks of.
///
/// | Kind | Action |
/// |---|---|
/// | 3 | `OpenAccount` |
/// | 4 | `Create` |
/// | 5 | `Change` |
/// | 6 | `Cancel` |
/// | 7 | `Uncancel` |
/// | 8 | `Pause` |
/// | 9 | `Resume` |
/// | 10 | `Block` |
/// | 11 | `Bill` |
/// | 12 | `Charge` |
/// | 13 | `Credit` |
/// | 14 | `Pay` |
/// | 15 | `Refund` |
/// | 16 | `Chargeback` |
/// | 17 | `Autopay` |
pub enum Action {
    OpenAccount(OpenAccount),
    Create(Create),
    Change(Change),
    Cancel(Cancel),
    Uncancel(Uncancel),
    Pause(Pause),
    Resume(Resume),
    Block(Block),
    Bill(Bill),
    Charge(Charge),
    Credit(Credit),
    Pay(Pay),
    Refund(Refund),
    Chargeback(Chargeback),
    Autopay(Autopay),
}

impl Drop for Action {
    /// Drops all that it holds. No crate above has to show again how that is dropped.
    fn drop(self) {
        match self {
            Action::OpenAccount(_open_account) => {}
            Action::Create(_create) => {}
            Action::Change(_change) => {}
            Action::Cancel(_cancel) => {}
            Action::Uncancel(_uncancel) => {}
            Action::Pause(_pause) => {}
            Action::Resume(_resume) => {}
            Action::Block(_block) => {}
            Action::Bill(_bill) => {}
            Action::Charge(_charge) => {}
            Action::Credit(_credit) => {}
            Action::Pay(_pay) => {}
            Action::Refund(_refund) => {}
            Action::Chargeback(_chargeback) => {}
            Action::Autopay(_autopay) => {}
        }
    }
}

/// An account is opened.
#[derive(Drop)]
pub struct OpenAccount {
    pub currency: Currency,
    /// The day of the month on which it is billed.
    pub bcd: Bcd,
    /// Whether invoices are paid by themselves.
    pub autopay: bool,
}

/// A subscription is begun in a bundle.
#[derive(Drop)]
pub struct Create {
    pub bundle: Name,
    pub subscription: Name,
    pub product: Name,
    pub period: Period,
    /// The price list.
    pub list: Name,
    /// The day from which it counts; none if none is named.
    pub day: Option<Day>,
}

/// A subscription changes to another plan.
#[derive(Drop)]
pub struct Change {
    pub subscription: Name,
    pub product: Name,
    pub period: Period,
    /// The price list.
    pub list: Name,
    /// The day from which it counts; none if none is named.
    pub day: Option<Day>,
}

/// A subscription is cancelled.
#[derive(Drop)]
pub struct Cancel {
    pub subscription: Name,
    /// The day from which it counts; none if none is named.
    pub day: Option<Day>,
}

/// The cancellation of a subscription is taken back, whether its day is past or still to come.
#[derive(Drop)]
pub struct Uncancel {
    pub subscription: Name,
}

/// A bundle is paused.
#[derive(Drop)]
pub struct Pause {
    pub bundle: Name,
    /// The day from which it counts; none if none is named.
    pub day: Option<Day>,
}

/// A bundle is resumed, whether or not it is paused.
#[derive(Drop)]
pub struct Resume {
    pub bundle: Name,
    /// The day from which it counts; none if none is named.
    pub day: Option<Day>,
}

/// A blocking state of a service is set.
#[derive(Drop)]
pub struct Block {
    pub scope: BlockScope,
    /// The name of the account, bundle or subscription that is blocked.
    pub target: Name,
    pub service: Name,
    /// The name of the state.
    pub state: Name,
    /// The day from which it counts; none if none is named.
    pub day: Option<Day>,
    pub flags: Flags,
}

/// What is due is billed.
#[derive(Drop)]
pub struct Bill {
    /// The day up to which; none if none is named.
    pub day: Option<Day>,
}

/// An amount is charged beside what subscriptions cost.
#[derive(Drop)]
pub struct Charge {
    pub amount: Amount,
}

/// An amount is credited.
#[derive(Drop)]
pub struct Credit {
    pub amount: Amount,
}

/// A payment on an invoice is attempted: of an amount, or else of what is unpaid of the invoice, up to 10^12
/// minor units.
#[derive(Drop)]
pub struct Pay {
    /// The payment key, by which the attempt is known.
    pub payment: Name,
    pub invoice: InvoiceNo,
    /// None for all that is unpaid of the invoice, or for 10^12 minor units if that is less.
    pub amount: Option<Amount>,
}

/// Some of a payment is given back.
#[derive(Drop)]
pub struct Refund {
    /// The payment key, by which the attempt is known.
    pub payment: Name,
    /// The payment key of the purchase of which it gives back.
    pub of: Name,
    pub amount: Amount,
}

/// Some of a payment was taken back by the customer's bank.
#[derive(Drop)]
pub struct Chargeback {
    /// The payment key, by which the attempt is known.
    pub payment: Name,
    /// The payment key of the purchase of which it gives back.
    pub of: Name,
    pub amount: Amount,
}

/// Automatic payment is turned on or off.
#[derive(Drop)]
pub struct Autopay {
    pub on: bool,
}
