//! The actions that objects say.
ghost use Rattle.std.specs.Prelude.{◌≡◌};
ghost use Rattle.serde_json.specs.View.{members_view};
ghost use Rattle.kb_json.specs.Asked.{open_at, create_at, change_at, cancel_at, uncancel_at, pause_at};
ghost use Rattle.kb_json.specs.Asked.{resume_at, block_at, bill_at, charge_at, credit_at, pay_at, refund_at};
ghost use Rattle.kb_json.specs.Asked.{chargeback_at, autopay_at};

use crate::found::{
    amount_at, amount_if, bcd_at, currency_at, day_at, flags_at, invoice_at, name_at, period_at,
    scope_at, truth_at,
};
use crate::member::Member;
use crate::object::Object;
use kb_codec::{
    Autopay, Bill, Block, Cancel, Change, Charge, Chargeback, Create, Credit, OpenAccount, Pause,
    Pay, Refund, Resume, Uncancel,
};

/// The account that is opened.
pub(crate) fn open_at(object: &Object) -> OpenAccount
    ensures { result ≡ open_at (members_view object.now.entries) }
{
    OpenAccount {
        currency: currency_at(object, Member::Currency),
        bcd: bcd_at(object, Member::Bcd),
        autopay: truth_at(object, Member::Autopay),
    }
}

/// The subscription that is begun.
pub(crate) fn create_at(object: &Object) -> Create
    ensures { result ≡ create_at (members_view object.now.entries) }
{
    Create {
        bundle: name_at(object, Member::Bundle),
        subscription: name_at(object, Member::Subscription),
        product: name_at(object, Member::Product),
        period: period_at(object, Member::Period),
        list: name_at(object, Member::List),
        day: day_at(object, Member::Day),
    }
}

/// The change of a subscription.
pub(crate) fn change_at(object: &Object) -> Change
    ensures { result ≡ change_at (members_view object.now.entries) }
{
    Change {
        subscription: name_at(object, Member::Subscription),
        product: name_at(object, Member::Product),
        period: period_at(object, Member::Period),
        list: name_at(object, Member::List),
        day: day_at(object, Member::Day),
    }
}

/// The cancellation of a subscription.
pub(crate) fn cancel_at(object: &Object) -> Cancel
    ensures { result ≡ cancel_at (members_view object.now.entries) }
{
    Cancel {
        subscription: name_at(object, Member::Subscription),
        day: day_at(object, Member::Day),
    }
}

/// The cancellation that is taken back.
pub(crate) fn uncancel_at(object: &Object) -> Uncancel
    ensures { result ≡ uncancel_at (members_view object.now.entries) }
{
    Uncancel {
        subscription: name_at(object, Member::Subscription),
    }
}

/// The pause of a bundle.
pub(crate) fn pause_at(object: &Object) -> Pause
    ensures { result ≡ pause_at (members_view object.now.entries) }
{
    Pause {
        bundle: name_at(object, Member::Bundle),
        day: day_at(object, Member::Day),
    }
}

/// The end of a bundle's pause.
pub(crate) fn resume_at(object: &Object) -> Resume
    ensures { result ≡ resume_at (members_view object.now.entries) }
{
    Resume {
        bundle: name_at(object, Member::Bundle),
        day: day_at(object, Member::Day),
    }
}

/// The blocking state that is set.
pub(crate) fn block_at(object: &Object) -> Block
    ensures { result ≡ block_at (members_view object.now.entries) }
{
    Block {
        scope: scope_at(object, Member::Scope),
        target: name_at(object, Member::Target),
        service: name_at(object, Member::Service),
        state: name_at(object, Member::State),
        day: day_at(object, Member::Day),
        flags: flags_at(object),
    }
}

/// The billing of what is due.
pub(crate) fn bill_at(object: &Object) -> Bill
    ensures { result ≡ bill_at (members_view object.now.entries) }
{
    Bill {
        day: day_at(object, Member::Day),
    }
}

/// The charge.
pub(crate) fn charge_at(object: &Object) -> Charge
    ensures { result ≡ charge_at (members_view object.now.entries) }
{
    Charge {
        amount: amount_at(object, Member::Amount),
    }
}

/// The credit.
pub(crate) fn credit_at(object: &Object) -> Credit
    ensures { result ≡ credit_at (members_view object.now.entries) }
{
    Credit {
        amount: amount_at(object, Member::Amount),
    }
}

/// The payment.
pub(crate) fn pay_at(object: &Object) -> Pay
    ensures { result ≡ pay_at (members_view object.now.entries) }
{
    Pay {
        payment: name_at(object, Member::Payment),
        invoice: invoice_at(object, Member::Invoice),
        amount: amount_if(object, Member::Amount),
    }
}

/// The refund.
pub(crate) fn refund_at(object: &Object) -> Refund
    ensures { result ≡ refund_at (members_view object.now.entries) }
{
    Refund {
        payment: name_at(object, Member::Payment),
        of: name_at(object, Member::Of),
        amount: amount_at(object, Member::Amount),
    }
}

/// The chargeback.
pub(crate) fn chargeback_at(object: &Object) -> Chargeback
    ensures { result ≡ chargeback_at (members_view object.now.entries) }
{
    Chargeback {
        payment: name_at(object, Member::Payment),
        of: name_at(object, Member::Of),
        amount: amount_at(object, Member::Amount),
    }
}

/// The switch of automatic payment.
pub(crate) fn autopay_at(object: &Object) -> Autopay
    ensures { result ≡ autopay_at (members_view object.now.entries) }
{
    Autopay {
        on: truth_at(object, Member::On),
    }
}
