//! What a request asks for, once nothing is wrong with its members.
ghost use Rattle.std.specs.Prelude.{◌≡◌};
ghost use Rattle.serde_json.specs.View.{members_view};
ghost use Rattle.kb_json.specs.Asked.{asked, act_asked, query_asked, catalog_asked, overdue_asked, IsAsked};

use crate::commands::{
    autopay_at, bill_at, block_at, cancel_at, change_at, charge_at, chargeback_at, create_at,
    credit_at, open_at, pause_at, pay_at, refund_at, resume_at, uncancel_at,
};
use crate::fault::RequestFault;
use crate::found::{name_at, text_at};
use crate::kind::Kind;
use crate::member::Member;
use crate::object::Object;
use crate::queries::{account_query, invoice_query, payment_query, subscription_query};
use crate::request::What;
use kb_book::Query;
use kb_catalog_text::{read, read_overdue};
use kb_codec::{Action, Catalog, Command, OverdueRules};
use std::alloc::Global;

/// What a request of a kind asks for.
#[tactic(auto, unfolding(crate::specs::Asked::asked))]
pub(crate) fn asked(alloc: Global, kind: Kind, object: &Object) -> Result<What, RequestFault>
    ensures { IsAsked result (asked kind (members_view object.now.entries)) }
{
    match kind {
        Kind::Catalog => catalog_asked(alloc, object),
        Kind::OverdueRules => overdue_asked(alloc, object),
        Kind::OpenAccount => act(object, Action::OpenAccount(open_at(object))),
        Kind::Create => act(object, Action::Create(create_at(object))),
        Kind::Change => act(object, Action::Change(change_at(object))),
        Kind::Cancel => act(object, Action::Cancel(cancel_at(object))),
        Kind::Uncancel => act(object, Action::Uncancel(uncancel_at(object))),
        Kind::Pause => act(object, Action::Pause(pause_at(object))),
        Kind::Resume => act(object, Action::Resume(resume_at(object))),
        Kind::Block => act(object, Action::Block(block_at(object))),
        Kind::Bill => act(object, Action::Bill(bill_at(object))),
        Kind::Charge => act(object, Action::Charge(charge_at(object))),
        Kind::Credit => act(object, Action::Credit(credit_at(object))),
        Kind::Pay => act(object, Action::Pay(pay_at(object))),
        Kind::Refund => act(object, Action::Refund(refund_at(object))),
        Kind::Chargeback => act(object, Action::Chargeback(chargeback_at(object))),
        Kind::Autopay => act(object, Action::Autopay(autopay_at(object))),
        Kind::Janitor => Ok(What::Janitor),
        Kind::Account => query(account_query(object)),
        Kind::Invoice => query(invoice_query(object)),
        Kind::Payment => query(payment_query(object)),
        Kind::Subscription => query(subscription_query(object)),
    }
}

/// An action on the account, under the key, that the object names.
fn act(object: &Object, action: Action) -> Result<What, RequestFault>
    ensures { result ≡ act_asked (members_view object.now.entries) action }
{
    Ok(What::Command(Command::Act {
        account: name_at(object, Member::Account),
        key: name_at(object, Member::Key),
        action,
    }))
}

/// A query.
fn query(query: Query) -> Result<What, RequestFault>
    ensures { result ≡ query_asked query }
{
    Ok(What::Query(query))
}

/// A catalog text that is handed in.
fn catalog_asked(alloc: Global, object: &Object) -> Result<What, RequestFault>
    ensures { IsAsked result (catalog_asked (members_view object.now.entries)) }
{
    let text = text_at(object, Member::Text).as_bytes().to_vec(alloc)?;
    match read(alloc, text) {
        Ok(text) => Ok(What::Command(Command::Catalog(Catalog {
            key: name_at(object, Member::Key),
            text,
        }))),
        Err(fault) => Err(RequestFault::from(fault)),
    }
}

/// An overdue text that is handed in.
fn overdue_asked(alloc: Global, object: &Object) -> Result<What, RequestFault>
    ensures { IsAsked result (overdue_asked (members_view object.now.entries)) }
{
    let text = text_at(object, Member::Text).as_bytes().to_vec(alloc)?;
    match read_overdue(alloc, text) {
        Ok(text) => Ok(What::Command(Command::OverdueRules(OverdueRules {
            key: name_at(object, Member::Key),
            text,
        }))),
        Err(fault) => Err(RequestFault::from(fault)),
    }
}
