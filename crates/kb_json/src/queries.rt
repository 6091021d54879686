//! The queries that objects say.
ghost use Rattle.std.specs.Prelude.{◌≡◌};
ghost use Rattle.serde_json.specs.View.{members_view};
ghost use Rattle.kb_json.specs.Asked.{account_query, invoice_query, payment_query, subscription_query};

use crate::found::{day_at, invoice_at, name_at};
use crate::member::Member;
use crate::object::Object;
use kb_book::Query;

/// The query for an account.
pub(crate) fn account_query(object: &Object) -> Query
    ensures { result ≡ account_query (members_view object.now.entries) }
{
    Query::Account(name_at(object, Member::Account))
}

/// The query for an invoice.
pub(crate) fn invoice_query(object: &Object) -> Query
    ensures { result ≡ invoice_query (members_view object.now.entries) }
{
    let invoice = invoice_at(object, Member::Invoice);
    Query::Invoice(name_at(object, Member::Account), invoice.number())
}

/// The query for a payment.
pub(crate) fn payment_query(object: &Object) -> Query
    ensures { result ≡ payment_query (members_view object.now.entries) }
{
    let payment = name_at(object, Member::Payment);
    Query::Payment(name_at(object, Member::Account), payment)
}

/// The query for a subscription.
pub(crate) fn subscription_query(object: &Object) -> Query
    ensures { result ≡ subscription_query (members_view object.now.entries) }
{
    let subscription = name_at(object, Member::Subscription);
    let day = day_at(object, Member::Day);
    Query::Subscription(name_at(object, Member::Account), subscription, day)
}
