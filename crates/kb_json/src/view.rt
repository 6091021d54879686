//! What is shown, as texts.
ghost use Rattle.std.specs.Prelude.{◌≡◌, ◌++◌, codes, IfOk, OnOk, map, option_map, unwrap_or};
ghost use Rattle.json.specs.Tree.{json_tokens};
ghost use Rattle.kb_json.specs.Answers.{account_json, from_of, to_of, repaired_by, item_json, invoice_json};
ghost use Rattle.kb_json.specs.Answers.{payment_json, subscription_json, view_json};
ghost use Rattle.kb_json.specs.JsonTexts.{array_of, word, or_null};
ghost use Rattle.kb_json.specs.Private.Fields.{field_json, invoice_head, values_tokens, IsTextOf};
ghost use Rattle.kb_json.specs.Words.{phase_word};

use crate::draft::Draft;
use crate::field::{Field, count, count_if, currency, date, date_if, name, name_if, sum, word};
use crate::reply::text_of;
use crate::said_words::{kind_word, line_word, phase_word, state_word, status_word};
use kb_base::NoMemory;
use kb_book::{AccountView, InvoiceView, ItemView, PaymentView, SubscriptionView, View};
use kb_catalog::PhaseType;
use kb_credit::Line;
use kb_days::{Day, Name, Reach};
use std::alloc::Global;

/// What is shown.
pub(crate) fn view_text(alloc: Global, view: &View) -> Result<Vec<u8>, NoMemory>
    ensures { IfOk result (λ text. IsTextOf (view_json view.now) text.items) }
{
    match view {
        View::Account(account) => account_text(alloc, account),
        View::Invoice(invoice) => invoice_text(alloc, invoice),
        View::Payment(payment) => payment_text(alloc, payment),
        View::Subscription(subscription) => subscription_text(alloc, subscription),
    }
}

/// An account.
fn account_text(alloc: Global, view: &AccountView) -> Result<Vec<u8>, NoMemory>
    ensures { IfOk result (λ text. IsTextOf (account_json view.now) text.items) }
{
    let rows = [
        ("status", word("ok")),
        ("account", name(&view.account)),
        ("currency", currency(&view.currency)),
        ("billed", date_if(reach_of(view.billed))),
        ("charged", sum(&view.charged)),
        ("paid", sum(&view.paid)),
        ("credit", sum(&view.credit)),
        ("unpaid", sum(&view.unpaid)),
        ("overdue", overdue_field(&view.overdue)),
    ];
    text_of(alloc, &rows)
}

/// The day of a date that may be absent.
fn reach_of(day: Option<Day>) -> Option<Reach>
    ensures { result ≡ day }
{
    match day {
        None => None,
        Some(day) => Some(day.reach()),
    }
}

/// The name of an overdue state: `CLEAR` for none.
fn overdue_field(state: &Option<Name>) -> Field<'_>
    ensures { field_json result ≡ word (unwrap_or state.now (codes "CLEAR")) }
{
    match state {
        None => Field::Word("CLEAR"),
        Some(name) => Field::Name(name),
    }
}

/// An invoice.
#[tactic(auto, using(crate::proofs::TextsOf::texts))]
fn invoice_text(alloc: Global, view: &InvoiceView) -> Result<Vec<u8>, NoMemory>
    ensures { IfOk result (λ text. IsTextOf (invoice_json view.now) text.items) }
{
    let mut draft = Draft::new(alloc)?;
    write_head(alloc, &mut draft, view)?;
    write_items(alloc, &mut draft, view.items.as_slice())?;
    draft.end_object()?;
    Ok(draft.into_bytes())
}

/// An invoice up to its items.
fn write_head(alloc: Global, draft: &mut Draft, view: &InvoiceView) -> Result<(), NoMemory>
    ensures { OnOk result (draft.new ≡ draft.old ++ invoice_head view.now) }
{
    let rows = [
        ("status", word("ok")),
        ("invoice", count(u64::from(view.invoice))),
        ("day", date(view.day)),
        ("total", sum(&view.total)),
        ("balance", sum(&view.balance)),
    ];
    draft.begin_object()?;
    draft.members(alloc, &rows)?;
    draft.name("items")?;
    Ok(())
}

/// The items of an invoice.
fn write_items(alloc: Global, draft: &mut Draft, items: &[ItemView]) -> Result<(), NoMemory>
    ensures { OnOk result (draft.new ≡ draft.old ++ json_tokens (array_of (map item_json items.now))) }
{
    draft.begin_array()?;
    write_each(alloc, draft, items)?;
    draft.end_array()?;
    Ok(())
}

/// Items, one after another.
fn write_each(alloc: Global, draft: &mut Draft, items: &[ItemView]) -> Result<(), NoMemory>
    ensures { OnOk result (draft.new ≡ draft.old ++ values_tokens (map item_json items.now)) }
{
    for item in items {
        write_item(alloc, draft, item)?;
    }
    Ok(())
}

/// An item of an invoice.
fn write_item(alloc: Global, draft: &mut Draft, item: &ItemView) -> Result<(), NoMemory>
    ensures { OnOk result (draft.new ≡ draft.old ++ json_tokens (item_json item.now)) }
{
    let amount = item.line.amount();
    let rows = [
        ("item", count(item.item)),
        ("kind", word(line_word(&item.line))),
        ("subscription", name_if(&item.subscription)),
        ("from", date_if(from_of(&item.line))),
        ("to", date_if(to_of(&item.line))),
        ("amount", sum(&amount)),
        ("repairs", count_if(repaired_by(&item.line))),
    ];
    draft.object(alloc, &rows)
}

/// The first day of an item.
fn from_of(line: &Line) -> Option<Reach>
    ensures { result ≡ from_of line.now }
{
    match line {
        Line::Bill { from, .. } | Line::Repair { from, .. } => Some(*from),
        _ => None,
    }
}

/// The day after the last one of an item.
fn to_of(line: &Line) -> Option<Reach>
    ensures { result ≡ to_of line.now }
{
    match line {
        Line::Bill { to, .. } | Line::Repair { to, .. } => Some(*to),
        _ => None,
    }
}

/// The number of the item of which one takes back.
fn repaired_by(line: &Line) -> Option<u64>
    ensures { result ≡ repaired_by line.now }
{
    match line {
        Line::Repair { of, .. } => Some(*of),
        _ => None,
    }
}

/// A payment.
fn payment_text(alloc: Global, view: &PaymentView) -> Result<Vec<u8>, NoMemory>
    ensures { IfOk result (λ text. IsTextOf (payment_json view.now) text.items) }
{
    let rows = [
        ("status", word("ok")),
        ("payment", name(&view.payment)),
        ("kind", word(kind_word(view.kind))),
        ("invoice", count(u64::from(view.invoice))),
        ("amount", count(view.amount)),
        ("state", word(status_word(view.status))),
    ];
    text_of(alloc, &rows)
}

/// A subscription.
fn subscription_text(alloc: Global, view: &SubscriptionView) -> Result<Vec<u8>, NoMemory>
    ensures { IfOk result (λ text. IsTextOf (subscription_json view.now) text.items) }
{
    let rows = [
        ("status", word("ok")),
        ("subscription", name(&view.subscription)),
        ("bundle", name(&view.bundle)),
        ("day", date(view.day)),
        ("state", word(state_word(view.state))),
        ("plan", name_if(&view.plan)),
        ("phase", phase_field(view.phase)),
        ("charged_through", date_if(view.charged_through)),
    ];
    text_of(alloc, &rows)
}

/// The word of a type of phase, if there is one.
fn phase_field(phase: Option<PhaseType>) -> Field<'static>
    ensures { field_json result ≡ or_null word (option_map phase_word phase) }
{
    match phase {
        None => Field::Nothing,
        Some(phase) => Field::Word(phase_word(phase)),
    }
}
