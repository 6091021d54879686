//! What an account asks for by itself.
ghost use Rattle.std.specs.Prelude.{◌≡◌, option_copied};
ghost use Rattle.kb_book.specs.Inner as told;

use kb_credit::Invoices;
use kb_days::{Day, Name};
use kb_overdue::{Arrears, Config, OverdueState, state_on};
use kb_payment::Payments;

/// The overdue state of a day by what is unpaid. None is CLEAR. It takes no memory.
pub fn overdue_state<'a>(
    config: &'a Config,
    invoices: &Invoices,
    day: Day,
) -> Option<&'a OverdueState>
    ensures { option_copied result ≡ told.state_of config.now invoices.now day }
{
    let place = state_on(config, &arrears_of(invoices), day)?;
    config.states().get(place as usize)
}

/// What an account owes.
fn arrears_of(invoices: &Invoices) -> Arrears
    ensures { result ≡ told.arrears_of invoices.now }
{
    Arrears {
        earliest: invoices.earliest_unpaid(),
        count: invoices.unpaid_count(),
        total: invoices.unpaid(),
    }
}

/// Whether an overdue transition is due: the state of today isn't the present one, whose name this is, and
/// the last transition was before today. It takes no memory.
pub fn is_transition_due(
    config: &Config,
    invoices: &Invoices,
    transition: Option<Day>,
    overdue: Option<Name>,
    today: Day,
) -> bool
    ensures { result ≡ told.is_transition_due config.now invoices.now transition overdue today }
{
    is_after(transition, today) && !same_name(overdue_state(config, invoices, today), overdue)
}

/// Whether a day is after that of the last transition, if there was one.
fn is_after(last: Option<Day>, day: Day) -> bool
    ensures { result ≡ told.is_after last day }
{
    match last {
        None => true,
        Some(last) => last < day,
    }
}

/// Whether a state has this name, or there is neither.
fn same_name(state: Option<&OverdueState>, name: Option<Name>) -> bool
    ensures { result ≡ told.same_name (told.state_name (option_copied state.entry)) name }
{
    match (state, name) {
        (None, None) => true,
        (Some(state), Some(name)) => state.name == name,
        _ => false,
    }
}

/// The invoice whose automatic payment is due: where invoices are paid by themselves, the lowest unpaid one
/// on which no purchase is open and that has no automatic attempt of today or later. It takes no memory.
pub fn invoice_due(
    autopay: bool,
    payments: &Payments,
    invoices: &Invoices,
    today: Day,
) -> Option<u32>
    ensures { result ≡ told.invoice_due autopay payments.now invoices.now today }
{
    if autopay {
        invoice_to_pay(payments, invoices, today)
    } else {
        None
    }
}

/// The lowest unpaid invoice that may be paid today.
fn invoice_to_pay(payments: &Payments, invoices: &Invoices, today: Day) -> Option<u32>
    ensures { result ≡ told.invoice_to_pay payments.now invoices.now today }
{
    let mut last = 0;
    while let Some(invoice) = invoices.next_unpaid(last) {
        if may_be_paid(payments, invoice, today) {
            return Some(invoice);
        }
        last = invoice;
    }
    None
}

/// Whether an automatic payment of an invoice may be made today.
fn may_be_paid(payments: &Payments, invoice: u32, today: Day) -> bool
    ensures { result ≡ told.may_be_paid payments.now today invoice }
{
    !payments.has_open_purchase(invoice) && !payments.has_automatic_since(invoice, today)
}
