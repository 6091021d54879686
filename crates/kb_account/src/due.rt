//! What an account asks for by itself.
ghost use Rattle.std.specs.Prelude.{◌≡◌, ◌≤◌, IfOk, IfSome};
ghost use Rattle.kb_days.specs.Names.{IsName};
ghost use Rattle.kb_book.specs.Edits as told;
ghost use Rattle.kb_book.specs.Inner as inner;
ghost use Rattle.kb_book.specs.NextDues.{next_due};
ghost use Rattle.kb_account.specs.Private.States.{value_of};

use crate::state::State;
use crate::world::World;
use kb_base::NoMemory;
use kb_blocking::MAX_STATES;
use kb_codec::{Auto, Command, InvoiceNo, Overdue};
use kb_days::{Day, Name, text};
use kb_edits as edits;
use std::alloc::Global;

impl State {
    /// Whether an overdue transition is due.
    pub fn is_transition_due(&self, world: &World, today: Day) -> bool
        ensures { result ≡ inner.is_transition_due world.now.states self.now.invoices self.now.transition
            self.now.overdue today }
    {
        edits::is_transition_due(
            &world.overdue,
            &self.invoices,
            self.transition,
            self.overdue,
            today,
        )
    }

    /// The invoice whose automatic payment is due.
    #[tactic(auto, using(crate::proofs::DueInvoices::due_first))]
    pub fn invoice_due(&self, today: Day) -> Option<u32>
        ensures due { result ≡ inner.invoice_due self.now.autopay (value_of self.now).payments
            self.now.invoices today }
        ensures first { IfSome result (λ invoice. 1 ≤ invoice) }
    {
        edits::invoice_due(self.autopay, &self.payments, &self.invoices, today)
    }

    /// The command that is due: a transition, unless no blocking state may be added, or else an automatic
    /// payment.
    pub fn next_due(&self, world: &World, today: Day) -> Option<Command>
        ensures { result ≡ next_due world.now (value_of self.now) today }
    {
        let account = self.account;
        if self.is_transition_due(world, today) {
            if MAX_STATES <= self.blocks.states().len() {
                return None;
            }
            return Some(Command::Overdue(Overdue { account }));
        }
        match self.invoice_due(today) {
            None => None,
            Some(number) => Some(payment_of(account, number)),
        }
    }
}

/// The automatic payment of an invoice.
fn payment_of(account: Name, invoice: u32) -> Command
    requires first { 1 ≤ invoice }
    ensures { result ≡ Command.Auto (record { account = account; invoice = invoice }) }
{
    let invoice = InvoiceNo::new(invoice).unwrap();
    Command::Auto(Auto { account, invoice })
}

/// The payment key of the automatic payment of an invoice on a day.
#[tactic(auto, using(crate::proofs::AutoKeyNames::key_named))]
pub fn auto_key(alloc: Global, invoice: u32, day: Day) -> Result<Name, NoMemory>
    ensures { IfOk result (λ key. key ≡ told.auto_key invoice day) }
{
    let mut bytes = Vec::new(alloc);
    bytes.extend_from_slice(b"auto-")?;
    bytes.extend_from_slice(invoice.to_string(alloc)?.as_bytes())?;
    bytes.push(b'-')?;
    bytes.extend_from_slice(&text(day.reach()))?;
    Ok(named(&bytes))
}

/// The name of these bytes.
fn named(bytes: &[u8]) -> Name
    requires named { IsName bytes.now }
    ensures { result ≡ bytes.now }
{
    Name::new(bytes).unwrap()
}
