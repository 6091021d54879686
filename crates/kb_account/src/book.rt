//! The book of an account.
ghost use Rattle.std.specs.Prelude.{◌≡◌, ℕ, List, [], pos, true, Some, None, Ok, IfOk, IfErr, IfSome};
ghost use Rattle.std.specs.FinMap.{entries, put};
ghost use Rattle.kb_sharing.specs.Keys.{by_words};
ghost use Rattle.kb_codec.specs.CommandBytes.{spelling};
ghost use Rattle.kb_codec.specs.Senders.{key_of};
ghost use Rattle.kb_days.specs.Calendar.{first_day, charged_days};
ghost use Rattle.kb_book.specs.Worlds.{WorldValue};
ghost use Rattle.kb_book.specs.Rows.{IsUnprepared, first_refusal};
ghost use Rattle.kb_book.specs.Steps as told;
ghost use Rattle.kb_book.specs.BilledBooks.{IsBilled, IsEven};
ghost use Rattle.kb_book.specs.AddedItems.{AddsFrom, GoOn};
ghost use Rattle.kb_book.specs.NextDues.{next_due};
ghost use Rattle.kb_account.specs.Prepares.{prepared_outcome, refusal_by, is_kept, is_kept_command, IfNew};
ghost use Rattle.kb_account.specs.Prepares.{is_opening, opening_book};

use crate::kept::Kept;
use crate::next::{Next, Prepared};
use crate::state::State;
use crate::world::World;
use kb_base::NoMemory;
use kb_blocking::Blocks;
use kb_book::{Answer, Unprepared};
use kb_codec::{Action, Command, OpenAccount};
use kb_credit::Invoices;
use kb_days::{Day, Name};
use kb_money::Currency;
use kb_payment::Payments;
use kb_sharing::SharedMap;
use kb_timeline::Timeline;
use std::alloc::Global;
use std::marker::Model;
use std::sync::Arc;

/// The book of one account: its subscriptions, what they are charged, its invoices and payments, and the
/// answers that it gave. Contracts see it as the definitions do.
pub struct Book {
    pub(crate) state: State,
}

impl Model for Book {
    ghost use Rattle.kb_book.specs.Books.{BookValue};
    ghost use Rattle.kb_book.specs.SoundBooks.{IsBook};
    ghost use Rattle.kb_account.specs.Private.States.{value_of};

    ghost Value = { BookValue };

    ghost view = { λ book. value_of book.state };

    ghost invariant = { λ book. IsBook (value_of book.state) };
}

impl Drop for Book {
    /// Drops all that it holds. No crate above has to show again how that is dropped.
    fn drop(self) {
        let Book { state: _state } = self;
    }
}

impl Book {
    /// The book of an account that is opened, and the answer to that command.
    pub fn first(alloc: Global, command: &Command) -> Result<(Book, Answer), NoMemory>
        requires opening { is_opening command.now ≡ true }
        ensures first { IfOk result (λ first. (world : WorldValue) (today : ℕ)
            → told.accepted_over world (opening_book command.now) today command.now first_day charged_days
            ≡ (first.1, first.0)) }
        ensures billed { IfOk result (λ first. (world : WorldValue) → IsBilled world first.0) }
        ensures even { IfOk result (λ first. (world : WorldValue) → IsEven world first.0) }
    {
        match command {
            Command::Act {
                account,
                key,
                action: Action::OpenAccount(open),
            } => match opened(alloc, command, *account, *key, open) {
                Ok(first) => Ok(first),
                Err(fault) => Err(fault),
            },
            _ => unreachable!(),
        }
    }

    /// What a command makes of the book on a day, and its answer; or the answer that was kept, if the command
    /// was accepted before. An `Err` is the first refusal, or comes if memory runs out, and changes nothing.
    /// If the book is known to be billed by these texts, a command that leaves what is due costs no look at
    /// it.
    pub fn prepare(
        &self,
        alloc: Global,
        world: &World,
        today: Day,
        command: &Command,
        billed: bool,
    ) -> Result<Prepared, Unprepared>
        requires known { billed ≡ true → IsBilled world.now self.now }
        ensures step { IfOk result (λ prepared. told.step world.now self.now today command.now
            ≡ Ok (prepared_outcome self.now prepared)) }
        ensures kept { IfOk result (λ prepared. is_kept prepared ≡ is_kept_command self.now command.now) }
        ensures refused { IfErr result (IsUnprepared (refusal_by
            (told.step world.now self.now today command.now))) }
        ensures billed { IfOk result (λ prepared. IfNew (λ book answer. IsBilled world.now book) prepared) }
        ensures even { IfOk result (λ prepared. IfNew (λ book answer. IsEven world.now book) prepared) }
        ensures added { IfOk result (λ prepared. (other : WorldValue) → IsBilled other self.now
            → IfNew (λ book answer. AddsFrom other world.now self.now book) prepared) }
        ensures behind { IfOk result (λ prepared. IfNew (λ book answer. GoOn self.now book) prepared) }
        ensures repeated { IfOk result (λ prepared. (key : List ℕ) → key_of command.now ≡ Some key
            → IfNew (λ book answer. (other : WorldValue) (tomorrow : ℕ)
            → told.step other book tomorrow command.now ≡ Ok (answer, book)) prepared) }
    {
        let kept = match self.state.kept_answer(alloc, command) {
            Ok(kept) => kept,
            Err(fault) => return Err(fault),
        };
        match kept {
            Some(answer) => return Ok(Prepared::Kept(answer)),
            None => {}
        }
        match self.state.accept(alloc, world, today, command, billed) {
            Ok(next) => Ok(Prepared::Next(next)),
            Err(fault) => Err(fault),
        }
    }

    /// Takes the book that was prepared from this one, and gives its answer. It takes no memory.
    pub fn commit(&mut self, next: Next) -> Answer
        ensures book { self.new ≡ next.book }
        ensures answer { result ≡ next.answer }
    {
        *self = next.book;
        next.answer
    }

    /// The command that is due by itself on a day: an overdue transition, or else an automatic payment. None
    /// if nothing is due, or the limit of blocking states refuses a transition that is. It takes no memory.
    pub fn due_next(&self, world: &World, today: Day) -> Option<Command>
        ensures due { result ≡ next_due world.now self.now today }
        ensures allowed { IfSome result (λ command. first_refusal
            (told.rows_of world.now self.now today command)
            ≡ None) }
    {
        match self.state.next_due(world, today) {
            None => None,
            Some(command) => Some(command),
        }
    }

    /// The name of the account.
    pub fn account(&self) -> Name
        ensures { result ≡ self.now.account }
    {
        self.state.account
    }

    /// The currency of the account.
    pub fn currency(&self) -> Currency
        ensures { result ≡ self.now.currency }
    {
        self.state.currency
    }

    /// The payments of the account.
    pub fn payments(&self) -> &Payments
        ensures { result.now ≡ self.now.payments }
    {
        &self.state.payments
    }
}

/// The book of an account that is opened.
fn opened(
    alloc: Global,
    command: &Command,
    account: Name,
    key: Name,
    asked: &OpenAccount,
) -> Result<(Book, Answer), NoMemory>
    requires opening { command.now ≡ Command.Act account key (Action.OpenAccount asked.now) }
    ensures first { IfOk result (λ first. (world : WorldValue) (today : ℕ)
        → told.accepted_over world (opening_book command.now) today command.now first_day charged_days
        ≡ (first.1, first.0)) }
    ensures billed { IfOk result (λ first. (world : WorldValue) → IsBilled world first.0) }
    ensures even { IfOk result (λ first. (world : WorldValue) → IsEven world first.0) }
{
    let answer = first_answer();
    let kept = first_kept(alloc, command, key, answer)?;
    let no_timeline = Timeline::new(alloc);
    let no_blocks = Blocks::new(alloc);
    let no_payments = Payments::new(alloc);
    let no_charges = Vec::new(alloc);
    let timeline = Arc::new(alloc, no_timeline)?;
    let blocks = Arc::new(alloc, no_blocks)?;
    let payments = Arc::new(alloc, no_payments)?;
    let charges = Arc::new(alloc, no_charges)?;
    let invoices = Invoices::new(alloc);
    let state = State {
        account,
        currency: asked.currency,
        bcd: asked.bcd,
        autopay: asked.autopay,
        timeline,
        blocks,
        billed: None,
        beside: 0,
        payments,
        invoices,
        charges,
        overdue: None,
        transition: None,
        commands: 1,
        kept,
    };
    Ok((Book { state }, answer))
}

/// The answer to the command that opens an account.
fn first_answer() -> Answer
    ensures { result ≡ record { command = 1; invoice = None; total = pos 0; credit = pos 0; unpaid = pos 0 } }
{
    Answer {
        command: 1,
        invoice: None,
        total: 0,
        credit: 0,
        unpaid: 0,
    }
}

/// That command and its answer, kept.
#[tactic(auto, using(crate::proofs::KeptEntries::kept_first))]
fn first_kept(
    alloc: Global,
    command: &Command,
    key: Name,
    answer: Answer,
) -> Result<SharedMap<Name, Kept>, NoMemory>
    ensures { IfOk result (λ kept. entries kept
        ≡ put by_words key (record { spelling = spelling command.now; answer = answer }) []) }
{
    let none = SharedMap::new();
    let kept = none.with(alloc, key, Kept::new(alloc, command, answer)?)?;
    Ok(kept)
}
