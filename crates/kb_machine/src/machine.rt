//! The machine, and what it plans for a command.
ghost use Rattle.std.specs.Prelude.{◌≡◌, ◌↔◌, true, IfOk, IfErr, IfSome, OnOk, OnErr, [], None, Some};
ghost use Rattle.kb_book.specs.Books.{BookValue};
ghost use Rattle.kb_book.specs.Rows.{IsUnprepared};
ghost use Rattle.kb_book.specs.declared.reply.LaneReply.TheVariants as replies;
ghost use Rattle.kb_book.specs.BilledBooks.{IsBilled};
ghost use Rattle.kb_account.specs.Issues.{IsSettlement};
ghost use Rattle.kb_account.specs.Prepares.{is_opening};
ghost use Rattle.kb_machine.specs.Judged.{New, refusal_in, lifted};
ghost use Rattle.kb_machine.specs.Machines.{MachineValue, no_machine, judged, account_judged};
ghost use Rattle.kb_machine.specs.Machines.{book_of, with_book, book_judged};
ghost use Rattle.kb_codec.specs.Senders.{is_text, account_of};
ghost use Rattle.kb_machine.specs.Plans.{plan_judged, changed, change_reply, IsThere, IsDueIn, Fits};
ghost use Rattle.kb_machine.specs.Private.KnownBooks.{IsBilledOf};

use crate::account::account_of;
use crate::books::Books;
use crate::change::{Change, Opened, Planned};
use crate::due_book::DueBook;
use crate::kept_text::KeptText;
use kb_account::{Book, Prepared, World};
use kb_base::NoMemory;
use kb_book::{LaneReply, Refusal, Unprepared};
use kb_catalog::Catalog;
use kb_codec::{Action, Command};
use kb_days::{Day, Name};
use kb_overdue::Config;
use kb_sharing::SharedMap;
use std::alloc::Global;
use std::marker::Model;

/// The most accounts that a machine has.
pub const MAX_ACCOUNTS: usize = 100_000;

/// The texts of a shop and the books of its accounts. Contracts see it as the definitions do.
pub struct Machine {
    pub(crate) world: World,
    pub(crate) catalogs: SharedMap<Name, KeptText>,
    pub(crate) overdues: SharedMap<Name, KeptText>,
    books: Books,
    /// The account whose book is known to be billed by the texts: the last one that changed, unless the
    /// texts did since.
    billed: Option<Name>,
}

impl Model for Machine {
    ghost use Rattle.std.specs.FinMap.{entries};
    ghost use Rattle.kb_machine.specs.Machines.{MachineValue};
    ghost use Rattle.kb_machine.specs.Private.KnownBooks.{IsKnown};

    ghost Value = { MachineValue };

    ghost view = { λ machine. record {
      texts = record {
        world = machine.world;
        catalogs = entries machine.catalogs;
        overdues = entries machine.overdues;
      };
      books = machine.books;
    } };

    ghost invariant = { λ machine. IsKnown machine.world machine.books machine.billed };
}

impl Drop for Machine {
    /// Drops all that it holds. No crate above has to show again how that is dropped.
    fn drop(self) {
        let Machine {
            world: _world,
            catalogs: _catalogs,
            overdues: _overdues,
            books: _books,
            billed: _billed,
        } = self;
    }
}

impl Machine {
    /// A machine before any command.
    #[tactic(auto, using(crate::proofs::KeptTexts::none_kept))]
    pub fn new(alloc: Global) -> Machine
        ensures { result ≡ no_machine }
    {
        Machine {
            world: World {
                catalog: Catalog::new(alloc),
                overdue: no_states(alloc),
            },
            catalogs: SharedMap::new(),
            overdues: SharedMap::new(),
            books: Books::new(alloc),
            billed: None,
        }
    }

    /// What is planned for a command that comes on a day. An `Err` is the first refusal, or comes if memory
    /// runs out. Nothing is changed.
    pub fn prepare(
        &self,
        alloc: Global,
        today: Day,
        command: &Command,
    ) -> Result<Planned, Unprepared>
        ensures judged { IfOk result (λ planned. judged self.now today command.now
            ≡ plan_judged self.now planned) }
        ensures fits { IfOk result (Fits self.now) }
        ensures refused { IfErr result (IsUnprepared (refusal_in (judged self.now today command.now))) }
    {
        match account_of(command) {
            Some(account) => self.plan_account(alloc, today, command, account),
            None => self.plan_text(alloc, today, command),
        }
    }

    /// The book of an account, and the items that bring it up to what is due, as it stands. None comes if it
    /// isn't there, or memory runs out.
    pub fn due_book(&self, alloc: Global, account: &Name) -> Option<DueBook<'_>>
        ensures { IfSome result (IsDueIn self.now account.now) }
    {
        let billed = self.is_billed(account);
        let book = self.books.get(account)?;
        match book.issue(alloc, &self.world, billed) {
            Ok(issue) => Some(DueBook { book, issue }),
            Err(_) => None,
        }
    }

    /// What a settlement changes, as `prepare` plans it; the book of its account is at hand, with the items
    /// that are due. None comes if it is refused, or memory runs out.
    pub fn prepare_settlement(
        &self,
        alloc: Global,
        today: Day,
        command: &Command,
        account: Name,
        due: &DueBook,
    ) -> Option<Change>
        requires settlement { IsSettlement command.now }
        requires named { account ≡ account_of command.now }
        requires due { IsDueIn self.now account due.now }
        ensures judged { IfSome result (λ change. judged self.now today command.now
            ≡ New (change_reply change) (changed self.now change)) }
        ensures there { IfSome result (IsThere self.now) }
    {
        let DueBook { book, issue } = due;
        match book.prepare_settlement(alloc, &self.world, today, command, issue) {
            Ok(next) => Some(Change::Book { account, next }),
            Err(_) => None,
        }
    }

    /// Takes in a change that was planned for this machine as it stands, and gives the reply. It takes no
    /// memory.
    pub fn commit(&mut self, change: Change) -> LaneReply
        requires there { IsThere self.old change }
        ensures machine { self.new ≡ changed self.old change }
        ensures reply { result ≡ change_reply change }
    {
        match change {
            Change::Catalog {
                catalog,
                keys,
                number,
            } => {
                self.world.catalog = catalog;
                self.catalogs = keys;
                self.billed = None;
                LaneReply::Version(number)
            }
            Change::Overdue {
                config,
                keys,
                number,
            } => {
                self.world.overdue = config;
                self.overdues = keys;
                self.billed = None;
                LaneReply::States(number)
            }
            Change::Book { account, next } => {
                self.billed = Some(account);
                LaneReply::Accepted(self.books.commit(&account, next))
            }
        }
    }

    /// Adds an account that is opened. Out of memory, the machine is as it was.
    pub fn open(&mut self, account: Name, book: Book) -> Result<(), NoMemory>
        ensures ok { OnOk result (self.new ≡ with_book self.old account book) }
        ensures err { OnErr result (self.new ≡ self.old) }
    {
        self.billed = None;
        self.books.insert(account, book)
    }

    /// Takes out an account that was opened.
    pub fn take_back(&mut self, account: &Name)
        ensures { (before : MachineValue) (book : BookValue) → book_of before account.now ≡ None
            → self.old ≡ with_book before account.now book → self.new ≡ before }
    {
        self.billed = None;
        self.books.remove(account);
    }

    /// What the texts say.
    pub fn world(&self) -> &World
        ensures { result.now ≡ self.now.texts.world }
    {
        &self.world
    }

    /// The books of the accounts.
    pub fn books(&self) -> &Books
        ensures { result.now ≡ self.now.books }
    {
        &self.books
    }

    /// Whether the book of an account is known to be billed by the texts.
    fn is_billed(&self, account: &Name) -> bool
        ensures { result ≡ true → IsBilledOf self.now.texts.world (book_of self.now account.now) }
    {
        is_of(&self.billed, account)
    }

    /// What is planned for a command on an account.
    fn plan_account(
        &self,
        alloc: Global,
        today: Day,
        command: &Command,
        account: Name,
    ) -> Result<Planned, Unprepared>
        requires named { account ≡ account_of command.now }
        ensures judged { IfOk result (λ planned. account_judged self.now today command.now
            ≡ plan_judged self.now planned) }
        ensures fits { IfOk result (Fits self.now) }
        ensures refused { IfErr result (IsUnprepared (refusal_in
            (account_judged self.now today command.now))) }
    {
        match self.books.get(&account) {
            Some(book) => {
                let billed = self.is_billed(&account);
                planned_on(book, alloc, &self.world, today, command, account, billed)
            }
            None => self.plan_opening(alloc, today, command, account),
        }
    }

    /// What is planned for a command on an account that isn't there.
    #[tactic(auto, using(crate::proofs::Openings::opened_account))]
    fn plan_opening(
        &self,
        alloc: Global,
        today: Day,
        command: &Command,
        account: Name,
    ) -> Result<Planned, Unprepared>
        requires named { account ≡ account_of command.now }
        requires absent { book_of self.now account ≡ None }
        ensures judged { IfOk result (λ planned. account_judged self.now today command.now
            ≡ plan_judged self.now planned) }
        ensures fits { IfOk result (Fits self.now) }
        ensures refused { IfErr result (IsUnprepared (refusal_in
            (account_judged self.now today command.now))) }
    {
        if !is_opening(command) {
            return Err(Unprepared::Refused(Refusal::NoAccount));
        }
        if self.books.len() >= MAX_ACCOUNTS {
            return Err(Unprepared::Refused(Refusal::Limit {
                which: 1,
                limit: MAX_ACCOUNTS as u32,
            }));
        }
        let (book, answer) = Book::first(alloc, command)?;
        Ok(Planned::Opened(Opened {
            account,
            book,
            answer,
        }))
    }

    /// What is planned for a text.
    #[tactic(auto, using(crate::proofs::TextRefusals::refused_catalog, crate::proofs::TextRefusals::refused_overdue), unfolding(crate::specs::Machines::judged))]
    fn plan_text(&self, alloc: Global, today: Day, command: &Command) -> Result<Planned, Unprepared>
        requires text { is_text command.now ≡ true }
        ensures judged { IfOk result (λ planned. judged self.now today command.now
            ≡ plan_judged self.now planned) }
        ensures fits { IfOk result (Fits self.now) }
        ensures refused { IfErr result (IsUnprepared (refusal_in (judged self.now today command.now))) }
    {
        match command {
            Command::Catalog(text) => self.plan_catalog(alloc, command, text),
            Command::OverdueRules(text) => self.plan_overdue(alloc, command, text),
            _ => unreachable!(),
        }
    }
}

/// Whether a command opens an account.
fn is_opening(command: &Command) -> bool
    ensures { result ≡ is_opening command.now }
{
    match command {
        Command::Act { action, .. } => match action {
            Action::OpenAccount(_) => true,
            _ => false,
        },
        _ => false,
    }
}

/// What is planned for a command on an account that is there, and may be known to be billed.
fn planned_on(
    book: &Book,
    alloc: Global,
    world: &World,
    today: Day,
    command: &Command,
    account: Name,
    billed: bool,
) -> Result<Planned, Unprepared>
    requires known { billed ≡ true → IsBilled world.now book.now }
    ensures judged { IfOk result (λ planned. (machine : MachineValue) → machine.texts.world ≡ world.now
        → book_of machine account ≡ Some book.now → lifted replies.Accepted (with_book machine account)
        (book_judged world.now book.now today command.now) ≡ plan_judged machine planned) }
    ensures fits { IfOk result (λ planned. (machine : MachineValue) → machine.texts.world ≡ world.now
        → book_of machine account ≡ Some book.now → Fits machine planned) }
    ensures refused { IfErr result (IsUnprepared
        (refusal_in (book_judged world.now book.now today command.now))) }
{
    match book.prepare(alloc, world, today, command, billed)? {
        Prepared::Next(next) => Ok(Planned::Change(Change::Book { account, next })),
        Prepared::Kept(answer) => Ok(Planned::Again(LaneReply::Accepted(answer))),
    }
}

/// Whether this account is the one that is named, if one is.
fn is_of(named: &Option<Name>, account: &Name) -> bool
    ensures { (result ≡ true) ↔ (named.now ≡ Some account.now) }
{
    match named {
        Some(name) => name == account,
        None => false,
    }
}

/// No overdue states.
#[tactic(auto, using(crate::proofs::NoStates::are_states))]
fn no_states(alloc: Global) -> Config
    ensures { result ≡ [] }
{
    match Config::check(Vec::new(alloc)) {
        Ok(config) => config,
        Err(_) => unreachable!(),
    }
}
