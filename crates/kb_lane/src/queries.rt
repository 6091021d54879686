//! What a lane tells of its accounts.
ghost use Rattle.std.specs.Prelude.{◌≡◌, Ok, IfOk, IfErr, List, ℕ, map};
ghost use Rattle.std.specs.List.{AllPairs};
ghost use Rattle.kb_book.specs.Rows.{IsUnprepared};
ghost use Rattle.kb_account.specs.Prepares.{refusal_by};
ghost use Rattle.kb_lane.specs.Lanes.{machine_of};
ghost use Rattle.kb_lane.specs.Reading.{view_of, asked_account};

use crate::lane::Lane;
use kb_base::NoMemory;
use kb_book::{Query, Refusal, Unprepared, View};
use kb_days::{Day, Name};
use kb_disk::Disk;
use kb_gateway::Gateway;
use std::alloc::Global;

impl<D: Disk, G: Gateway + Drop> Lane<D, G> {
    /// The names of the accounts, in their order. None is there twice.
    pub fn names(&self, alloc: Global) -> Result<Vec<Name>, NoMemory>
        ensures names { IfOk result (λ names. names.items
            ≡ map (λ entry. entry.0) (machine_of self.now).books) }
        ensures apart { IfOk result (λ names. AllPairs (λ (one other : List ℕ). one ≡ other → ⊥)
            names.items) }
    {
        self.machine.books().names(alloc)
    }

    /// The answer to a query on a day, which is that of the account's book. Refused if there is no such
    /// account (`NoAccount`), or as the book refuses it.
    pub fn read(&self, alloc: Global, today: Day, query: &Query) -> Result<View, Unprepared>
        ensures shown { IfOk result (λ view. view_of (machine_of self.now) today query.now ≡ Ok view) }
        ensures refused { IfErr result (IsUnprepared (refusal_by
            (view_of (machine_of self.now) today query.now))) }
    {
        match self.machine.books().get(&account_asked(query)) {
            Some(book) => book.view(alloc, self.machine.world(), today, query),
            None => Err(Unprepared::Refused(Refusal::NoAccount)),
        }
    }
}

/// The account that a query is on.
pub fn account_asked(query: &Query) -> Name
    ensures { result ≡ asked_account query.now }
{
    match *query {
        Query::Account(account) => account,
        Query::Invoice(account, _) => account,
        Query::Payment(account, _) => account,
        Query::Subscription(account, _, _) => account,
    }
}
