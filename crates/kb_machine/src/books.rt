//! The books of accounts, by name.
ghost use Rattle.std.specs.Prelude.{◌≡◌, ◌<◌, ◌^◌, [], length, option_copied, IsSome, IfOk, OnOk, OnErr};
ghost use Rattle.std.specs.Prelude.{None, map, List, ℕ};
ghost use Rattle.std.specs.List.{AllPairs};
ghost use Rattle.std.specs.FinMap.{find, put};
ghost use Rattle.kb_sharing.specs.Keys.{by_words};
ghost use Rattle.kb_book.specs.Books.{BookValue, Keyed};

use kb_account::{Book, Next};
use kb_base::NoMemory;
use kb_book::Answer;
use kb_days::Name;
use std::alloc::Global;
use std::collections::BTreeMap;
use std::marker::Model;

/// The books of accounts. Contracts see them as a list by name.
#[derive(Drop)]
pub struct Books {
    by_name: BTreeMap<Name, Book>,
}

impl Model for Books {
    ghost use Rattle.kb_book.specs.Books.{BookValue, Keyed};

    ghost Value = { Keyed BookValue };

    ghost view = { λ books. books.by_name.entries };
}

impl Books {
    /// No book.
    pub fn new(alloc: Global) -> Books
        ensures { result ≡ [] }
    {
        Books {
            by_name: BTreeMap::new(alloc),
        }
    }

    /// How many accounts there are.
    pub fn len(&self) -> usize
        ensures count { result ≡ length self.now }
        ensures small { result < 2 ^ 63 }
    {
        self.by_name.len()
    }

    /// The book of an account, if it is there.
    #[tactic(auto, using(crate::proofs::NamedBooks::lookup_find))]
    pub fn get(&self, account: &Name) -> Option<&Book>
        ensures { option_copied result ≡ find by_words account.now self.now }
    {
        self.by_name.get(account)
    }

    /// Adds the book of an account, or takes the place of the one before. Out of memory, the books are as
    /// they were.
    #[tactic(auto, using(crate::proofs::NamedBooks::insert_put))]
    pub fn insert(&mut self, account: Name, book: Book) -> Result<(), NoMemory>
        ensures ok { OnOk result (self.new ≡ put by_words account book self.old) }
        ensures err { OnErr result (self.new ≡ self.old) }
    {
        match self.by_name.insert(account, book) {
            Ok(_) => Ok(()),
            Err(_) => Err(NoMemory),
        }
    }

    /// Takes out the book that was added for a new account.
    pub fn remove(&mut self, account: &Name)
        ensures { (before : Keyed BookValue) (book : BookValue) → find by_words account.now before ≡ None
            → self.old ≡ put by_words account.now book before → self.new ≡ before }
    {
        let _book = self.by_name.remove(account);
    }

    /// The names of the accounts, in their order. None is there twice.
    pub fn names(&self, alloc: Global) -> Result<Vec<Name>, NoMemory>
        ensures names { IfOk result (λ names. names.items ≡ map (λ entry. entry.0) self.now) }
        ensures apart { IfOk result (λ names. AllPairs (λ (one other : List ℕ). one ≡ other → ⊥)
            names.items) }
    {
        let mut names = Vec::with_capacity(alloc, self.len())?;
        for name in self.by_name.keys() {
            names.push(*name)?;
        }
        Ok(names)
    }

    /// Takes what the book of an account prepared, and gives its answer. It takes no memory.
    #[tactic(auto, using(crate::proofs::NamedBooks::lookup_find, crate::proofs::NamedBooks::written_book))]
    pub fn commit(&mut self, account: &Name, next: Next) -> Answer
        requires there { IsSome (find by_words account.now self.old) }
        ensures book { self.new ≡ put by_words account.now next.book self.old }
        ensures answer { result ≡ next.answer }
    {
        let book = self.by_name.get_mut(account).unwrap();
        book.commit(next)
    }
}
