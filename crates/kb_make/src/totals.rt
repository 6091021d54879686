//! What the accounts of lanes add up to.
ghost use Rattle.std.specs.Prelude.{◌≡◌, ◌+◌, ◌+ℤ◌, map, FitsSigned, Some, IfOk};
ghost use Rattle.std.specs.Int.{w128};
ghost use Rattle.kb_book.specs.Books.{BookValue};
ghost use Rattle.kb_account.specs.Sums.{sums_of};
ghost use Rattle.kb_machine.specs.Machines.{book_of};
ghost use Rattle.kb_lane.specs.Lanes.{machine_of};
ghost use Rattle.kb_make.specs.Totals.{totals_of};
ghost use Rattle.kb_make.specs.Private.Adding.{no_totals, plus, plus_all, sums_in_lane};

use kb_account::Sums;
use kb_base::NoMemory;
use kb_days::Name;
use kb_disk::Disk;
use kb_gateway::Gateway;
use kb_lane::Lane;
use std::alloc::Global;

/// What accounts add up to. Sums are in minor units.
#[derive(Clone, Copy, Debug, PartialEq, Eq)]
pub struct Totals {
    /// How many accounts there are.
    pub accounts: u64,
    /// How many commands they accepted, inner ones included.
    pub commands: u64,
    /// How many invoices they have.
    pub invoices: u64,
    /// What all invoices total.
    pub charged: i128,
    /// What is paid on them.
    pub paid: i128,
    /// By how much payments exceed charges, account by account.
    pub credit: i128,
    /// What is unpaid of all invoices.
    pub unpaid: i128,
}

impl Totals {
    /// What all accounts of some lanes add up to. Sums past their type's end are told as want of memory; no
    /// lanes have so many accounts.
    pub fn of<D: Disk, G: Gateway + Drop>(
        alloc: Global,
        lanes: &[Lane<D, G>],
    ) -> Result<Totals, NoMemory>
        ensures { IfOk result (λ totals. totals ≡ totals_of (map machine_of lanes.now)) }
    {
        let mut totals = Totals::none();
        for lane in lanes {
            totals = totals.with_lane(alloc, lane)?;
        }
        Ok(totals)
    }

    /// Those of no account.
    fn none() -> Totals
        ensures { result ≡ no_totals }
    {
        Totals {
            accounts: 0,
            commands: 0,
            invoices: 0,
            charged: 0,
            paid: 0,
            credit: 0,
            unpaid: 0,
        }
    }

    /// With the accounts of a lane.
    fn with_lane<D: Disk, G: Gateway + Drop>(
        self,
        alloc: Global,
        lane: &Lane<D, G>,
    ) -> Result<Totals, NoMemory>
        ensures { IfOk result (λ totals. totals ≡ plus_all self (sums_in_lane (machine_of lane.now))) }
    {
        let mut totals = self;
        for account in &lane.names(alloc)? {
            totals = totals.with_account(lane, account)?;
        }
        Ok(totals)
    }

    /// With the account of a name, if it is there.
    fn with_account<D: Disk, G: Gateway + Drop>(
        self,
        lane: &Lane<D, G>,
        account: &Name,
    ) -> Result<Totals, NoMemory>
        ensures { IfOk result (λ totals. (book : BookValue)
            → book_of (machine_of lane.now) account.now ≡ Some book → totals ≡ plus self (sums_of book)) }
    {
        match lane.book(account) {
            Some(book) => self.plus(&book.sums()),
            None => Ok(self),
        }
    }

    /// With an account that adds up to this.
    fn plus(&self, sums: &Sums) -> Result<Totals, NoMemory>
        ensures { IfOk result (λ totals. totals ≡ plus self.now sums.now) }
    {
        Ok(Totals {
            accounts: counted(self.accounts, 1)?,
            commands: counted(self.commands, sums.commands)?,
            invoices: counted(self.invoices, sums.invoices.into())?,
            charged: summed(&self.charged, &sums.charged)?,
            paid: summed(&self.paid, &sums.paid)?,
            credit: summed(&self.credit, &sums.credit)?,
            unpaid: summed(&self.unpaid, &sums.unpaid)?,
        })
    }
}

/// Two numbers together.
fn counted(one: u64, other: u64) -> Result<u64, NoMemory>
    ensures { IfOk result (λ both. both ≡ one + other) }
{
    one.checked_add(other).ok_or(NoMemory)
}

/// Two sums together.
fn summed(one: &i128, other: &i128) -> Result<i128, NoMemory>
    ensures sum { IfOk result (λ both. both ≡ one.now +ℤ other.now) }
    ensures fits { IfOk result (λ both. FitsSigned w128 both) }
{
    one.checked_add(*other).ok_or(NoMemory)
}
