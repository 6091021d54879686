//! Accounts of rows, and what is held of them.

use crate::account::Account;
use crate::fault::SampleFault;
use crate::read::catalog;
use crate::step::Step;
use kb_catalog::Catalog;
use std::alloc::Global;

/// An account: the texts of its catalog's versions, its cycle day (1 to 31) and its steps; and what is held
/// of it.
pub struct Case<H> {
    /// The texts of the versions, oldest first.
    pub texts: &'static [&'static str],
    /// The cycle day.
    pub bcd: u32,
    /// What is done on the account, in order.
    pub steps: &'static [Step],
    /// What is held of it.
    pub held: H,
}

impl<H> Case<H> {
    /// The catalog of its versions.
    pub fn catalog(&self, alloc: Global) -> Result<Catalog, SampleFault> {
        catalog(alloc, self.texts)
    }

    /// The account of its steps on a catalog. A step that is refused is a fault.
    pub fn account(&self, alloc: Global, catalog: &Catalog) -> Result<Account, SampleFault> {
        Account::of(alloc, catalog, self.steps)
    }
}
