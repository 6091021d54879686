//! `balances`: what each account was charged and has paid.
ghost use Rattle.kb_reports.specs.ReportLines.{balances_of};

use crate::line::{Field, push_line};
use crate::report::Report;
use kb_account::{Book, World};
use kb_base::NoMemory;
use kb_days::Name;
use std::alloc::Global;

/// Of each account, what it was charged, what it has paid, its credit, and what it owes.
#[derive(Clone, Copy, Debug, Drop)]
pub struct Balances;

impl Report for Balances {
    ghost said = { λ report. balances_of };

    fn say(
        &self,
        alloc: Global,
        text: &mut Vec<u8>,
        account: &Name,
        world: &World,
        book: &Book,
    ) -> Result<(), NoMemory> {
        let sums = book.sums();
        push_line(
            text,
            account,
            &[
                Field::Sum(sums.charged),
                Field::Sum(sums.paid),
                Field::Sum(sums.credit),
                Field::Sum(sums.unpaid),
            ],
        )
    }
}
