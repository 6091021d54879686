//! `arrears`: which accounts owe an invoice.
ghost use Rattle.std.specs.Prelude.{◌≡◌, ◌++◌, codes, unwrap_or, OnOk};
ghost use Rattle.kb_reports.specs.ReportLines.{arrears_line, arrears_of};
ghost use Rattle.kb_reports.specs.Private.Fields.{field_bytes};

use crate::line::{Field, push_line};
use crate::report::Report;
use kb_account::{Book, Sums, World};
use kb_base::NoMemory;
use kb_days::Name;
use std::alloc::Global;

/// Of each account that owes an invoice, its overdue state, how many invoices are unpaid, what it owes, and
/// the day of the earliest of them.
#[derive(Clone, Copy, Debug, Drop)]
pub struct Arrears;

impl Report for Arrears {
    ghost said = { λ report. arrears_of };

    fn say(
        &self,
        alloc: Global,
        text: &mut Vec<u8>,
        account: &Name,
        world: &World,
        book: &Book,
    ) -> Result<(), NoMemory> {
        push_arrears(text, account, &book.sums())
    }
}

/// Adds the line of an account that owes an invoice, and none of one that doesn't.
fn push_arrears(text: &mut Vec<u8>, account: &Name, sums: &Sums) -> Result<(), NoMemory>
    ensures { OnOk result (text.new.items
        ≡ text.old.items ++ arrears_line account.now sums.now sums.now.earliest) }
{
    match sums.earliest {
        None => Ok(()),
        Some(day) => push_line(
            text,
            account,
            &[
                overdue_field(&sums.overdue),
                Field::Count(sums.unpaid_count),
                Field::Sum(sums.unpaid),
                Field::Day(day),
            ],
        ),
    }
}

/// The overdue state, by its name.
fn overdue_field(state: &Option<Name>) -> Field<'_>
    ensures { field_bytes result ≡ unwrap_or state.now (codes "CLEAR") }
{
    match state {
        None => Field::Word("CLEAR"),
        Some(name) => Field::Name(name),
    }
}
