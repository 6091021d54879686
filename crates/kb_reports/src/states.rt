//! `states`: how each subscription stands on a day.
ghost use Rattle.std.specs.Prelude.{◌≡◌, ◌++◌, OnOk};
ghost use Rattle.kb_reports.specs.ReportLines.{states_line, states_lines, states_on};

use crate::line::{Field, push_line};
use crate::report::Report;
use kb_account::{Book, StateRow, World};
use kb_base::NoMemory;
use kb_days::{Day, Name};
use kb_json::state_word;
use std::alloc::Global;

/// Of each subscription of each account, its bundle, its name, and how it stands on a day.
#[derive(Clone, Copy, Debug, Drop)]
pub struct States {
    pub day: Day,
}

impl Report for States {
    ghost said = { λ report. states_on report.day };

    fn say(
        &self,
        alloc: Global,
        text: &mut Vec<u8>,
        account: &Name,
        world: &World,
        book: &Book,
    ) -> Result<(), NoMemory> {
        let rows = book.states(alloc, world, self.day)?;
        push_rows(text, account, &rows)
    }
}

/// Adds a line for each subscription of an account.
fn push_rows(text: &mut Vec<u8>, account: &Name, rows: &[StateRow]) -> Result<(), NoMemory>
    ensures { OnOk result (text.new.items ≡ text.old.items ++ states_lines account.now rows.now) }
{
    for row in rows {
        push_row(text, account, row)?;
    }
    Ok(())
}

/// Adds the line of a subscription.
fn push_row(text: &mut Vec<u8>, account: &Name, row: &StateRow) -> Result<(), NoMemory>
    ensures { OnOk result (text.new.items ≡ text.old.items ++ states_line account.now row.now) }
{
    push_line(
        text,
        account,
        &[
            Field::Name(&row.bundle),
            Field::Name(&row.subscription),
            Field::Word(state_word(row.state)),
        ],
    )
}
