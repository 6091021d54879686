//! A line of a report.
ghost use Rattle.std.specs.Prelude.{◌≡◌, ◌∷◌, ◌++◌, map, OnOk};
ghost use Rattle.kb_reports.specs.ReportLines.{tab, line_of};
ghost use Rattle.kb_reports.specs.Private.Fields.{field_bytes};

use kb_base::{NoMemory, push, push_count, push_sum};
use kb_days::{Day, Name, text};

/// A field of a line, behind the account.
#[derive(Clone, Copy)]
pub(crate) enum Field<'f> {
    Name(&'f Name),
    Word(&'f str),
    /// In minor units.
    Sum(i128),
    Count(u32),
    /// By its date.
    Day(Day),
}

/// Adds the line of an account.
pub(crate) fn push_line(
    text: &mut Vec<u8>,
    account: &Name,
    fields: &[Field],
) -> Result<(), NoMemory>
    ensures { OnOk result (text.new.items
        ≡ text.old.items ++ line_of account.now (map field_bytes fields.now)) }
{
    push(text, account.as_bytes())?;
    for field in fields {
        push_field(text, field)?;
    }
    push(text, b"\n")
}

/// Adds a tab, and a field behind it.
fn push_field(line: &mut Vec<u8>, field: &Field) -> Result<(), NoMemory>
    ensures { OnOk result (line.new.items ≡ line.old.items ++ (tab ∷ field_bytes field.now)) }
{
    push(line, b"\t")?;
    match field {
        Field::Name(name) => push(line, name.as_bytes()),
        Field::Word(word) => push(line, word.as_bytes()),
        Field::Sum(sum) => push_sum(line, *sum),
        Field::Count(count) => push_count(line, (*count).into()),
        Field::Day(day) => push(line, &text(day.reach())),
    }
}
