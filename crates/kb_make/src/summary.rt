//! The text of a summary.
ghost use Rattle.std.specs.Prelude.{◌≡◌, ◌++◌, decimal, IfOk, OnOk};
ghost use Rattle.std.specs.Fmt.{signed_decimal};
ghost use Rattle.kb_make.specs.Summaries.{summary_text};
ghost use Rattle.kb_make.specs.Private.Lines.{counts_text, sums_text, balances_text};

use crate::totals::Totals;
use kb_base::{NoMemory, push};
use std::alloc::Global;

/// What all accounts add up to, and how many commands were refused, as a line.
pub(crate) fn summary_text(
    alloc: Global,
    totals: &Totals,
    refused: u64,
) -> Result<Vec<u8>, NoMemory>
    ensures { IfOk result (λ text. text.items ≡ summary_text totals.now refused) }
{
    let mut text = Vec::new(alloc);
    push_counts(&mut text, totals, refused)?;
    push_sums(&mut text, totals)?;
    push_balances(&mut text, totals)?;
    push(&mut text, b"\n")?;
    Ok(text)
}

/// Adds how many there are of each kind.
fn push_counts(text: &mut Vec<u8>, totals: &Totals, refused: u64) -> Result<(), NoMemory>
    ensures { OnOk result (text.new.items ≡ text.old.items ++ counts_text totals.now refused) }
{
    push_count(text, b"accounts ", totals.accounts)?;
    push_count(text, b" commands ", totals.commands)?;
    push_count(text, b" refused ", refused)?;
    push_count(text, b" invoices ", totals.invoices)
}

/// Adds what was charged and paid.
fn push_sums(text: &mut Vec<u8>, totals: &Totals) -> Result<(), NoMemory>
    ensures { OnOk result (text.new.items ≡ text.old.items ++ sums_text totals.now) }
{
    push_sum(text, b" charged ", totals.charged)?;
    push_sum(text, b" paid ", totals.paid)
}

/// Adds what is left of it.
fn push_balances(text: &mut Vec<u8>, totals: &Totals) -> Result<(), NoMemory>
    ensures { OnOk result (text.new.items ≡ text.old.items ++ balances_text totals.now) }
{
    push_sum(text, b" credit ", totals.credit)?;
    push_sum(text, b" unpaid ", totals.unpaid)
}

/// Adds a word, and how many there are of what it names.
fn push_count(text: &mut Vec<u8>, word: &[u8], count: u64) -> Result<(), NoMemory>
    ensures { OnOk result (text.new.items ≡ text.old.items ++ (word.now ++ decimal count)) }
{
    push(text, word)?;
    kb_base::push_count(text, count)
}

/// Adds a word, and a sum in minor units.
fn push_sum(text: &mut Vec<u8>, word: &[u8], sum: i128) -> Result<(), NoMemory>
    ensures { OnOk result (text.new.items ≡ text.old.items ++ (word.now ++ signed_decimal sum)) }
{
    push(text, word)?;
    kb_base::push_sum(text, sum)
}
