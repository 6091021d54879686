//! The two passes of levelling over open invoices.
ghost use Rattle.std.specs.Prelude.{◌≡◌, ◌+◌, ◌^◌, ◌≤◌, ◌<◌, ◌≤ℤ◌, ◌++◌, [], pos, nat_abs, IfOk, OnOk};
ghost use Rattle.std.specs.Int.{int_max};
ghost use Rattle.kb_credit.specs.Sizes.{size_of};
ghost use Rattle.kb_credit.specs.Private.Passes.{adjusting, made, taken, all_made, all_used};
ghost use Rattle.kb_credit.specs.Private.Passes.{with_all_made, still_open, level_adjustments};

use crate::adjustment::Adjustment;
use crate::open_invoice::{OpenInvoice, due, push_open};
use crate::sums::Sums;
use kb_base::{NoMemory, Seq};
use std::alloc::Global;

/// The adjustments of a levelling, and what is open then.
pub(crate) fn level_adjustments(
    alloc: Global,
    invoices: &[OpenInvoice],
    sums: &Sums,
) -> Result<(Vec<Adjustment>, Seq<OpenInvoice>), NoMemory>
    requires whole { pos 0 ≤ℤ sums.now.credit }
    requires bounded { nat_abs sums.now.credit + size_of (λ one. one.balance) invoices.now ≤ 2 ^ 126 }
    ensures adjustments { IfOk result (λ both. both.0.items
        ≡ level_adjustments sums.now.credit invoices.now) }
    ensures still { IfOk result (λ both. both.1
        ≡ still_open (with_all_made sums.now.credit invoices.now) invoices.now) }
{
    let mut adjustments = Vec::new(alloc);
    let left = make_credit(invoices, sums.credit, &mut adjustments)?;
    let still = use_credit(alloc, invoices, left, &mut adjustments)?;
    Ok((adjustments, still))
}

/// Makes credit of what balances are below 0, and notes the adjustments. The result is all credit then.
fn make_credit(
    invoices: &[OpenInvoice],
    credit: i128,
    adjustments: &mut Vec<Adjustment>,
) -> Result<i128, NoMemory>
    requires bounded { nat_abs credit + size_of (λ one. one.balance) invoices.now ≤ 2 ^ 126 }
    ensures credit { IfOk result (λ left. left ≡ with_all_made credit invoices.now) }
    ensures noted { OnOk result (adjustments.new.items ≡ adjustments.old.items ++ all_made invoices.now) }
{
    let mut left = credit;
    for one in invoices {
        let amount = made(one);
        left += amount;
        note(adjustments, one.invoice, amount)?;
    }
    Ok(left)
}

/// Uses credit on what is unpaid, the lowest number first, and notes the adjustments. The result is what is
/// open then.
fn use_credit(
    alloc: Global,
    invoices: &[OpenInvoice],
    credit: i128,
    adjustments: &mut Vec<Adjustment>,
) -> Result<Seq<OpenInvoice>, NoMemory>
    requires whole { pos 0 ≤ℤ credit }
    ensures still { IfOk result (λ still. still ≡ still_open credit invoices.now) }
    ensures noted { OnOk result (adjustments.new.items
        ≡ adjustments.old.items ++ all_used credit invoices.now) }
{
    let mut left = credit;
    let mut still = Vec::new(alloc);
    for one in invoices {
        let amount = taken(left, one);
        left -= amount;
        note(adjustments, one.invoice, -amount)?;
        push_open(&mut still, one.invoice, one.day, due(one) - amount)?;
    }
    Ok(Seq::from_vec(still))
}

/// Notes an adjustment, if it isn't 0.
fn note(adjustments: &mut Vec<Adjustment>, invoice: u32, amount: i128) -> Result<(), NoMemory>
    ensures { OnOk result (adjustments.new.items ≡ adjustments.old.items ++ adjusting invoice amount []) }
{
    if amount != 0 {
        adjustments.push(Adjustment { invoice, amount })?;
    }
    Ok(())
}

/// What the first pass adds to an invoice.
fn made(one: &OpenInvoice) -> i128
    requires bounded { nat_abs one.now.balance ≤ 2 ^ 126 }
    ensures value { result ≡ made one.now.balance }
    ensures size { nat_abs result ≤ nat_abs one.now.balance }
{
    if one.balance < 0 { -one.balance } else { 0 }
}

/// What the second pass takes from an invoice, of the credit that is left.
fn taken(left: i128, one: &OpenInvoice) -> i128
    requires whole { pos 0 ≤ℤ left }
    ensures value { result ≡ taken left one.now.balance }
    ensures least { pos 0 ≤ℤ result }
    ensures left { result ≤ℤ left }
    ensures due { result ≤ℤ int_max (pos 0) one.now.balance }
{
    let whole = due(one);
    if whole < left { whole } else { left }
}
