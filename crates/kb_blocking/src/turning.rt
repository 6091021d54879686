//! The days on which a flag turns: where stretches that touch or overlap are one, the first day and the end
//! of each.
ghost use Rattle.std.specs.Prelude.{◌≡◌, ◌<◌, ◌↔◌, ◌-◌, ℕ, true, Contains, AllPairs, IfOk, OnOk, ◌++◌};
ghost use Rattle.std.specs.Prelude.{option_to_list};
ghost use Rattle.std.specs.List.{list_any};
ghost use Rattle.std.specs.List.Sorted.{IsPermutation, IsNonDecreasingBy};
ghost use Rattle.kb_blocking.specs.Blocking.{differ};
ghost use Rattle.kb_blocking.specs.Private.Stays.{counts_on};
ghost use Rattle.kb_blocking.specs.Private.Stretches.{turn_days};

use crate::state::{Chain, Flag};
use crate::stay::Stay;
use crate::stretch::{Stretch, later_end, stretches_of, touches};
use kb_base::NoMemory;
use kb_days::Day;
use std::alloc::Global;

/// The days on which a flag differs from the day before, rising.
pub(crate) fn turning_days(
    alloc: Global,
    stays: &[Stay],
    chain: Chain,
    flag: Flag,
) -> Result<Vec<Day>, NoMemory>
    ensures exactly { IfOk result (λ days. (day : ℕ) → (Contains days.items day
        ↔ (differ (list_any (counts_on chain flag day) stays.now)
        (list_any (counts_on chain flag (day - 1)) stays.now) ≡ true))) }
    ensures rising { IfOk result (λ days. AllPairs (λ earlier later. earlier < later) days.items) }
{
    let mut stretches = stretches_of(alloc, stays, chain, flag)?;
    sort(&mut stretches)?;
    turn_days(alloc, &stretches)
}

/// Sorts stretches by their first days.
fn sort(stretches: &mut Vec<Stretch>) -> Result<(), NoMemory>
    ensures same { OnOk result (IsPermutation stretches.old.items stretches.new.items) }
    ensures sorted { OnOk result (IsNonDecreasingBy (λ stretch. stretch.from) stretches.new.items) }
{
    stretches.sort_by_key(|stretch| stretch.from.number())?;
    Ok(())
}

/// The first days and the ends, where stretches that touch or overlap are one; the stretches are in the order
/// of their first days.
fn turn_days(alloc: Global, stretches: &[Stretch]) -> Result<Vec<Day>, NoMemory>
    ensures { IfOk result (λ days. days.items ≡ turn_days stretches.now) }
{
    let mut days = Vec::new(alloc);
    let Some((first, later)) = stretches.split_first() else {
        return Ok(days);
    };
    days.push(first.from)?;
    let mut until = first.until;
    for stretch in later {
        if touches(&until, stretch.from) {
            until = later_end(&until, &stretch.until);
        } else {
            push_end(&mut days, &until)?;
            days.push(stretch.from)?;
            until = stretch.until;
        }
    }
    push_end(&mut days, &until)?;
    Ok(days)
}

/// Adds an end, if there is one.
fn push_end(days: &mut Vec<Day>, until: &Option<Day>) -> Result<(), NoMemory>
    ensures { OnOk result (days.new.items ≡ days.old.items ++ option_to_list until.now) }
{
    if let Some(until) = until {
        days.push(*until)?;
    }
    Ok(())
}
