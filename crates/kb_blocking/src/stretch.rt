//! Stretches: runs of days on which a flag is on.
ghost use Rattle.std.specs.Prelude.{◌≡◌, ◌<◌, All, Some, IfOk};
ghost use Rattle.kb_blocking.specs.Private.Stretches.{stretches_of, touches, later_end};

use crate::state::{Chain, Flag};
use crate::stay::{Stay, counts, has_day};
use kb_base::NoMemory;
use kb_days::Day;
use std::alloc::Global;

/// The days from one on, up to, but not including, another, if there is one.
#[derive(Clone, Copy, Debug)]
pub(crate) struct Stretch {
    pub(crate) from: Day,
    pub(crate) until: Option<Day>,
}

/// The stretches of the stays of a chain that have a flag on and have a day at all.
pub(crate) fn stretches_of(
    alloc: Global,
    stays: &[Stay],
    chain: Chain,
    flag: Flag,
) -> Result<Vec<Stretch>, NoMemory>
    ensures stretches { IfOk result (λ stretches. stretches.items ≡ stretches_of chain flag stays.now) }
    ensures dated { IfOk result (λ stretches. All (λ stretch. 0 < stretch.from) stretches.items) }
{
    let mut stretches = Vec::new(alloc);
    for stay in stays {
        let from = stay.state.day;
        if counts(stay, chain, flag) && has_day(stay, from.number()) {
            let until = stay.until;
            stretches.push(Stretch { from, until })?;
        }
    }
    Ok(stretches)
}

/// Whether a stretch that begins on a day leaves no day after an end.
pub(crate) fn touches(until: &Option<Day>, from: Day) -> bool
    ensures { result ≡ touches until.now from }
{
    match until {
        None => true,
        Some(until) => from <= *until,
    }
}

/// The later of two ends.
pub(crate) fn later_end(until: &Option<Day>, other: &Option<Day>) -> Option<Day>
    ensures { result ≡ later_end until.now other.now }
{
    match until {
        None => None,
        Some(until) => later_of(*until, other),
    }
}

/// The later of a day and an end.
fn later_of(until: Day, other: &Option<Day>) -> Option<Day>
    ensures { result ≡ later_end (Some until) other.now }
{
    match other {
        None => None,
        Some(other) if until <= *other => Some(*other),
        Some(_) => Some(until),
    }
}
