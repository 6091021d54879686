//! Stays: how long each state counts.
ghost use Rattle.std.specs.Prelude.{◌≡◌, map, IfOk};
ghost use Rattle.std.specs.List.{list_any};
ghost use Rattle.kb_blocking.specs.Private.Stays.{is_before, has_day, counts, counts_on, end_by, cut_by};
ghost use Rattle.kb_blocking.specs.Private.Stays.{earlier_of, sooner, first_after, with_stay};

use crate::chain::is_on_chain;
use crate::flags::has_flag;
use crate::matter::is_same_matter;
use crate::state::{BlockState, Chain, Flag};
use kb_base::{NoMemory, Seq};
use kb_days::Day;
use std::alloc::Global;

/// A state, and the day from which on a later one of its scope and service counts in its place, if there is
/// one.
#[derive(Clone, Copy, Debug)]
pub(crate) struct Stay {
    pub(crate) state: BlockState,
    pub(crate) until: Option<Day>,
}

/// The stays, where one more state is accepted.
pub(crate) fn with_stay(
    alloc: Global,
    stays: &[Stay],
    state: &BlockState,
) -> Result<Seq<Stay>, NoMemory>
    ensures { IfOk result (λ longer. longer ≡ with_stay stays.now state.now) }
{
    let mut longer = Vec::with_capacity(alloc, stays.len() + 1)?;
    longer.extend_from_slice(stays)?;
    cut(&mut longer, state);
    longer.push(Stay {
        state: *state,
        until: first_after(stays, state),
    })?;
    Ok(Seq::from_vec(longer))
}

/// Ends each stay where a state that is accepted after it ends it.
fn cut(stays: &mut [Stay], state: &BlockState)
    ensures { stays.new ≡ map (cut_by state.now) stays.old }
{
    for stay in stays {
        stay.until = end_by(state, stay);
    }
}

/// The end of a stay, where a state is accepted after it: the state's day, if it has the stay's scope and
/// service and the stay has that day.
fn end_by(state: &BlockState, stay: &Stay) -> Option<Day>
    ensures { result ≡ end_by state.now stay.now }
{
    if is_same_matter(state, &stay.state) && has_day(stay, state.day.number()) {
        Some(state.day)
    } else {
        stay.until
    }
}

/// The first day after a state's on which a stay of its scope and service begins.
fn first_after(stays: &[Stay], state: &BlockState) -> Option<Day>
    ensures { result ≡ first_after stays.now state.now }
{
    let mut found = None;
    for stay in stays {
        found = sooner(state, found, stay);
    }
    found
}

/// Of what was found and the first day of a stay, the earlier of those after a state's day.
fn sooner(state: &BlockState, found: Option<Day>, stay: &Stay) -> Option<Day>
    ensures { result ≡ sooner state.now found stay.now }
{
    if state.day < stay.state.day && is_same_matter(state, &stay.state) {
        Some(earlier_of(found, stay.state.day))
    } else {
        found
    }
}

/// Of what was found and a day, the earlier.
fn earlier_of(found: Option<Day>, day: Day) -> Day
    ensures { result ≡ earlier_of found day }
{
    match found {
        Some(found) if found <= day => found,
        _ => day,
    }
}

/// Whether on a day some stay counts for a chain, and has a flag on.
pub(crate) fn is_any_on(stays: &[Stay], chain: Chain, flag: Flag, day: u32) -> bool
    ensures { result ≡ list_any (counts_on chain flag day) stays.now }
{
    for stay in stays {
        if counts(stay, chain, flag) && has_day(stay, day) {
            return true;
        }
    }
    false
}

/// Whether a stay is of a chain, and has a flag on.
pub(crate) fn counts(stay: &Stay, chain: Chain, flag: Flag) -> bool
    ensures { result ≡ counts chain flag stay.now }
{
    is_on_chain(chain, stay.state.scope) && has_flag(flag, stay.state.flags)
}

/// Whether a stay has a day.
pub(crate) fn has_day(stay: &Stay, day: u32) -> bool
    ensures { result ≡ has_day day stay.now }
{
    stay.state.day.number() <= day && is_before(day, stay.until)
}

/// Whether a day is before an end, if there is one.
fn is_before(day: u32, end: Option<Day>) -> bool
    ensures { result ≡ is_before day end }
{
    match end {
        None => true,
        Some(end) => day < end.number(),
    }
}
