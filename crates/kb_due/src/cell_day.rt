//! The cell of a day.
ghost use Rattle.std.specs.Prelude.{None, ◌≡◌, ◌<◌, ◌≤◌, ◌+◌, IfSome};
ghost use Rattle.kb_days.specs.Calendar.{first_day, last_charged, end_of_days};
ghost use Rattle.kb_align.specs.Boundaries.{IsPeriodOf};
ghost use Rattle.kb_due.specs.CycleDays.{cycle_day};
ghost use Rattle.kb_align.specs.PeriodDays.{max_period_days};
ghost use Rattle.kb_due.specs.Cells.{is_unbilled, cell_by, cell_on};

use crate::cell::Cell;
use crate::chain::chain_of;
use crate::facts::Facts;
use crate::governing::{Governing, governing_on};
use crate::life::is_live;
use crate::rate::rate_by;
use kb_blocking::Flag;
use kb_days::{LAST_CHARGED, Reach};
use kb_timeline::Subscription;

/// The cell of a day of a subscription: none after the last day that may be charged, where it isn't live, or
/// where its billing is blocked.
#[tactic(auto, unfolding(crate::specs::Cells::cell_on))]
pub fn cell_on(facts: &Facts, subscription: &Subscription, sub: u32, day: Reach) -> Option<Cell>
    ensures value { result ≡ cell_on facts.now subscription.now sub day }
    ensures has_day { IfSome result (λ cell. (cell.start ≤ day) × (day < cell.end)) }
    ensures longest { IfSome result (λ cell. cell.end ≤ cell.start + max_period_days) }
    ensures late { end_of_days ≤ day → result ≡ None }
{
    if LAST_CHARGED < day.number() {
        return None;
    }
    if !is_live(facts, subscription, day) || is_unbilled(facts, subscription, sub, day) {
        return None;
    }
    let governing = governing_on(facts.catalog, &subscription.entries, day)?;
    cell_by(facts, subscription, day, &governing)
}

/// Whether billing is blocked for a subscription on a day.
fn is_unbilled(facts: &Facts, subscription: &Subscription, sub: u32, day: Reach) -> bool
    ensures { result ≡ is_unbilled facts.now subscription.now sub day }
{
    facts
        .blocks
        .blocked(chain_of(subscription, sub), Flag::Billing, day)
}

/// The cell by what governs a day: none where the phase has no billing period, or no recurring price.
pub fn cell_by(
    facts: &Facts,
    subscription: &Subscription,
    day: Reach,
    governing: &Governing,
) -> Option<Cell>
    requires named { first_day ≤ governing.now.start }
    requires begun { governing.now.start ≤ day }
    requires told { day ≤ last_charged }
    ensures value { result ≡ cell_by facts.now subscription.now day governing.now }
    ensures period { IfSome result (λ cell. IsPeriodOf governing.now.start governing.now.phase.period
        (cycle_day facts.now subscription.now governing.now) day cell.start cell.end) }
    ensures has_day { IfSome result (λ cell. (cell.start ≤ day) × (day < cell.end)) }
    ensures longest { IfSome result (λ cell. cell.end ≤ cell.start + max_period_days) }
{
    match rate_by(facts, subscription, governing) {
        None => None,
        Some(rate) => Some(rate.cell(day)),
    }
}
