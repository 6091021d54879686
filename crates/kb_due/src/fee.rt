//! What is charged once.
ghost use Rattle.std.specs.Prelude.{None, ◌≡◌, ◌<◌, ◌≤◌, ◌+◌, length, IfSome};
ghost use Rattle.kb_days.specs.Calendar.{last_charged, end_of_days};
ghost use Rattle.kb_due.specs.DueDays.{fee_by, fee_of, fee_on};

use crate::cell::Cell;
use crate::facts::Facts;
use crate::governing::{Governing, governing_on};
use crate::life::is_live;
use kb_days::{Day, LAST_CHARGED, Reach};
use kb_timeline::Subscription;

/// The fee cell of a day at a billed date, of the subscription at a place: what the phase that starts on the
/// day costs once, where the subscription is live and the day isn't after the billed date, or the last day
/// that may be charged. Blocking has no say. It takes no memory.
#[tactic(auto, unfolding(crate::specs::DueDays::fee_on))]
pub fn fee_on(facts: &Facts, sub: u32, billed: Day, day: Reach) -> Option<Cell>
    requires there { sub < length facts.now.timeline.subscriptions }
    ensures value { result ≡ fee_on facts.now sub billed day }
    ensures one_day { IfSome result (λ cell. (cell.start ≡ day) × (cell.end ≡ day + 1)) }
    ensures begun { IfSome result (λ cell. day ≤ billed) }
    ensures late { end_of_days ≤ day → result ≡ None }
{
    fee_of(facts, facts.timeline.subscription(sub), billed, day)
}

/// The fee cell of a day of a subscription.
fn fee_of(facts: &Facts, subscription: &Subscription, billed: Day, day: Reach) -> Option<Cell>
    ensures value { result ≡ fee_of facts.now subscription.now billed day }
    ensures one_day { IfSome result (λ cell. (cell.start ≡ day) × (cell.end ≡ day + 1)) }
    ensures begun { IfSome result (λ cell. day ≤ billed) }
    ensures late { end_of_days ≤ day → result ≡ None }
{
    if LAST_CHARGED < day.number() {
        return None;
    }
    if !is_live(facts, subscription, day) || billed.reach() < day {
        return None;
    }
    let governing = governing_on(facts.catalog, &subscription.entries, day)?;
    fee_by(facts, day, &governing)
}

/// What is charged once on a day by what governs it: the fixed price of a phase that starts on the day.
pub fn fee_by(facts: &Facts, day: Reach, governing: &Governing) -> Option<Cell>
    requires told { day ≤ last_charged }
    ensures value { result ≡ fee_by facts.now day governing.now }
    ensures one_day { IfSome result (λ cell. (cell.start ≡ day) × (cell.end ≡ day + 1)) }
{
    if governing.start != day {
        return None;
    }
    let price = governing.phase.fixed_price(facts.currency)?;
    Some(Cell {
        plan: governing.entry.plan,
        phase: governing.place,
        start: day,
        end: Reach::new(day.number() + 1).unwrap(),
        price,
    })
}
