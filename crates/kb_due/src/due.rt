//! What is due on a day, by a look at each day.
ghost use Rattle.std.specs.Prelude.{None, ◌≡◌, ◌<◌, ◌≤◌, ◌+◌, length, IfSome};
ghost use Rattle.kb_days.specs.Calendar.{first_day, end_of_days};
ghost use Rattle.kb_blocking.specs.Blocking.{turns};
ghost use Rattle.kb_align.specs.PeriodDays.{max_period_days};
ghost use Rattle.kb_due.specs.DueDays.{is_event, event_by, due_by, due_of, due_on};

use crate::cell::Cell;
use crate::cell_day::cell_on;
use crate::chain::chain_of;
use crate::facts::Facts;
use crate::governing::{Governing, governing_on};
use kb_blocking::{Blocks, Chain, Flag};
use kb_days::{Day, Reach};
use kb_timeline::Subscription;

/// The due cell of a day at a billed date, of the subscription at a place: that of its phase and period,
/// where the subscription is live and its billing isn't blocked, and where the period, the entry, the phase
/// and the last turn of the billing flag have begun by the billed date. It takes no memory.
#[tactic(auto, unfolding(crate::specs::DueDays::due_on))]
pub fn due_on(facts: &Facts, sub: u32, billed: Day, day: Reach) -> Option<Cell>
    requires there { sub < length facts.now.timeline.subscriptions }
    ensures value { result ≡ due_on facts.now sub billed day }
    ensures has_day { IfSome result (λ cell. (cell.start ≤ day) × (day < cell.end)) }
    ensures longest { IfSome result (λ cell. cell.end ≤ cell.start + max_period_days) }
    ensures begun { IfSome result (λ cell. cell.start ≤ billed) }
    ensures late { end_of_days ≤ day → result ≡ None }
{
    due_of(facts, facts.timeline.subscription(sub), sub, billed, day)
}

/// The due cell of a day of a subscription.
fn due_of(
    facts: &Facts,
    subscription: &Subscription,
    sub: u32,
    billed: Day,
    day: Reach,
) -> Option<Cell>
    ensures value { result ≡ due_of facts.now subscription.now sub billed day }
    ensures has_day { IfSome result (λ cell. (cell.start ≤ day) × (day < cell.end)) }
    ensures longest { IfSome result (λ cell. cell.end ≤ cell.start + max_period_days) }
    ensures begun { IfSome result (λ cell. cell.start ≤ billed) }
    ensures late { end_of_days ≤ day → result ≡ None }
{
    let governing = governing_on(facts.catalog, &subscription.entries, day)?;
    let cell = cell_on(facts, subscription, sub, day)?;
    due_by(
        billed,
        event_by(facts, subscription, sub, &governing, day),
        cell,
    )
}

/// The cell, if its period and an event have begun by the billed date.
fn due_by(billed: Day, event: u32, cell: Cell) -> Option<Cell>
    ensures value { result ≡ due_by billed event cell }
    ensures same { IfSome result (λ due. due ≡ cell) }
    ensures begun { IfSome result (λ due. due.start ≤ billed) }
{
    if cell.start <= billed.reach() && event <= billed.number() {
        Some(cell)
    } else {
        None
    }
}

/// The last day on or before a day on which the entry that governs it, the phase that governs it, or a turn
/// of the billing flag stands.
fn event_by(
    facts: &Facts,
    subscription: &Subscription,
    sub: u32,
    governing: &Governing,
    day: Reach,
) -> u32
    requires begun { governing.now.entry.day ≤ day }
    ensures { result ≡ event_by facts.now subscription.now sub governing.now day }
{
    let first = governing.entry.day.number();
    let mut number = day.number();
    while first < number {
        if is_event(
            facts,
            subscription,
            sub,
            governing,
            Reach::new(number).unwrap(),
        ) {
            return number;
        }
        number -= 1;
    }
    first
}

/// Whether the entry that governs, the start of the phase that governs, or a turn of the billing flag stands
/// on a day.
fn is_event(
    facts: &Facts,
    subscription: &Subscription,
    sub: u32,
    governing: &Governing,
    day: Reach,
) -> bool
    requires named { first_day ≤ day }
    ensures { result ≡ is_event facts.now subscription.now sub governing.now day }
{
    governing.entry.day.reach() == day
        || governing.start == day
        || turns(
            facts.blocks,
            chain_of(subscription, sub),
            Flag::Billing,
            day,
        )
}

/// Whether a flag differs on a day from what it is on the day before.
fn turns(blocks: &Blocks, chain: Chain, flag: Flag, day: Reach) -> bool
    requires named { first_day ≤ day }
    ensures { result ≡ turns blocks.now chain flag day }
{
    let before = Reach::new(day.number() - 1).unwrap();
    blocks.blocked(chain, flag, day) != blocks.blocked(chain, flag, before)
}
