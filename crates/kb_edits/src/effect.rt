//! The day on which a change or a cancellation takes effect.
ghost use Rattle.std.specs.Prelude.{◌≡◌, ◌<◌, ◌≤◌, max, unwrap_or, length, IfOk, IfSome};
ghost use Rattle.kb_book.specs.Effects as told;

use crate::policy::{cancel_policy, change_policy};
use kb_base::NoMemory;
use kb_book::Wish;
use kb_catalog::Policy;
use kb_days::{Day, Reach};
use kb_due::Facts;
use kb_events::{charged_through, pieces};
use std::alloc::Global;

/// The day of effect of a change that is asked for on a day: that day, or the day until which the
/// subscription is charged, if that is later and the policy says so. There is none where the change is
/// illegal.
pub fn change_effect(
    alloc: Global,
    facts: &Facts,
    sub: u32,
    billed: Option<Day>,
    day: Day,
    wish: &Wish,
) -> Result<Option<Reach>, NoMemory>
    requires there { sub < length facts.now.timeline.subscriptions }
    ensures value { IfOk result (λ effect. effect ≡ told.change_effect facts.now sub billed day wish.now) }
    ensures later { IfOk result (λ effect. IfSome effect (λ effect. day ≤ effect)) }
{
    let policy = change_policy(facts, sub, day, wish);
    effect_by(alloc, facts, sub, billed, policy, day)
}

/// The day of effect of a cancellation that is asked for on a day, as that of a change.
pub fn cancel_effect(
    alloc: Global,
    facts: &Facts,
    sub: u32,
    billed: Option<Day>,
    day: Day,
) -> Result<Option<Reach>, NoMemory>
    requires there { sub < length facts.now.timeline.subscriptions }
    ensures value { IfOk result (λ effect. effect ≡ told.cancel_effect facts.now sub billed day) }
    ensures later { IfOk result (λ effect. IfSome effect (λ effect. day ≤ effect)) }
{
    let policy = cancel_policy(facts, sub, day);
    effect_by(alloc, facts, sub, billed, policy, day)
}

/// The day of effect by a policy.
fn effect_by(
    alloc: Global,
    facts: &Facts,
    sub: u32,
    billed: Option<Day>,
    policy: Option<Policy>,
    day: Day,
) -> Result<Option<Reach>, NoMemory>
    requires there { sub < length facts.now.timeline.subscriptions }
    ensures value { IfOk result (λ effect. effect
        ≡ told.effect_day policy day (told.through_of facts.now sub billed)) }
    ensures later { IfOk result (λ effect. IfSome effect (λ effect. day ≤ effect)) }
{
    match policy {
        Some(Policy::Immediate) => Ok(Some(day.reach())),
        Some(Policy::EndOfTerm) => {
            let through = through_of(alloc, facts, sub, billed)?;
            Ok(Some(later_of(day.reach(), through)))
        }
        Some(Policy::Illegal) | None => Ok(None),
    }
}

/// A day, or another one if it is there and later.
fn later_of(day: Reach, other: Option<Reach>) -> Reach
    ensures value { result ≡ max day (unwrap_or other day) }
    ensures later { day ≤ result }
{
    match other {
        Some(other) if day < other => other,
        _ => day,
    }
}

/// Until when the subscription at a place is charged at a billed date, if it is.
pub fn through_of(
    alloc: Global,
    facts: &Facts,
    sub: u32,
    billed: Option<Day>,
) -> Result<Option<Reach>, NoMemory>
    requires there { sub < length facts.now.timeline.subscriptions }
    ensures { IfOk result (λ through. through ≡ told.through_of facts.now sub billed) }
{
    let Some(billed) = billed else {
        return Ok(None);
    };
    let pieces = pieces(alloc, facts, sub, billed)?;
    Ok(charged_through(&pieces))
}
