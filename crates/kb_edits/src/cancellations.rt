//! A cancellation, and its end.
ghost use Rattle.std.specs.Prelude.{◌≡◌, ◌≤◌, ◌<◌, length, slice_get, Some, None, Err, IfSome, OnOk, IfOk};
ghost use Rattle.std.specs.Prelude.{IfErr};
ghost use Rattle.kb_book.specs.Rows.{first_refusal, IsUnprepared};
ghost use Rattle.kb_book.specs.SubscriptionCommands as told;
ghost use Rattle.kb_book.specs.SubscriptionCommands.{of_named, cancel_rows_of, cancel_rows_by};
ghost use Rattle.kb_book.specs.SubscriptionCommands.{uncancel_rows_of};

use crate::bundle::is_over;
use crate::changes::named_effect;
use crate::effect::cancel_effect;
use crate::places::place_of;
use kb_book::{Refusal, Unprepared, asked_day};
use kb_codec::{Cancel, Uncancel};
use kb_days::{Day, LAST_DAY, Reach};
use kb_due::Facts;
use kb_timeline::Timeline;
use std::alloc::Global;

/// The timeline with a cancellation, at a billed date. It is refused, in this order, as `NoSubscription`,
/// `BeforeStart`, `Cancelled`, `PolicyIllegal`, and by the limit of the day of effect.
pub fn cancel(
    alloc: Global,
    facts: &Facts,
    billed: Option<Day>,
    today: Day,
    cancel: &Cancel,
) -> Result<Timeline, Unprepared>
    ensures accepted { OnOk result (first_refusal (of_named facts.now cancel.now.subscription
        (cancel_rows_of facts.now billed today cancel.now)) ≡ None) }
    ensures cancelled { IfOk result (λ timeline. timeline
        ≡ told.with_cancel facts.now billed today cancel.now) }
    ensures refused { IfErr result (IsUnprepared (first_refusal (of_named facts.now cancel.now.subscription
        (cancel_rows_of facts.now billed today cancel.now)))) }
{
    let Some(sub) = place_of(facts.timeline, cancel.subscription) else {
        return Err(Unprepared::Refused(Refusal::NoSubscription));
    };
    let day = asked_day(cancel.day, today);
    let effect = cancel_effect(alloc, facts, sub, billed, day)?;
    cancel_at(alloc, facts, sub, day, effect)
}

/// The timeline with a cancellation of the subscription at a place, that is asked for on a day, and takes
/// effect on another, if there is one.
fn cancel_at(
    alloc: Global,
    facts: &Facts,
    sub: u32,
    day: Day,
    effect: Option<Reach>,
) -> Result<Timeline, Unprepared>
    requires there { sub < length facts.now.timeline.subscriptions }
    requires later { IfSome effect (λ effect. day ≤ effect) }
    ensures accepted { OnOk result (IfSome (slice_get facts.now.timeline.subscriptions sub) (λ subscription.
        first_refusal (cancel_rows_by facts.now subscription day effect) ≡ None)) }
    ensures cancelled { IfOk result (λ timeline. timeline ≡ told.cancelled_at facts.now day effect sub) }
    ensures refused { IfErr result (λ fault. IfSome (slice_get facts.now.timeline.subscriptions sub)
        (λ subscription. IsUnprepared (first_refusal (cancel_rows_by facts.now subscription day effect))
        fault)) }
{
    let effect = match effect_allowed(facts, sub, day, effect) {
        Ok(effect) => effect,
        Err(refusal) => return Err(Unprepared::Refused(refusal)),
    };
    // A timeline refuses a cancellation for no other reason than those that are looked at before.
    match facts.timeline.cancel(alloc, sub, effect) {
        Ok(timeline) => Ok(timeline),
        Err(_) => Err(Unprepared::NoMemory),
    }
}

/// The day on which a cancellation takes effect, unless it is refused.
fn effect_allowed(facts: &Facts, sub: u32, day: Day, effect: Option<Reach>) -> Result<Day, Refusal>
    requires there { sub < length facts.now.timeline.subscriptions }
    requires later { IfSome effect (λ effect. day ≤ effect) }
    ensures effect { IfOk result (λ named. effect ≡ Some named) }
    ensures allowed { OnOk result (IfSome (slice_get facts.now.timeline.subscriptions sub)
        (λ subscription. first_refusal (cancel_rows_by facts.now subscription day effect) ≡ None)) }
    ensures refused { IfErr result (λ refusal. IfSome (slice_get facts.now.timeline.subscriptions sub)
        (λ subscription. first_refusal (cancel_rows_by facts.now subscription day effect)
        ≡ Some refusal)) }
{
    if facts
        .timeline
        .subscription(sub)
        .entries
        .is_before_start(day)
    {
        return Err(Refusal::BeforeStart);
    }
    if is_over(facts, sub, day.reach()) {
        return Err(Refusal::Cancelled);
    }
    let Some(effect) = effect else {
        return Err(Refusal::PolicyIllegal);
    };
    match named_effect(effect) {
        Some(effect) => Ok(effect),
        None => Err(Refusal::Limit {
            which: 6,
            limit: LAST_DAY,
        }),
    }
}

/// The timeline without a cancellation, past or future. It is refused as `NoSubscription` and as
/// `NotCancelled`, in this order.
pub fn uncancel(alloc: Global, facts: &Facts, uncancel: &Uncancel) -> Result<Timeline, Unprepared>
    ensures accepted { OnOk result (first_refusal (of_named facts.now uncancel.now.subscription
        uncancel_rows_of) ≡ None) }
    ensures uncancelled { IfOk result (λ timeline. timeline
        ≡ told.with_uncancel facts.now.timeline uncancel.now) }
    ensures refused { IfErr result (IsUnprepared (first_refusal (of_named facts.now uncancel.now.subscription
        uncancel_rows_of))) }
    ensures without_memory { IfSome (first_refusal (of_named facts.now uncancel.now.subscription
        uncancel_rows_of)) (λ refusal. result ≡ Err (Unprepared.Refused refusal)) }
{
    let Some(sub) = place_of(facts.timeline, uncancel.subscription) else {
        return Err(Unprepared::Refused(Refusal::NoSubscription));
    };
    if facts.timeline.subscription(sub).cancel.is_none() {
        return Err(Unprepared::Refused(Refusal::NotCancelled));
    }
    // A timeline refuses the end of a cancellation for no other reason than that there is none.
    match facts.timeline.uncancel(alloc, sub) {
        Ok(timeline) => Ok(timeline),
        Err(_) => Err(Unprepared::NoMemory),
    }
}
