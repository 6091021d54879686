//! A change.
ghost use Rattle.std.specs.Prelude.{◌≡◌, ◌≤◌, ◌<◌, false, not, length, slice_get, Some, None, is_some};
ghost use Rattle.std.specs.Prelude.{IfSome, OnOk, IfOk, IfErr};
ghost use Rattle.kb_days.specs.Calendar.{first_day};
ghost use Rattle.kb_timeline.specs.EntryDays.{is_before_start};
ghost use Rattle.kb_book.specs.Rows.{first_refusal, IsUnprepared};
ghost use Rattle.kb_book.specs.SubscriptionCommands as told;
ghost use Rattle.kb_book.specs.SubscriptionCommands.{of_named, change_rows_of, change_rows_by, entry_rows};
ghost use Rattle.kb_book.specs.SubscriptionCommands.{is_too_late};

use crate::anchor::change_anchor;
use crate::bundle::{breaks_bundle, is_over};
use crate::effect::change_effect;
use crate::entry::some_plan;
use crate::places::place_of;
use crate::plan::plan_asked;
use crate::price::refers_to_lacking;
use kb_blocking::Flag;
use kb_book::{Refusal, Unprepared, Wish, asked_day};
use kb_codec::Change;
use kb_days::{Day, LAST_DAY, Reach};
use kb_due::{Facts, chain_of};
use kb_timeline::{EditFault, Entry, MAX_ENTRIES, Timeline};
use std::alloc::Global;

/// The timeline with a change, at a billed date. It is refused, in this order, as `NoSubscription`,
/// `BeforeStart`, `Cancelled`, `ChangeBlocked`, `PolicyIllegal`, by the limit of the day of effect, as
/// `NoPlan`, `NoPrice`, `BundleRule`, and by the limit of 1,024 entries.
pub fn change(
    alloc: Global,
    facts: &Facts,
    billed: Option<Day>,
    today: Day,
    change: &Change,
) -> Result<Timeline, Unprepared>
    ensures accepted { OnOk result (first_refusal (of_named facts.now change.now.subscription
        (change_rows_of facts.now billed today change.now)) ≡ None) }
    ensures changed { IfOk result (λ timeline. timeline
        ≡ told.with_change facts.now billed today change.now) }
    ensures refused { IfErr result (IsUnprepared (first_refusal (of_named facts.now change.now.subscription
        (change_rows_of facts.now billed today change.now)))) }
{
    let Some(sub) = place_of(facts.timeline, change.subscription) else {
        return Err(Unprepared::Refused(Refusal::NoSubscription));
    };
    let day = asked_day(change.day, today);
    let effect = change_effect(alloc, facts, sub, billed, day, &wish_of(change))?;
    change_at(alloc, facts, change, sub, day, effect)
}

/// The timeline with a change of the subscription at a place, that is asked for on a day, and takes effect on
/// another, if there is one.
fn change_at(
    alloc: Global,
    facts: &Facts,
    change: &Change,
    sub: u32,
    day: Day,
    effect: Option<Reach>,
) -> Result<Timeline, Unprepared>
    requires there { sub < length facts.now.timeline.subscriptions }
    requires later { IfSome effect (λ effect. day ≤ effect) }
    ensures accepted { OnOk result (IfSome (slice_get facts.now.timeline.subscriptions sub) (λ subscription.
        first_refusal (change_rows_by facts.now change.now sub subscription day effect) ≡ None)) }
    ensures changed { IfOk result (λ timeline. timeline
        ≡ told.changed_at facts.now change.now day effect sub) }
    ensures refused { IfErr result (λ fault. IfSome (slice_get facts.now.timeline.subscriptions sub)
        (λ subscription. IsUnprepared (first_refusal
        (change_rows_by facts.now change.now sub subscription day effect)) fault)) }
{
    let effect = match effect_allowed(facts, change, sub, day, effect) {
        Ok(effect) => effect,
        Err(refusal) => return Err(Unprepared::Refused(refusal)),
    };
    let entry = change_entry(facts, change, sub, day, effect);
    match facts.timeline.change(alloc, sub, entry) {
        Ok(timeline) => Ok(timeline),
        Err(EditFault::Limit(_)) => Err(Unprepared::Refused(Refusal::Limit {
            which: 3,
            limit: MAX_ENTRIES as u32,
        })),
        // A timeline refuses a change for no other reason than those that are looked at before.
        Err(_) => Err(Unprepared::NoMemory),
    }
}

/// The day on which a change takes effect, unless the change is refused for another reason than the limit of
/// entries.
fn effect_allowed(
    facts: &Facts,
    change: &Change,
    sub: u32,
    day: Day,
    effect: Option<Reach>,
) -> Result<Day, Refusal>
    requires there { sub < length facts.now.timeline.subscriptions }
    requires later { IfSome effect (λ effect. day ≤ effect) }
    ensures effect { IfOk result (λ named. effect ≡ Some named) }
    ensures allowed { IfOk result (λ named. IfSome (slice_get facts.now.timeline.subscriptions sub)
        (λ subscription. first_refusal (change_rows_by facts.now change.now sub subscription day effect)
        ≡ first_refusal (entry_rows subscription (told.change_entry facts.now change.now sub day named)))) }
    ensures begun { OnOk result (IfSome (slice_get facts.now.timeline.subscriptions sub)
        (λ subscription. is_before_start subscription.entries day ≡ false)) }
    ensures running { OnOk result (IfSome (slice_get facts.now.timeline.subscriptions sub)
        (λ subscription. subscription.cancel ≡ None)) }
    ensures refused { IfErr result (λ refusal. IfSome (slice_get facts.now.timeline.subscriptions sub)
        (λ subscription. first_refusal (change_rows_by facts.now change.now sub subscription day effect)
        ≡ Some refusal)) }
{
    let subscription = facts.timeline.subscription(sub);
    if subscription.entries.is_before_start(day) {
        return Err(Refusal::BeforeStart);
    }
    if is_over(facts, sub, day.reach()) {
        return Err(Refusal::Cancelled);
    }
    if facts
        .blocks
        .blocked(chain_of(subscription, sub), Flag::Change, day.reach())
    {
        return Err(Refusal::ChangeBlocked);
    }
    let Some(effect) = effect else {
        return Err(Refusal::PolicyIllegal);
    };
    let Some(effect) = named_effect(effect) else {
        return Err(Refusal::Limit {
            which: 6,
            limit: LAST_DAY,
        });
    };
    let plan = plan_asked(facts.catalog, effect, &wish_of(change));
    if plan.is_none() {
        return Err(Refusal::NoPlan);
    }
    if refers_to_lacking(facts.catalog, facts.currency, plan) {
        return Err(Refusal::NoPrice);
    }
    if breaks_bundle(facts, sub, day, effect, change.product) {
        return Err(Refusal::BundleRule);
    }
    Ok(effect)
}

/// A day of effect, if a command may name it.
pub(crate) fn named_effect(effect: Reach) -> Option<Day>
    requires first { first_day ≤ effect }
    ensures same { IfSome result (λ day. day ≡ effect) }
    ensures none { is_too_late (Some effect) ≡ not (is_some result) }
{
    Day::new(effect.number())
}

/// The plan that a change asks for.
fn wish_of(change: &Change) -> Wish
    ensures { result ≡ told.new_wish_of change.now }
{
    Wish {
        product: change.product,
        period: change.period,
        list: change.list,
    }
}

/// The entry of a change of the subscription at a place, that is asked for on one day and takes effect on
/// another.
fn change_entry(facts: &Facts, change: &Change, sub: u32, day: Day, effect: Day) -> Entry
    requires there { sub < length facts.now.timeline.subscriptions }
    ensures { result ≡ told.change_entry facts.now change.now sub day effect }
{
    let wish = wish_of(change);
    Entry {
        day: effect,
        plan: some_plan(plan_asked(facts.catalog, effect, &wish)),
        anchor: change_anchor(facts, sub, day, effect, &wish).unwrap_or(effect),
    }
}
