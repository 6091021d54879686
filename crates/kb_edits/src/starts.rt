//! A start.
ghost use Rattle.std.specs.Prelude.{◌≡◌, None, Err, unwrap_or, OnOk, IfOk, IfErr, IfSome};
ghost use Rattle.kb_timeline.specs.TimelineEdits.{bundle_named};
ghost use Rattle.kb_book.specs.Wishes.{plan_asked};
ghost use Rattle.kb_book.specs.Anchors.{create_anchor};
ghost use Rattle.kb_book.specs.Rows.{first_refusal, IsUnprepared};
ghost use Rattle.kb_book.specs.SubscriptionCommands as told;
ghost use Rattle.kb_book.specs.SubscriptionCommands.{bundle_chain, create_rows};

use crate::anchor::create_anchor;
use crate::bundle::{is_add_on, may_join};
use crate::category::category_on;
use crate::entry::some_plan;
use crate::plan::{plan_asked, version_on};
use crate::price::refers_to_lacking;
use kb_base::NoMemory;
use kb_blocking::{Chain, Flag};
use kb_book::{Refusal, Unprepared, Wish, asked_day};
use kb_codec::Create;
use kb_days::{Day, Name};
use kb_due::Facts;
use kb_timeline::{Entry, MAX_SUBSCRIPTIONS, PlanRef, Timeline};
use std::alloc::Global;

/// The timeline with a start. It is refused, in this order, as `NoCatalog`, `NoPlan`, `NoPrice`,
/// `SubscriptionExists`, `BundleRule`, `ChangeBlocked`, and by the limit of 128 subscriptions.
pub fn start(
    alloc: Global,
    facts: &Facts,
    today: Day,
    create: &Create,
) -> Result<Timeline, Unprepared>
    ensures accepted { OnOk result (first_refusal (create_rows facts.now today create.now) ≡ None) }
    ensures started { IfOk result (λ timeline. timeline ≡ told.started facts.now today create.now) }
    ensures refused { IfErr result (IsUnprepared (first_refusal (create_rows facts.now today create.now))) }
    ensures without_memory { IfSome (first_refusal (create_rows facts.now today create.now))
        (λ refusal. result ≡ Err (Unprepared.Refused refusal)) }
{
    if let Some(refusal) = start_refusal(facts, today, create) {
        return Err(Unprepared::Refused(refusal));
    }
    Ok(started(alloc, facts, today, create)?)
}

/// Why a start is refused, if it is.
fn start_refusal(facts: &Facts, today: Day, create: &Create) -> Option<Refusal>
    ensures { result ≡ first_refusal (create_rows facts.now today create.now) }
{
    let day = asked_day(create.day, today);
    let plan = plan_asked(facts.catalog, day, &wish_of(create));
    let bundle = facts.timeline.find_bundle(create.bundle);
    if version_on(facts.catalog, day).is_none() {
        return Some(Refusal::NoCatalog);
    }
    if plan.is_none() {
        return Some(Refusal::NoPlan);
    }
    if refers_to_lacking(facts.catalog, facts.currency, plan) {
        return Some(Refusal::NoPrice);
    }
    if facts.timeline.find(create.subscription).is_some() {
        return Some(Refusal::SubscriptionExists);
    }
    if !may_join(facts, bundle, create.product, day) {
        return Some(Refusal::BundleRule);
    }
    if facts
        .blocks
        .blocked(bundle_chain(bundle), Flag::Change, day.reach())
    {
        return Some(Refusal::ChangeBlocked);
    }
    if MAX_SUBSCRIPTIONS <= facts.timeline.len() {
        return Some(Refusal::Limit {
            which: 2,
            limit: MAX_SUBSCRIPTIONS,
        });
    }
    None
}

/// The plan that a start asks for.
fn wish_of(create: &Create) -> Wish
    ensures { result ≡ told.wish_of create.now }
{
    Wish {
        product: create.product,
        period: create.period,
        list: create.list,
    }
}

/// Whose blocking states stop a start in a bundle that may not be there yet.
fn bundle_chain(bundle: Option<u32>) -> Chain
    ensures { result ≡ bundle_chain bundle }
{
    Chain {
        bundle,
        subscription: None,
    }
}

/// The timeline with a start that isn't refused.
fn started(alloc: Global, facts: &Facts, today: Day, create: &Create) -> Result<Timeline, NoMemory>
    requires accepted { first_refusal (create_rows facts.now today create.now) ≡ None }
    ensures { IfOk result (λ timeline. timeline ≡ told.started facts.now today create.now) }
{
    let day = asked_day(create.day, today);
    let addon = is_add_on(category_on(facts.catalog, day, create.product));
    let entry = start_entry(facts, day, create);
    // A timeline refuses a start for no other reason than those that are looked at above.
    match facts
        .timeline
        .create(alloc, create.bundle, create.subscription, addon, entry)
    {
        Ok(timeline) => Ok(timeline),
        Err(_) => Err(NoMemory),
    }
}

/// The first entry of a subscription that starts on a day.
fn start_entry(facts: &Facts, day: Day, create: &Create) -> Entry
    ensures { result ≡ told.start_entry facts.now day create.now }
{
    let wish = wish_of(create);
    Entry {
        day,
        plan: plan_of(facts, day, &wish),
        anchor: anchor_of(facts, create.bundle, day, &wish),
    }
}

/// The plan of a start.
fn plan_of(facts: &Facts, day: Day, wish: &Wish) -> PlanRef
    ensures { result ≡ told.some_plan (plan_asked facts.now.catalog day wish.now) }
{
    some_plan(plan_asked(facts.catalog, day, wish))
}

/// From which day the phases of a start in a bundle are counted.
fn anchor_of(facts: &Facts, bundle: Name, day: Day, wish: &Wish) -> Day
    ensures { result
        ≡ unwrap_or (create_anchor facts.now (bundle_named facts.now.timeline bundle) day wish.now) day }
{
    let bundle = facts.timeline.find_bundle(bundle);
    create_anchor(facts, bundle, day, wish).unwrap_or(day)
}
