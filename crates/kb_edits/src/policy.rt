//! When the rules let a change or a cancellation take effect.
ghost use Rattle.std.specs.Prelude.{◌≡◌, ◌<◌, length};
ghost use Rattle.kb_book.specs.Wishes as told;
ghost use Rattle.kb_book.specs.Effects.{change_ask, change_policy, cancel_policy};

use crate::category::category_in;
use crate::plan::version_on;
use kb_book::Wish;
use kb_catalog::{ChangeAsk, PlanAsk, Policy, Valid};
use kb_days::{Day, Reach};
use kb_due::{Facts, Governing, ask_of, governing_on};

/// What governs a day of the subscription at a place: none before its start.
pub(crate) fn governing_of<'a>(facts: &Facts<'a>, sub: u32, day: Reach) -> Option<Governing<'a>>
    requires there { sub < length facts.now.timeline.subscriptions }
    ensures { result ≡ told.governing_of facts.now sub day }
{
    governing_on(
        facts.catalog,
        &facts.timeline.subscription(sub).entries,
        day,
    )
}

/// What governs, as the rules of a version look at it.
pub(crate) fn governing_ask(governing: &Governing) -> PlanAsk
    ensures { result ≡ told.governing_ask governing.now }
{
    ask_of(&governing.choice, governing.phase)
}

/// A wish, as the rules of a version look at it.
pub(crate) fn wish_ask(version: &Valid, wish: &Wish) -> PlanAsk
    ensures { result ≡ told.wish_ask version.now wish.now }
{
    PlanAsk {
        product: wish.product,
        category: category_in(version, wish.product),
        period: wish.period,
        list: wish.list,
        phase: None,
    }
}

/// A change from what governs to a wish, as the rules of a version look at it.
pub(crate) fn change_ask(version: &Valid, governing: &Governing, wish: &Wish) -> ChangeAsk
    ensures { result ≡ change_ask version.now governing.now wish.now }
{
    ChangeAsk {
        from: governing_ask(governing),
        to: wish_ask(version, wish),
    }
}

/// The policy of a change that is asked for on a day: by the version of that day, and what governs it.
pub(crate) fn change_policy(facts: &Facts, sub: u32, day: Day, wish: &Wish) -> Option<Policy>
    requires there { sub < length facts.now.timeline.subscriptions }
    ensures { result ≡ change_policy facts.now sub day wish.now }
{
    let version = version_on(facts.catalog, day)?;
    let governing = governing_of(facts, sub, day.reach())?;
    Some(version.change_policy(&change_ask(version, &governing, wish)))
}

/// The policy of a cancellation that is asked for on a day.
pub(crate) fn cancel_policy(facts: &Facts, sub: u32, day: Day) -> Option<Policy>
    requires there { sub < length facts.now.timeline.subscriptions }
    ensures { result ≡ cancel_policy facts.now sub day }
{
    let version = version_on(facts.catalog, day)?;
    let governing = governing_of(facts, sub, day.reach())?;
    Some(version.cancel_policy(&governing_ask(&governing)))
}
