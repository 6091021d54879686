//! From which day the phases of a plan are counted.
ghost use Rattle.std.specs.Prelude.{◌≡◌, ◌<◌, length, option_copied};
ghost use Rattle.kb_book.specs.Anchors as told;

use crate::plan::version_on;
use crate::policy::{change_ask, governing_of, wish_ask};
use kb_book::Wish;
use kb_catalog::Align;
use kb_days::Day;
use kb_due::Facts;
use kb_timeline::Subscription;

/// The anchor of a start on a day, in a bundle that may not be there yet: none where there is no version.
pub fn create_anchor(facts: &Facts, bundle: Option<u32>, day: Day, wish: &Wish) -> Option<Day>
    ensures { result ≡ told.create_anchor facts.now bundle day wish.now }
{
    let version = version_on(facts.catalog, day)?;
    let align = version.create_alignment(&wish_ask(version, wish));
    Some(anchor_by(Align::from(align), bundle_lead(facts, bundle), day, day))
}

/// The anchor of a change of the subscription at a place, that is asked for on one day and takes effect on
/// another.
pub fn change_anchor(facts: &Facts, sub: u32, day: Day, effect: Day, wish: &Wish) -> Option<Day>
    requires there { sub < length facts.now.timeline.subscriptions }
    ensures { result ≡ told.change_anchor facts.now sub day effect wish.now }
{
    let version = version_on(facts.catalog, effect)?;
    let governing = governing_of(facts, sub, day.reach())?;
    let align = version.change_alignment(&change_ask(version, &governing, wish));
    let subscription = facts.timeline.subscription(sub);
    Some(anchor_by(
        align,
        bundle_lead(facts, Some(subscription.bundle)),
        subscription.entries.start().day,
        effect,
    ))
}

/// From which day phases are counted: the start of the bundle's lead, that of the subscription, or the day of
/// effect.
fn anchor_by(align: Align, lead: Option<&Subscription>, start: Day, effect: Day) -> Day
    ensures { result ≡ told.anchor_by align (option_copied lead.entry) start effect }
{
    match align {
        Align::StartOfBundle => match lead {
            Some(lead) => lead.entries.start().day,
            None => start,
        },
        Align::StartOfSubscription => start,
        Align::ChangeOfPlan => effect,
    }
}

/// The lead of a bundle, if the bundle is there.
pub(crate) fn bundle_lead<'a>(facts: &Facts<'a>, bundle: Option<u32>) -> Option<&'a Subscription>
    ensures { option_copied result ≡ told.bundle_lead facts.now bundle }
{
    let lead = facts.timeline.lead(bundle?)?;
    Some(facts.timeline.subscription(lead))
}
