//! The subscriptions of an account.
ghost use Rattle.std.specs.Prelude.{◌≡◌, ◌↔◌, ◌<◌, ◌+◌, true, length};
ghost use Rattle.std.specs.Prelude.{map, drop, slice_get, Some, None, Err, All, IsSome, IfOk, IfErr, IfSome};
ghost use Rattle.std.specs.Prelude.{option_and_then};
ghost use Rattle.std.specs.Arc.{arc_value};
ghost use Rattle.kb_timeline.specs.declared.entry.Entry.{Entry};
ghost use Rattle.kb_timeline.specs.declared.subscription.Subscription.{Subscription};
ghost use Rattle.kb_timeline.specs.EntryDays.{entry_on, is_before_start};
ghost use Rattle.kb_timeline.specs.TimelineEdits.{IsTimeline, IsLead, no_subscriptions, bundle_named};
ghost use Rattle.kb_timeline.specs.TimelineEdits.{subscription_named, lead_of, entries_at, with_name};
ghost use Rattle.kb_timeline.specs.TimelineEdits.{created, create_fault, with_edit, changed};
ghost use Rattle.kb_timeline.specs.TimelineEdits.{change_fault, cancelled, cancel_fault, uncancelled};
ghost use Rattle.kb_timeline.specs.TimelineEdits.{uncancel_fault};

use crate::edit_fault::{EditFault, Limit};
use crate::entries::Entries;
use crate::entry::Entry;
use crate::places::{bundle_named, first_of, subscription_named};
use crate::sharing::{same_names, with_another, with_name, with_subscription};
use crate::subscription::Subscription;
use kb_base::Seq;
use kb_days::{Day, Name, Reach};
use std::alloc::Global;
use std::marker::Model;
use std::sync::Arc;

/// The most subscriptions that an account has.
pub const MAX_SUBSCRIPTIONS: u32 = 128;

/// The bundles and subscriptions of an account, each in order of creation: at most `MAX_SUBSCRIPTIONS`
/// subscriptions. An edited timeline shares the subscriptions that stay as they were.
#[derive(Debug)]
pub struct Timeline {
    bundles: Seq<Name>,
    subscriptions: Vec<Arc<Subscription>>,
}

impl Model for Timeline {
    ghost use Rattle.std.specs.Prelude.{map};
    ghost use Rattle.std.specs.Arc.{arc_value};
    ghost use Rattle.kb_timeline.specs.TimelineEdits.{TimelineValue, IsTimeline};

    ghost Value = { TimelineValue };

    ghost view = { λ timeline. record {
      bundles = timeline.bundles;
      subscriptions = map arc_value timeline.subscriptions.items;
    } };

    ghost invariant = { λ timeline. IsTimeline (record {
      bundles = timeline.bundles;
      subscriptions = map arc_value timeline.subscriptions.items;
    }) };
}

impl Drop for Timeline {
    /// Drops what no other timeline shares. No crate above has to show again how that is dropped.
    fn drop(self) {
        let Timeline {
            bundles: _bundles,
            subscriptions: _subscriptions,
        } = self;
    }
}

impl Timeline {
    /// The timeline of a new account.
    pub fn new(alloc: Global) -> Timeline
        ensures { result ≡ no_subscriptions }
    {
        Timeline {
            bundles: Seq::new(alloc),
            subscriptions: Vec::new(alloc),
        }
    }

    /// The names of the bundles.
    pub fn bundles(&self) -> &[Name]
        ensures same { result.now ≡ self.now.bundles }
    {
        self.bundles.as_slice()
    }

    /// How many subscriptions there are.
    pub fn len(&self) -> u32
        ensures { result ≡ length self.now.subscriptions }
    {
        self.subscriptions.len() as u32
    }

    /// The subscription at a place, from 0.
    pub fn subscription(&self, place: u32) -> &Subscription
        requires there { place < length self.now.subscriptions }
        ensures member { slice_get self.now.subscriptions place ≡ Some result.now }
        ensures sound { IsTimeline self.now }
    {
        &self.subscriptions[place as usize]
    }

    /// The place of the subscription of a name.
    pub fn find(&self, name: Name) -> Option<u32>
        ensures { result ≡ subscription_named self.now name }
    {
        subscription_named(&self.subscriptions, name)
    }

    /// The place of the bundle of a name.
    pub fn find_bundle(&self, name: Name) -> Option<u32>
        ensures { result ≡ bundle_named self.now name }
    {
        bundle_named(self.bundles.as_slice(), name)
    }

    /// The place of a bundle's lead: its first subscription. Every bundle has one. It takes no memory.
    pub fn lead(&self, bundle: u32) -> Option<u32>
        ensures place { result ≡ lead_of self.now bundle }
        ensures led { bundle < length self.now.bundles → IsSome result }
        ensures there { IfSome result (λ place. place < length self.now.subscriptions) }
        ensures first { IfSome result (λ place. IsLead self.now bundle place) }
    {
        first_of(&self.subscriptions, bundle)
    }

    /// The place, among the entries of the subscription at a place, of the one that governs a day: the last
    /// one dated on or before it. It takes no memory.
    pub fn governing(&self, sub: u32, day: Reach) -> Option<u32>
        requires there { sub < length self.now.subscriptions }
        ensures entry { option_and_then (slice_get (entries_at self.now sub)) result
            ≡ entry_on (entries_at self.now sub) day }
        ensures last { IfSome result (λ place.
            All (λ (later : Entry). day < later.day) (drop (place + 1) (entries_at self.now sub))) }
        ensures before { (result ≡ None) ↔ (is_before_start (entries_at self.now sub) day ≡ true) }
    {
        self.subscription(sub).entries.governing(day)
    }

    /// The timeline with a subscription more, in the bundle of a name, which is created if it isn't there.
    /// Refused as `SubscriptionExists` if a subscription has the name, and by the limit if there are
    /// `MAX_SUBSCRIPTIONS`.
    pub fn create(
        &self,
        alloc: Global,
        bundle: Name,
        name: Name,
        addon: bool,
        first: Entry,
    ) -> Result<Timeline, EditFault>
        ensures created { IfOk result (λ timeline. timeline ≡ created self.now bundle name addon first) }
        ensures refused { IfSome (create_fault self.now name) (λ fault. result ≡ Err fault) }
        ensures memory { create_fault self.now name ≡ None
            → IfErr result (λ fault. fault ≡ EditFault.NoMemory) }
    {
        if let Some(fault) = self.create_fault(name) {
            return Err(fault);
        }
        let place = self.find_bundle(bundle);
        let subscription = Subscription {
            name,
            bundle: place.unwrap_or(self.bundles.len() as u32),
            addon,
            entries: Entries::first(alloc, first)?,
            cancel: None,
        };
        let bundles = with_name(alloc, self.bundles(), place, bundle)?;
        let subscriptions = with_subscription(alloc, &self.subscriptions, subscription)?;
        Ok(Timeline {
            bundles,
            subscriptions,
        })
    }

    /// The timeline with a change of the subscription at a place: the changes dated on or after it go.
    /// Refused as `BeforeStart` if it is dated before the start, as `Cancelled` if the subscription is
    /// cancelled on whichever day, and by the limit if `MAX_ENTRIES` would stand before it.
    pub fn change(&self, alloc: Global, sub: u32, entry: Entry) -> Result<Timeline, EditFault>
        requires there { sub < length self.now.subscriptions }
        ensures changed { IfOk result (λ timeline. timeline ≡ changed self.now sub entry) }
        ensures refused { IfSome (change_fault self.now sub entry) (λ fault. result ≡ Err fault) }
        ensures memory { change_fault self.now sub entry ≡ None
            → IfErr result (λ fault. fault ≡ EditFault.NoMemory) }
    {
        let subscription = self.subscription(sub).changed(alloc, entry)?;
        self.with_edited(alloc, sub, subscription)
    }

    /// The timeline with a cancellation of the subscription at a place: it is live on the days before it, and
    /// the changes dated later stay. Refused as `BeforeStart` and as `Cancelled` as a change is.
    pub fn cancel(&self, alloc: Global, sub: u32, day: Day) -> Result<Timeline, EditFault>
        requires there { sub < length self.now.subscriptions }
        ensures cancelled { IfOk result (λ timeline. timeline ≡ cancelled self.now sub day) }
        ensures refused { IfSome (cancel_fault self.now sub day) (λ fault. result ≡ Err fault) }
        ensures memory { cancel_fault self.now sub day ≡ None
            → IfErr result (λ fault. fault ≡ EditFault.NoMemory) }
    {
        let subscription = self.subscription(sub).cancelled(alloc, day)?;
        self.with_edited(alloc, sub, subscription)
    }

    /// The timeline without the cancellation, past or future, of the subscription at a place. Refused as
    /// `NotCancelled` if there is none.
    pub fn uncancel(&self, alloc: Global, sub: u32) -> Result<Timeline, EditFault>
        requires there { sub < length self.now.subscriptions }
        ensures uncancelled { IfOk result (λ timeline. timeline ≡ uncancelled self.now sub) }
        ensures refused { IfSome (uncancel_fault self.now sub) (λ fault. result ≡ Err fault) }
        ensures memory { uncancel_fault self.now sub ≡ None
            → IfErr result (λ fault. fault ≡ EditFault.NoMemory) }
    {
        let subscription = self.subscription(sub).uncancelled(alloc)?;
        self.with_edited(alloc, sub, subscription)
    }

    /// Why no subscription of a name is created, if none is.
    fn create_fault(&self, name: Name) -> Option<EditFault>
        ensures { result ≡ create_fault self.now name }
    {
        if self.find(name).is_some() {
            Some(EditFault::SubscriptionExists)
        } else if self.len() < MAX_SUBSCRIPTIONS {
            None
        } else {
            Some(EditFault::Limit(Limit::Subscriptions))
        }
    }

    /// The timeline with another value of the subscription at a place, of the same name and bundle.
    fn with_edited(
        &self,
        alloc: Global,
        sub: u32,
        subscription: Subscription,
    ) -> Result<Timeline, EditFault>
        requires there { sub < length self.now.subscriptions }
        requires same { IfSome (slice_get self.now.subscriptions sub) (λ old.
            (subscription.name ≡ old.name) × (subscription.bundle ≡ old.bundle)) }
        ensures edited { IfOk result (λ timeline. timeline ≡ with_edit self.now sub (λ _. subscription)) }
        ensures memory { IfErr result (λ fault. fault ≡ EditFault.NoMemory) }
    {
        let bundles = same_names(alloc, self.bundles())?;
        let subscriptions = with_another(alloc, &self.subscriptions, sub, subscription)?;
        Ok(Timeline {
            bundles,
            subscriptions,
        })
    }
}
