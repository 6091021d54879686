//! A subscription, and its edits.
ghost use Rattle.std.specs.Prelude.{◌≡◌, None, Err, IfOk, IfErr, IfSome};
ghost use Rattle.kb_timeline.specs.SubscriptionEdits.{change_of, change_fault_of, cancel_of, cancel_fault_of};
ghost use Rattle.kb_timeline.specs.SubscriptionEdits.{uncancel_of, uncancel_fault_of};

use crate::edit_fault::EditFault;
use crate::entries::Entries;
use crate::entry::Entry;
use kb_base::NoMemory;
use kb_days::{Day, Name};
use std::alloc::Global;

/// A subscription of an account.
#[derive(Debug)]
pub struct Subscription {
    pub name: Name,
    /// The place of its bundle, from 0.
    pub bundle: u32,
    /// Whether it was created as an add-on to the lead of its bundle.
    pub addon: bool,
    pub entries: Entries,
    /// The first day on which it isn't live any more, where it is cancelled.
    pub cancel: Option<Day>,
}

impl Drop for Subscription {
    /// Drops its entries. No crate above has to show again how that is dropped.
    fn drop(self) {
        let Subscription {
            name: _name,
            bundle: _bundle,
            addon: _addon,
            entries: _entries,
            cancel: _cancel,
        } = self;
    }
}

impl Subscription {
    /// The subscription after a change.
    pub(crate) fn changed(&self, alloc: Global, change: Entry) -> Result<Subscription, EditFault>
        ensures changed { IfOk result (λ subscription. subscription ≡ change_of change self.now) }
        ensures refused { IfSome (change_fault_of change self.now) (λ fault. result ≡ Err fault) }
        ensures memory { change_fault_of change self.now ≡ None
            → IfErr result (λ fault. fault ≡ EditFault.NoMemory) }
    {
        if self.entries.is_before_start(change.day) {
            return Err(EditFault::BeforeStart);
        }
        if self.cancel.is_some() {
            return Err(EditFault::Cancelled);
        }
        let entries = self.entries.with_change(alloc, change)?;
        Ok(self.with(entries, None))
    }

    /// The subscription with a cancellation on a day.
    pub(crate) fn cancelled(&self, alloc: Global, day: Day) -> Result<Subscription, EditFault>
        ensures cancelled { IfOk result (λ subscription. subscription ≡ cancel_of day self.now) }
        ensures refused { IfSome (cancel_fault_of day self.now) (λ fault. result ≡ Err fault) }
        ensures memory { cancel_fault_of day self.now ≡ None
            → IfErr result (λ fault. fault ≡ EditFault.NoMemory) }
    {
        if self.entries.is_before_start(day) {
            return Err(EditFault::BeforeStart);
        }
        if self.cancel.is_some() {
            return Err(EditFault::Cancelled);
        }
        let entries = self.entries.copy(alloc)?;
        Ok(self.with(entries, Some(day)))
    }

    /// The subscription without its cancellation.
    pub(crate) fn uncancelled(&self, alloc: Global) -> Result<Subscription, EditFault>
        ensures uncancelled { IfOk result (λ subscription. subscription ≡ uncancel_of self.now) }
        ensures refused { IfSome (uncancel_fault_of self.now) (λ fault. result ≡ Err fault) }
        ensures memory { uncancel_fault_of self.now ≡ None
            → IfErr result (λ fault. fault ≡ EditFault.NoMemory) }
    {
        if self.cancel.is_none() {
            return Err(EditFault::NotCancelled);
        }
        let entries = self.entries.copy(alloc)?;
        Ok(self.with(entries, None))
    }

    /// The subscription with these entries, and a cancellation or none.
    fn with(&self, entries: Entries, cancel: Option<Day>) -> Subscription
        ensures { result ≡ record self.now { entries = entries; cancel = cancel } }
    {
        Subscription {
            name: self.name,
            bundle: self.bundle,
            addon: self.addon,
            entries,
            cancel,
        }
    }
}
