//! The entries of a subscription.
ghost use Rattle.std.specs.Prelude.{◌≡◌, ◌↔◌, ◌<◌, ◌≤◌, ◌+◌, ◌++◌, ◌∷◌, [], true, false, length, take, drop};
ghost use Rattle.std.specs.Prelude.{slice_get, Some, None, Err, All, IfOk, IfErr, IfSome, option_and_then};
ghost use Rattle.std.specs.Prelude.{option_copied};
ghost use Rattle.std.specs.List.Sorted.{IsPartitionPoint};
ghost use Rattle.kb_timeline.specs.declared.entry.Entry.{Entry};
ghost use Rattle.kb_timeline.specs.EntryDays.{max_entries, IsEntries, entry_on, is_before_start};
ghost use Rattle.kb_timeline.specs.EntryDays.{kept_by_change, with_change};

use crate::edit_fault::{EditFault, Limit};
use crate::entry::Entry;
use kb_base::{NoMemory, Seq};
use kb_days::{Day, Reach};
use std::alloc::Global;
use std::marker::Model;

/// The most entries that a subscription has.
pub const MAX_ENTRIES: usize = 1024;

/// The entries of a subscription: its start, and its changes by rising day, the first of which may be dated
/// on the start's day. There are at most `MAX_ENTRIES`.
#[derive(Debug, Drop)]
pub struct Entries {
    items: Seq<Entry>,
}

impl Model for Entries {
    ghost use Rattle.std.specs.Prelude.{List};
    ghost use Rattle.kb_timeline.specs.declared.entry.Entry.{Entry};
    ghost use Rattle.kb_timeline.specs.EntryDays.{IsEntries};

    ghost Value = { List Entry };

    ghost view = { λ entries. entries.items };

    ghost invariant = { λ entries. IsEntries entries.items };
}

impl Entries {
    /// A start without a change.
    pub fn first(alloc: Global, start: Entry) -> Result<Entries, NoMemory>
        ensures { IfOk result (λ entries. entries ≡ start ∷ []) }
    {
        let mut items = Seq::new(alloc);
        items.push(start)?;
        Ok(Entries { items })
    }

    /// The entries, from the start on.
    pub fn as_slice(&self) -> &[Entry]
        ensures same { result.now ≡ self.now }
        ensures sound { IsEntries result.now }
    {
        self.items.as_slice()
    }

    /// The start.
    pub fn start(&self) -> &Entry
        ensures { slice_get self.now 0 ≡ Some result.now }
    {
        &self.as_slice()[0]
    }

    /// Whether a day lies before the start.
    pub fn is_before_start(&self, day: Day) -> bool
        ensures { result ≡ is_before_start self.now day }
    {
        day < self.start().day
    }

    /// The place, from 0, of the entry that governs a day: the last one dated on or before it. It takes no
    /// memory.
    pub fn governing(&self, day: Reach) -> Option<u32>
        ensures entry { option_and_then (slice_get self.now) result ≡ entry_on self.now day }
        ensures last { IfSome result (λ place.
            All (λ (later : Entry). day < later.day) (drop (place + 1) self.now)) }
        ensures before { (result ≡ None) ↔ (is_before_start self.now day ≡ true) }
    {
        let count = self.count_begun(day);
        if count == 0 {
            None
        } else {
            Some((count - 1) as u32)
        }
    }

    /// The entry that governs a day. It takes no memory.
    pub fn on(&self, day: Reach) -> Option<&Entry>
        ensures entry { option_copied result ≡ entry_on self.now day }
        ensures dated { IfSome result (λ entry. entry.now.day ≤ day) }
    {
        match self.governing(day) {
            None => None,
            Some(place) => self.at(place),
        }
    }

    /// The entry at a place.
    fn at(&self, place: u32) -> Option<&Entry>
        ensures { option_copied result ≡ slice_get self.now place }
    {
        self.as_slice().get(place as usize)
    }

    /// The same entries.
    pub(crate) fn copy(&self, alloc: Global) -> Result<Entries, NoMemory>
        ensures { IfOk result (λ entries. entries ≡ self.now) }
    {
        let items = Seq::from_vec(self.as_slice().to_vec(alloc)?);
        Ok(Entries { items })
    }

    /// How many entries are dated on or before a day.
    fn count_begun(&self, day: Reach) -> usize
        ensures begun { IsPartitionPoint (λ (entry : Entry). entry.day ≤ day)
            (λ (entry : Entry). day < entry.day) self.now result }
        ensures inside { result ≤ length self.now }
        ensures sound { IsEntries self.now }
    {
        self.as_slice()
            .partition_point(|entry| entry.day.reach() <= day)
    }

    /// How many entries a change on a day leaves.
    fn count_kept(&self, day: Day) -> usize
        ensures kept { kept_by_change day self.now ≡ take result self.now }
        ensures some { 0 < result }
        ensures inside { result ≤ length self.now }
    {
        self.changes().partition_point(|change| change.day < day) + 1
    }

    /// The entries behind the start.
    fn changes(&self) -> &[Entry]
        ensures same { result.now ≡ drop 1 self.now }
        ensures sound { IsEntries self.now }
    {
        self.as_slice().split_at(1).1
    }

    /// The entries that a change leaves, and the change.
    pub(crate) fn with_change(&self, alloc: Global, change: Entry) -> Result<Entries, EditFault>
        requires begun { is_before_start self.now change.day ≡ false }
        ensures changed { IfOk result (λ entries. entries ≡ with_change self.now change) }
        ensures limit { max_entries < length (with_change self.now change)
            → result ≡ Err (EditFault.Limit Limit.Entries) }
        ensures memory { length (with_change self.now change) ≤ max_entries
            → IfErr result (λ fault. fault ≡ EditFault.NoMemory) }
    {
        let kept = self.count_kept(change.day);
        if kept == MAX_ENTRIES {
            return Err(EditFault::Limit(Limit::Entries));
        }
        let items = with_entry(alloc, &self.as_slice()[..kept], change)?;
        Ok(Entries { items })
    }
}

/// Some entries, and another one behind them.
fn with_entry(alloc: Global, entries: &[Entry], entry: Entry) -> Result<Seq<Entry>, NoMemory>
    ensures { IfOk result (λ longer. longer ≡ entries.now ++ entry ∷ []) }
{
    let mut items = Seq::from_vec(entries.to_vec(alloc)?);
    items.push(entry)?;
    Ok(items)
}
