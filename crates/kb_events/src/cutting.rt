//! The days on which what charges a subscription may change.
ghost use Rattle.std.specs.Prelude.{◌≡◌, ◌≤◌, map, All, IfOk, IfSome, OnOk, option_copied};
ghost use Rattle.kb_events.specs.Private.Cuts.{HasDay, HasStarts, HasPhases, HasEntry, HasEntryDays, HasLead};
ghost use Rattle.kb_events.specs.Private.Cuts.{HasLeadOf, HasChanges, KeepsDays, AreCuts};
ghost use Rattle.kb_catalog.specs.declared.phase.Phase.{Phase};
ghost use Rattle.kb_days.specs.Calendar.{first_day, end_of_days};
ghost use Rattle.kb_align.specs.Phases.{phase_starts};

use kb_align::next_start;
use kb_base::NoMemory;
use kb_catalog::{Catalog, Phase};
use kb_days::{Day, END_OF_DAYS, FIRST_DAY, Reach};
use kb_due::{Facts, choice_of, lead_of};
use kb_timeline::{Entry, Subscription};
use std::alloc::Global;

/// How many cuts most subscriptions have at most.
const FEW: usize = 16;

/// The days on which something may change that charges a subscription but the boundaries of its periods,
/// rising, up to the day after the last one that may be charged: the days of its entries and of the
/// phases that they count, its cancellation, the entries and the cancellation of its lead if it is an add-on,
/// and the turns of the billing flag.
pub(crate) fn cuts(
    alloc: Global,
    facts: &Facts,
    subscription: &Subscription,
    turns: &[Day],
) -> Result<Vec<u32>, NoMemory>
    ensures cuts { IfOk result (λ cuts. AreCuts cuts.items facts.now subscription.now) }
    ensures turned { IfOk result (λ cuts. All (HasDay cuts.items) turns.now) }
{
    let mut days = Vec::with_capacity(alloc, FEW)?;
    days.push(END_OF_DAYS)?;
    push_changes(&mut days, facts, subscription, turns)?;
    days.sort()?;
    Ok(days)
}

/// The day of a cut.
pub(crate) fn cut_day(cut: u32) -> Reach
    requires named { first_day ≤ cut }
    requires told { cut ≤ end_of_days }
    ensures { result ≡ cut }
{
    Reach::new(cut).unwrap()
}

/// Adds all days on which something may change for a subscription.
fn push_changes(
    days: &mut Vec<u32>,
    facts: &Facts,
    subscription: &Subscription,
    turns: &[Day],
) -> Result<(), NoMemory>
    ensures keeps { OnOk result (KeepsDays days.old.items days.new.items) }
    ensures has { OnOk result (HasChanges days.new.items facts.now subscription.now) }
    ensures turned { OnOk result (All (HasDay days.new.items) turns.now) }
{
    push_entries(days, facts.catalog, subscription.entries.as_slice())?;
    push_end(days, subscription.cancel)?;
    push_lead_of(days, facts, subscription)?;
    push_turns(days, turns)?;
    Ok(())
}

/// Adds the days of the lead of an add-on.
fn push_lead_of(
    days: &mut Vec<u32>,
    facts: &Facts,
    subscription: &Subscription,
) -> Result<(), NoMemory>
    ensures keeps { OnOk result (KeepsDays days.old.items days.new.items) }
    ensures has { OnOk result (HasLeadOf days.new.items facts.now subscription.now) }
{
    if subscription.addon {
        push_lead(days, lead_of(facts, subscription))
    } else {
        Ok(())
    }
}

/// Adds the days on which the phases start that an entry counts.
fn push_phases(days: &mut Vec<u32>, catalog: &Catalog, entry: &Entry) -> Result<(), NoMemory>
    ensures keeps { OnOk result (KeepsDays days.old.items days.new.items) }
    ensures has { OnOk result (HasPhases days.new.items catalog.now entry.now) }
{
    match choice_of(catalog, entry.plan) {
        None => Ok(()),
        Some(choice) => push_starts(days, entry.anchor, choice.plan.phases.as_slice()),
    }
}

/// Adds the days on which the phases of a plan start, counted from an anchor.
fn push_starts(days: &mut Vec<u32>, anchor: Day, phases: &[Phase]) -> Result<(), NoMemory>
    ensures keeps { OnOk result (KeepsDays days.old.items days.new.items) }
    ensures has { OnOk result (HasStarts days.new.items
        (phase_starts anchor (map (λ (phase : Phase). phase.span) phases.now))) }
{
    let mut start = Some(anchor.reach());
    for phase in phases {
        push_start(days, &start)?;
        start = next_start(&start, phase.span);
    }
    Ok(())
}

/// Adds the day on which a phase starts, if it is reached.
fn push_start(days: &mut Vec<u32>, start: &Option<Reach>) -> Result<(), NoMemory>
    ensures keeps { OnOk result (KeepsDays days.old.items days.new.items) }
    ensures has { OnOk result (IfSome start.now (HasDay days.new.items)) }
{
    match start {
        None => Ok(()),
        Some(start) => push_day(days, *start),
    }
}

/// Adds the days of some entries and of the phases that they count.
fn push_entries(days: &mut Vec<u32>, catalog: &Catalog, entries: &[Entry]) -> Result<(), NoMemory>
    ensures keeps { OnOk result (KeepsDays days.old.items days.new.items) }
    ensures has { OnOk result (All (HasEntry days.new.items catalog.now) entries.now) }
{
    for entry in entries {
        push_entry(days, catalog, entry)?;
    }
    Ok(())
}

/// Adds the day of an entry, and of the phases that it counts.
fn push_entry(days: &mut Vec<u32>, catalog: &Catalog, entry: &Entry) -> Result<(), NoMemory>
    ensures keeps { OnOk result (KeepsDays days.old.items days.new.items) }
    ensures has { OnOk result (HasEntry days.new.items catalog.now entry.now) }
{
    push_phases(days, catalog, entry)?;
    push_day(days, entry.day.reach())?;
    Ok(())
}

/// Adds the days of the entries of an add-on's lead, and of its cancellation.
fn push_lead(days: &mut Vec<u32>, lead: Option<&Subscription>) -> Result<(), NoMemory>
    ensures keeps { OnOk result (KeepsDays days.old.items days.new.items) }
    ensures has { OnOk result (IfSome (option_copied lead.entry) (HasLead days.new.items)) }
{
    match lead {
        None => Ok(()),
        Some(lead) => push_subscription(days, lead),
    }
}

/// Adds the days of a subscription's entries, and of its cancellation.
fn push_subscription(days: &mut Vec<u32>, subscription: &Subscription) -> Result<(), NoMemory>
    ensures keeps { OnOk result (KeepsDays days.old.items days.new.items) }
    ensures has { OnOk result (HasLead days.new.items subscription.now) }
{
    push_entry_days(days, subscription.entries.as_slice())?;
    push_end(days, subscription.cancel)?;
    Ok(())
}

/// Adds the days of some entries.
fn push_entry_days(days: &mut Vec<u32>, entries: &[Entry]) -> Result<(), NoMemory>
    ensures keeps { OnOk result (KeepsDays days.old.items days.new.items) }
    ensures has { OnOk result (HasEntryDays days.new.items entries.now) }
{
    for entry in entries {
        push_day(days, entry.day.reach())?;
    }
    Ok(())
}

/// Adds some days.
fn push_turns(days: &mut Vec<u32>, turns: &[Day]) -> Result<(), NoMemory>
    ensures keeps { OnOk result (KeepsDays days.old.items days.new.items) }
    ensures has { OnOk result (All (HasDay days.new.items) turns.now) }
{
    for turn in turns {
        push_day(days, turn.reach())?;
    }
    Ok(())
}

/// Adds the day of a cancellation.
fn push_end(days: &mut Vec<u32>, cancel: Option<Day>) -> Result<(), NoMemory>
    ensures keeps { OnOk result (KeepsDays days.old.items days.new.items) }
    ensures has { OnOk result (IfSome cancel (HasDay days.new.items)) }
{
    match cancel {
        None => Ok(()),
        Some(cancel) => push_day(days, cancel.reach()),
    }
}

/// Adds a day, if it may be charged.
fn push_day(days: &mut Vec<u32>, day: Reach) -> Result<(), NoMemory>
    ensures keeps { OnOk result (KeepsDays days.old.items days.new.items) }
    ensures has { OnOk result (HasDay days.new.items day) }
{
    if FIRST_DAY <= day.number() && day.number() < END_OF_DAYS {
        days.push(day.number())?;
    }
    Ok(())
}
