//! What governs a day of a subscription.
ghost use Rattle.std.specs.Prelude.{◌≡◌, ◌<◌, ◌≤◌, ◌^◌, length, map, IfSome};
ghost use Rattle.kb_days.specs.Calendar.{first_day};
ghost use Rattle.kb_catalog.specs.declared.phase.Phase.{Phase};
ghost use Rattle.kb_align.specs.Phases.{phase_on};
ghost use Rattle.kb_due.specs.Governing.{choice_of, choice_in, governing_phase, governing_choice};
ghost use Rattle.kb_due.specs.Governing.{governing_by, governing_on, IsBegun};

use kb_align::{PhaseAt, begun_phase, next_start};
use kb_catalog::{Catalog, Phase, Plan, PriceList, Valid};
use kb_days::{Day, Reach};
use kb_timeline::{Entries, Entry, PlanRef};
use std::marker::Model;

/// A plan that an entry refers to, with its version and the list by which it was chosen.
#[derive(Drop)]
pub struct Choice<'a> {
    pub version: &'a Valid,
    pub list: &'a PriceList,
    pub plan: &'a Plan,
}

impl<'a> Model for Choice<'a> {
    ghost use Rattle.std.specs.Prelude.{◌<◌, ◌^◌, length};
    ghost use Rattle.kb_due.specs.Governing.{Choice};

    ghost Value = { Choice };

    ghost view = { λ choice. record {
      version = choice.version.now;
      list = choice.list.now;
      plan =
          choice.plan.now;
    } };

    ghost invariant = { λ choice. length choice.plan.now.phases < 2 ^ 32 };
}

/// An entry, what it chose, and the phase that governs a day, with its place and start.
#[derive(Drop)]
pub struct Governing<'a> {
    pub entry: &'a Entry,
    pub choice: Choice<'a>,
    pub place: u32,
    pub start: Reach,
    pub phase: &'a Phase,
}

impl<'a> Model for Governing<'a> {
    ghost use Rattle.kb_due.specs.Governing.{Governing};

    ghost Value = { Governing };

    ghost view = { λ governing. record {
      entry = governing.entry.now;
      choice = governing.choice;
      place = governing.place;
      start = governing.start;
      phase = governing.phase.now;
    } };
}

/// The plan that an entry refers to, with its version and list, where they are there.
pub fn choice_of(catalog: &Catalog, place: PlanRef) -> Option<Choice<'_>>
    ensures { result ≡ choice_of catalog.now place }
{
    if catalog.len() <= place.version {
        return None;
    }
    choice_in(catalog.version(place.version), place)
}

/// The list and the plan at their places in a version, where they are there.
fn choice_in(version: &Valid, place: PlanRef) -> Option<Choice<'_>>
    ensures { result ≡ choice_in place version.now }
{
    let list = version.version().lists.as_slice().get(place.list as usize)?;
    let plan = version.version().plans.as_slice().get(place.plan as usize)?;
    Some(Choice {
        version,
        list,
        plan,
    })
}

/// What governs a day of a subscription with these entries: none before the start.
pub fn governing_on<'a>(
    catalog: &'a Catalog,
    entries: &'a Entries,
    day: Reach,
) -> Option<Governing<'a>>
    ensures value { result ≡ governing_on catalog.now entries.now day }
    ensures begun { IfSome result (λ governing. IsBegun governing day) }
{
    let entry = entries.on(day)?;
    governing_by(catalog, entry, day)
}

/// What governs a day by an entry.
fn governing_by<'a>(catalog: &'a Catalog, entry: &'a Entry, day: Reach) -> Option<Governing<'a>>
    requires dated { entry.now.day ≤ day }
    ensures value { result ≡ governing_by catalog.now entry.now day }
    ensures begun { IfSome result (λ governing. IsBegun governing day) }
{
    let choice = choice_of(catalog, entry.plan)?;
    governing_choice(entry, choice, day)
}

/// What governs a day by what an entry chose.
fn governing_choice<'a>(entry: &'a Entry, choice: Choice<'a>, day: Reach) -> Option<Governing<'a>>
    requires dated { entry.now.day ≤ day }
    ensures value { result ≡ governing_choice entry.now day choice.entry }
    ensures begun { IfSome result (λ governing. IsBegun governing day) }
{
    let at = phase_on(entry.anchor, choice.plan.phases.as_slice(), day)?;
    governing_phase(entry, choice, at)
}

/// A phase as it governs by what an entry chose.
fn governing_phase<'a>(entry: &'a Entry, choice: Choice<'a>, at: PhaseAt) -> Option<Governing<'a>>
    ensures value { result ≡ governing_phase entry.now choice.entry at }
    ensures same { IfSome result (λ governing. (governing.entry ≡ entry.now) × (governing.start ≡ at.start)) }
{
    let phase = choice.plan.phases.as_slice().get(at.index as usize)?;
    Some(Governing {
        entry,
        choice,
        place: at.index,
        start: at.start,
        phase,
    })
}

/// The last of these phases that starts on or before a day.
#[tactic(auto, unfolding(kb_align::specs::Phases::phase_on, kb_align::specs::Phases::phase_starts))]
fn phase_on(anchor: Day, phases: &[Phase], day: Reach) -> Option<PhaseAt>
    requires counted { length phases.now < 2 ^ 32 }
    ensures value { result ≡ phase_on anchor (map (λ (phase : Phase). phase.span) phases.now) day }
    ensures begun { IfSome result (λ phase. (first_day ≤ phase.start) × (phase.start ≤ day)) }
{
    let mut start = Some(anchor.reach());
    let mut last = None;
    for (place, phase) in phases.iter().enumerate() {
        if let Some(begun) = begun_phase(place as u32, &start, day) {
            last = Some(begun);
        }
        start = next_start(&start, phase.span);
    }
    last
}
