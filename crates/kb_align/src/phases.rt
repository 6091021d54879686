//! When the phases of a plan start, and which of them governs a day.
ghost use Rattle.std.specs.Prelude.{◌≡◌, ◌≤◌, ◌<◌, ◌^◌, length, Some, IfOk, IfSome, option_and_then};
ghost use Rattle.kb_align.specs.Phases.{over, phase_starts, begun_by, phase_on};

use kb_base::NoMemory;
use kb_days::{Day, Reach, Span, add};
use std::alloc::Global;

/// A phase of a plan, by its place from 0, and the day on which it starts.
#[derive(Clone, Copy, Debug)]
pub struct PhaseAt {
    pub index: u32,
    pub start: Reach,
}

/// The starts of a plan's phases, counted from an anchor: the first on the anchor, each next one where the
/// one before has lasted its span; none where it is never reached.
#[tactic(auto, using(crate::proofs::Starts::walks), unfolding(crate::specs::Phases::phase_starts))]
pub fn phase_starts(
    alloc: Global,
    anchor: Day,
    spans: &[Span],
) -> Result<Vec<Option<Reach>>, NoMemory>
    ensures starts { IfOk result (λ starts. starts.items ≡ phase_starts anchor spans.now) }
{
    let mut starts = Vec::new(alloc);
    let mut start = Some(anchor.reach());
    for span in spans {
        let next = next_start(&start, *span);
        starts.push(start)?;
        start = next;
    }
    Ok(starts)
}

/// The phase that governs a day: the last one that starts on or before it. It takes no memory.
pub fn phase_at(anchor: Day, spans: &[Span], day: Reach) -> PhaseAt
    requires some_phase { 0 < length spans.now }
    requires counted { length spans.now < 2 ^ 32 }
    requires begun { anchor ≤ day }
    ensures phase { phase_on anchor spans.now day ≡ Some result }
{
    let mut start = Some(anchor.reach());
    let mut last = PhaseAt {
        index: 0,
        start: anchor.reach(),
    };
    for (place, span) in spans.iter().enumerate() {
        if let Some(begun) = begun_phase(place as u32, &start, day) {
            last = begun;
        }
        start = next_start(&start, *span);
    }
    last
}

/// The phase at a place, if it is reached and starts on or before a day.
pub fn begun_phase(index: u32, start: &Option<Reach>, day: Reach) -> Option<PhaseAt>
    ensures { result ≡ begun_by day (index, start.now) }
{
    match start {
        Some(start) if *start <= day => Some(PhaseAt {
            index,
            start: *start,
        }),
        _ => None,
    }
}

/// The start of the next phase, where the one before has lasted its span: none where that is never reached.
pub fn next_start(start: &Option<Reach>, span: Span) -> Option<Reach>
    ensures value { result ≡ option_and_then (over span) start.now }
    ensures later { IfSome result (λ next. IfSome start.now (λ start. start < next)) }
{
    match start {
        Some(start) => add(*start, span),
        None => None,
    }
}
