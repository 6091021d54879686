//! Phases of plans: when they start, and which governs a day.

use crate::compare::same;
use kb_align::{phase_at, phase_starts};
use kb_base::NoMemory;
use kb_days::{Count, LAST_REACH, Reach, Span, text};
use kb_samples::{SampleFault, day, reach};
use std::alloc::Global;
use std::process::Abort;

/// How many days, months or years each phase lasts.
type Lengths = &'static [(u32, &'static str)];

const FOUR: Lengths = &[(30, "days"), (1, "months"), (2, "years"), (1, "ever")];

const MONTHS: Lengths = &[(1, "months"), (1, "months"), (1, "months")];

const YEARS: Lengths = &[(2, "years"), (2, "years"), (1, "ever")];

const WITHOUT_END: Lengths = &[(1, "months"), (1, "ever"), (1, "months"), (1, "months")];

/// An anchor, how long phases last, and when they start; '-' where one is never reached.
static STARTS: [(&str, Lengths, &str); 6] = [
    (
        "2024-01-31",
        FOUR,
        "2024-01-31 2024-03-01 2024-04-01 2026-04-01 ",
    ),
    ("2024-01-31", MONTHS, "2024-01-31 2024-02-29 2024-03-29 "),
    ("2024-02-29", YEARS, "2024-02-29 2026-02-28 2028-02-28 "),
    ("2024-01-31", WITHOUT_END, "2024-01-31 2024-02-29 - - "),
    // far beyond the days that commands name
    ("2099-12-31", YEARS, "2099-12-31 2101-12-31 2103-12-31 "),
    ("2024-01-31", &[], ""),
];

/// A day, the place of its phase of the four from 2024-01-31 on, and the start of that.
static GOVERNED: [(&str, u32, &str); 8] = [
    ("2024-01-31", 0, "2024-01-31"),
    ("2024-02-29", 0, "2024-01-31"),
    ("2024-03-01", 1, "2024-03-01"),
    ("2024-03-31", 1, "2024-03-01"),
    ("2024-04-01", 2, "2024-04-01"),
    ("2026-03-31", 2, "2024-04-01"),
    ("2026-04-01", 3, "2026-04-01"),
    ("the last day", 3, "2026-04-01"),
];

/// The spans of phases that last so long.
fn spans(alloc: Global, lengths: Lengths) -> Result<Vec<Span>, SampleFault> {
    let mut spans = Vec::new(alloc);
    for (count, unit) in lengths {
        spans.push(span(*count, unit)?)?;
    }
    Ok(spans)
}

fn span(count: u32, unit: &str) -> Result<Span, SampleFault> {
    let count = Count::new(count).ok_or(SampleFault::Word)?;
    Ok(match unit {
        "days" => Span::Days(count),
        "months" => Span::Months(count),
        "years" => Span::Years(count),
        _ => Span::Unlimited,
    })
}

/// The text of some starts.
fn words(alloc: Global, starts: &[Option<Reach>]) -> Result<Vec<u8>, NoMemory> {
    let mut words = Vec::new(alloc);
    for start in starts {
        match start {
            Some(start) => words.extend_from_slice(&text(*start))?,
            None => words.push(b'-')?,
        }
        words.push(b' ')?;
    }
    Ok(words)
}

/// The day of a text, or the last one of all.
fn day_of(text: &str) -> Result<Reach, SampleFault> {
    if text == "the last day" {
        return Reach::new(LAST_REACH).ok_or(SampleFault::Word);
    }
    reach(text)
}

#[test]
fn starts_of_phases(rt: HostRuntime) -> Result<(), SampleFault> {
    starts_are(&rt, rt.alloc())
}

fn starts_are(rt: &impl Abort, alloc: Global) -> Result<(), SampleFault> {
    for row in &STARTS {
        let (anchor, lengths, expected) = *row;
        let words = starts_told(alloc, anchor, lengths)?;
        same(rt, &words.as_slice(), &expected.as_bytes(), row);
    }
    Ok(())
}

/// The text of the starts of phases that last so long.
fn starts_told(alloc: Global, anchor: &str, lengths: Lengths) -> Result<Vec<u8>, SampleFault> {
    let spans = spans(alloc, lengths)?;
    let starts = phase_starts(alloc, day(anchor)?, spans.as_slice())?;
    Ok(words(alloc, starts.as_slice())?)
}

#[test]
fn phases_of_days(rt: HostRuntime) -> Result<(), SampleFault> {
    let spans = spans(rt.alloc(), FOUR)?;
    phases_are(&rt, spans.as_slice())
}

fn phases_are(rt: &impl Abort, spans: &[Span]) -> Result<(), SampleFault> {
    for row in &GOVERNED {
        same(rt, &phase_of(spans, row.0)?, &(row.1, reach(row.2)?), row);
    }
    Ok(())
}

/// The place and the start of the phase of a day, of phases from 2024-01-31 on.
fn phase_of(spans: &[Span], text: &str) -> Result<(u32, Reach), SampleFault> {
    let (anchor, day) = (day("2024-01-31")?, day_of(text)?);
    if spans.is_empty() || spans.len() > 4 || day < anchor.reach() {
        return Err(SampleFault::Word);
    }
    let phase = phase_at(anchor, spans, day);
    Ok((phase.index, phase.start))
}
