//! What a subscription is on from a day on.

use kb_days::Day;

/// A plan, by places from 0: of its version in the catalog, and in that version of the list by which it was
/// chosen and of the plan itself.
#[derive(Clone, Copy, Debug, PartialEq, Eq)]
pub struct PlanRef {
    pub version: u32,
    pub list: u32,
    pub plan: u32,
}

/// A start, or a change of plan: the plan from a day on, and the anchor from which the phases of the plan are
/// counted.
#[derive(Clone, Copy, Debug, PartialEq, Eq)]
pub struct Entry {
    pub day: Day,
    pub plan: PlanRef,
    pub anchor: Day,
}
