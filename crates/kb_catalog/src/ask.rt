//! What the rules of a version are asked about.

use crate::words::{Category, PhaseType};
use kb_days::{Name, Period};

/// A plan that is looked at: its product, that product's category if the version has it, its billing
/// period, the list by which it was chosen, and the phase that governs, if one is asked about.
#[derive(Clone, Copy, Debug)]
pub struct PlanAsk {
    pub product: Name,
    pub category: Option<Category>,
    pub period: Period,
    pub list: Name,
    pub phase: Option<PhaseType>,
}

/// A change from the plan that governs to one that is asked for, whose phase isn't looked at.
#[derive(Clone, Copy, Debug)]
pub struct ChangeAsk {
    pub from: PlanAsk,
    pub to: PlanAsk,
}
