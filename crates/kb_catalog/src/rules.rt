//! The rules by which a shop decides: lists of cases.

use crate::words::{Align, BillingAlign, Category, CreateAlign, PhaseType, Policy};
use kb_base::Seq;
use kb_days::{Name, Period};

/// The rules of a version: five lists of cases, of which the first case that applies decides.
#[derive(Debug)]
pub struct Rules {
    pub change_policy: Seq<ChangePolicyCase>,
    pub change_alignment: Seq<ChangeAlignmentCase>,
    pub cancel_policy: Seq<CancelCase>,
    pub create_alignment: Seq<CreateCase>,
    pub billing_alignment: Seq<BillingCase>,
}

impl Drop for Rules {
    /// Drops all that it holds. No crate above has to show again how that is dropped.
    fn drop(self) {
        let Rules {
            change_policy: _change_policy,
            change_alignment: _change_alignment,
            cancel_policy: _cancel_policy,
            create_alignment: _create_alignment,
            billing_alignment: _billing_alignment,
        } = self;
    }
}

/// What a case asks of a plan; what isn't stated isn't asked.
#[derive(Clone, Copy, Debug)]
pub struct PlanCondition {
    pub product: Option<Name>,
    pub category: Option<Category>,
    pub period: Option<Period>,
    pub list: Option<Name>,
}

/// A case about a change from one plan to another: what it asks, and what it gives.
#[derive(Clone, Copy, Debug)]
pub struct ChangeCase<T> {
    pub from: PlanCondition,
    pub phase: Option<PhaseType>,
    pub to: PlanCondition,
    pub answer: T,
}

/// A case about a plan and its phase: what it asks, and what it gives.
#[derive(Clone, Copy, Debug)]
pub struct PlanCase<T> {
    pub plan: PlanCondition,
    pub phase: Option<PhaseType>,
    pub answer: T,
}

/// When a change from one plan to another takes effect.
pub type ChangePolicyCase = ChangeCase<Policy>;

/// From which day the phases are counted after a change from one plan to another.
pub type ChangeAlignmentCase = ChangeCase<Align>;

/// When the cancellation of a plan takes effect.
pub type CancelCase = PlanCase<Policy>;

/// Whose cycle day a plan is billed by.
pub type BillingCase = PlanCase<BillingAlign>;

/// From which day the phases of a plan are counted.
#[derive(Clone, Copy, Debug)]
pub struct CreateCase {
    pub plan: PlanCondition,
    pub alignment: CreateAlign,
}
