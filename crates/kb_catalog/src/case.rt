//! The cases of rule lists: what each asks, and whether that holds.
ghost use Rattle.std.specs.Prelude.{◌≡◌, ◌&&◌, true, Some, bytes_eq, find};
ghost use Rattle.std.specs.Option.{option_copied};
ghost use Rattle.kb_catalog.specs.Words.{same_category, same_phase, same_period};
ghost use Rattle.kb_catalog.specs.Cases.{Asks, ends_open, asks_of_change, asks_of_plan, asks_of_create};
ghost use Rattle.kb_catalog.specs.Cases.{asks_nothing, asks_nothing_to, is_open, fits};
ghost use Rattle.kb_catalog.specs.Cases.{holds, holds_of, holds_to};

use crate::ask::PlanAsk;
use crate::rules::{ChangeCase, CreateCase, PlanCase, PlanCondition};
use crate::words::{Category, PhaseType};
use kb_days::{Name, Period};

/// A case of a rule list, which decides where all its conditions hold.
pub trait Case {
    ghost asks: { Self → Asks };

    /// What is asked of the plan that governs, or is looked at.
    fn from(&self) -> &PlanCondition
        ensures { result.now ≡ (asks self.now).from };

    /// The kind of its phase that is asked for.
    fn phase(&self) -> Option<PhaseType>
        ensures { result ≡ (asks self.now).phase };

    /// What is asked of the plan asked for, where a change is decided.
    fn to(&self) -> Option<&PlanCondition>
        ensures { option_copied result ≡ (asks self.now).to };
}

impl<T> Case for ChangeCase<T> {
    ghost asks = { asks_of_change };

    fn from(&self) -> &PlanCondition {
        &self.from
    }

    fn phase(&self) -> Option<PhaseType> {
        self.phase
    }

    fn to(&self) -> Option<&PlanCondition> {
        Some(&self.to)
    }
}

impl<T> Case for PlanCase<T> {
    ghost asks = { asks_of_plan };

    fn from(&self) -> &PlanCondition {
        &self.plan
    }

    fn phase(&self) -> Option<PhaseType> {
        self.phase
    }

    fn to(&self) -> Option<&PlanCondition> {
        None
    }
}

impl Case for CreateCase {
    ghost asks = { asks_of_create };

    fn from(&self) -> &PlanCondition {
        &self.plan
    }

    fn phase(&self) -> Option<PhaseType> {
        None
    }

    fn to(&self) -> Option<&PlanCondition> {
        None
    }
}

/// The first case that fits, of a list that ends with a case without condition.
pub fn decide<'a, C: Case>(cases: &'a [C], from: &PlanAsk, to: &PlanAsk) -> &'a C
    requires { ends_open C.asks cases.now ≡ true }
    ensures { find (λ case. fits from.now to.now (C.asks case)) cases.now ≡ Some result.now }
{
    for case in cases {
        if fits(case, from, to) {
            return case;
        }
    }
    unreachable!()
}

/// Whether all conditions of a case hold: of the plan that governs or is looked at, of its phase, and of the
/// plan asked for.
fn fits<C: Case>(case: &C, from: &PlanAsk, to: &PlanAsk) -> bool
    ensures { result ≡ fits from.now to.now (C.asks case.now) }
{
    case.from().holds(from) && holds_phase(case.phase(), from.phase) && holds_to(case.to(), to)
}

/// Whether the conditions on the plan asked for hold, where there are any.
fn holds_to(condition: Option<&PlanCondition>, to: &PlanAsk) -> bool
    ensures { result ≡ holds_to (option_copied condition.entry) to.now }
{
    match condition {
        None => true,
        Some(condition) => condition.holds(to),
    }
}

impl PlanCondition {
    /// Whether the conditions hold of a plan.
    fn holds(&self, plan: &PlanAsk) -> bool
        ensures { result ≡ holds_of self.now plan.now }
    {
        holds_name(self.product, plan.product)
            && holds_category(self.category, plan.category)
            && holds_period(self.period, plan.period)
            && holds_name(self.list, plan.list)
    }
}

/// Whether a condition on a name holds.
fn holds_name(asked: Option<Name>, name: Name) -> bool
    ensures { result ≡ holds bytes_eq asked (Some name) }
{
    match asked {
        None => true,
        Some(asked) => asked == name,
    }
}

/// Whether a condition on a category holds.
fn holds_category(asked: Option<Category>, category: Option<Category>) -> bool
    ensures { result ≡ holds same_category asked category }
{
    match (asked, category) {
        (None, _) => true,
        (Some(_), None) => false,
        (Some(asked), Some(category)) => same_category(asked, category),
    }
}

/// Whether a condition on a billing period holds.
fn holds_period(asked: Option<Period>, period: Period) -> bool
    ensures { result ≡ holds same_period asked (Some period) }
{
    match asked {
        None => true,
        Some(asked) => same_period(asked, period),
    }
}

/// Whether a condition on the kind of a phase holds.
fn holds_phase(asked: Option<PhaseType>, phase: Option<PhaseType>) -> bool
    ensures { result ≡ holds same_phase asked phase }
{
    match (asked, phase) {
        (None, _) => true,
        (Some(_), None) => false,
        (Some(asked), Some(phase)) => same_phase(asked, phase),
    }
}

/// Whether two categories are the same.
fn same_category(first: Category, second: Category) -> bool
    ensures { result ≡ same_category first second }
{
    first == second
}

/// Whether two phases are of the same kind.
fn same_phase(first: PhaseType, second: PhaseType) -> bool
    ensures { result ≡ same_phase first second }
{
    first == second
}

/// Whether two billing periods are the same.
pub(crate) fn same_period(first: Period, second: Period) -> bool
    ensures { result ≡ same_period first second }
{
    first == second
}

/// Whether there is a case, and the last one has no condition.
pub fn ends_open<C: Case>(cases: &[C]) -> bool
    ensures { result ≡ ends_open C.asks cases.now }
{
    match cases.split_last() {
        None => false,
        Some((last, _)) => is_open(last),
    }
}

/// Whether a case has no condition.
fn is_open<C: Case>(case: &C) -> bool
    ensures { result ≡ is_open (C.asks case.now) }
{
    asks_nothing(case.from()) && case.phase().is_none() && asks_nothing_to(case.to())
}

/// Whether nothing is asked of the plan asked for.
fn asks_nothing_to(condition: Option<&PlanCondition>) -> bool
    ensures { result ≡ asks_nothing_to (option_copied condition.entry) }
{
    match condition {
        None => true,
        Some(condition) => asks_nothing(condition),
    }
}

/// Whether a plan condition asks nothing.
fn asks_nothing(condition: &PlanCondition) -> bool
    ensures { result ≡ asks_nothing condition.now }
{
    condition.product.is_none()
        && condition.category.is_none()
        && condition.period.is_none()
        && condition.list.is_none()
}
