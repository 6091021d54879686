//! Plans.
ghost use Rattle.std.specs.Prelude.{◌≡◌};
ghost use Rattle.std.specs.List.{list_any};
ghost use Rattle.kb_catalog.specs.declared.phase.Phase.{Phase};
ghost use Rattle.kb_catalog.specs.Plans.{is_unlimited, ends_unlimited, is_evergreen, may_end, kinds_fit};
ghost use Rattle.kb_catalog.specs.Plans.{bills_wrongly, phase_prices_wrongly, plan_period, is_asked, agree};

use crate::case::same_period;
use crate::names::has_name;
use crate::phase::Phase;
use crate::words::PhaseType;
use kb_base::Seq;
use kb_days::{Name, Period, Span};
use kb_money::Currency;

/// A plan of a product: its phases, one after another.
#[derive(Debug)]
pub struct Plan {
    pub name: Name,
    pub product: Name,
    pub phases: Seq<Phase>,
}

impl Drop for Plan {
    /// Drops all that it names. No crate above has to show again how that is dropped.
    fn drop(self) {
        let Plan {
            name: _name,
            product: _product,
            phases: _phases,
        } = self;
    }
}

impl Plan {
    /// The plan's billing period: that of its last phase.
    pub fn period(&self) -> Period
        ensures { result ≡ plan_period self.now }
    {
        match self.phases.as_slice().split_last() {
            None => Period::NoBillingPeriod,
            Some((last, _)) => last.period,
        }
    }

    /// Whether the plan has this product and billing period, and is among these names.
    pub fn is_asked(&self, product: Name, period: Period, names: &[Name]) -> bool
        ensures { result ≡ is_asked product period names.now self.now }
    {
        product == self.product && same_period(period, self.period()) && has_name(names, &self.name)
    }

    /// Whether the plan agrees with another one in product and billing period.
    pub fn agrees(&self, other: &Plan) -> bool
        ensures { result ≡ agree self.now other.now }
    {
        self.product == other.product && same_period(self.period(), other.period())
    }

    /// Whether the plan has a phase, and its last phase alone is unlimited.
    pub fn ends_unlimited(&self) -> bool
        ensures { result ≡ ends_unlimited self.now.phases }
    {
        ends_unlimited(self.phases.as_slice())
    }

    /// Whether no phase of the plan but the last one is evergreen, and that one is no trial and no discount.
    pub fn kinds_fit(&self) -> bool
        ensures { result ≡ kinds_fit self.now.phases }
    {
        kinds_fit(self.phases.as_slice())
    }

    /// Whether a phase of the plan has one of a billing period and a recurring price.
    pub fn bills_wrongly(&self) -> bool
        ensures { result ≡ list_any bills_wrongly self.now.phases }
    {
        self.phases
            .as_slice()
            .iter()
            .any(|phase| phase.bills_wrongly())
    }

    /// Whether a price of the plan names a currency that isn't among these, or one twice.
    pub fn prices_wrongly(&self, currencies: &[Currency]) -> bool
        ensures { result ≡ list_any (phase_prices_wrongly currencies.now) self.now.phases }
    {
        self.phases
            .as_slice()
            .iter()
            .any(|phase| phase.prices_wrongly(currencies))
    }
}

/// Whether there is a phase, and the last phase alone is unlimited.
fn ends_unlimited(phases: &[Phase]) -> bool
    ensures { result ≡ ends_unlimited phases.now }
{
    match phases.split_last() {
        None => false,
        Some((last, earlier)) => is_unlimited(last.span) && !some_unlimited(earlier),
    }
}

/// Whether one of these phases is unlimited.
fn some_unlimited(phases: &[Phase]) -> bool
    ensures { result ≡ list_any (λ (phase : Phase). is_unlimited phase.span) phases.now }
{
    phases.iter().any(|phase| is_unlimited(phase.span))
}

/// Whether no phase but the last one is evergreen, and that one is no trial and no discount.
fn kinds_fit(phases: &[Phase]) -> bool
    ensures { result ≡ kinds_fit phases.now }
{
    match phases.split_last() {
        None => true,
        Some((last, earlier)) => may_end(last.kind) && !some_evergreen(earlier),
    }
}

/// Whether one of these phases is evergreen.
fn some_evergreen(phases: &[Phase]) -> bool
    ensures { result ≡ list_any (λ (phase : Phase). is_evergreen phase.kind) phases.now }
{
    phases.iter().any(|phase| is_evergreen(phase.kind))
}

fn is_unlimited(span: Span) -> bool
    ensures { result ≡ is_unlimited span }
{
    matches!(span, Span::Unlimited)
}

fn is_evergreen(kind: PhaseType) -> bool
    ensures { result ≡ is_evergreen kind }
{
    matches!(kind, PhaseType::Evergreen)
}

/// Whether a phase of this kind may be the last one.
fn may_end(kind: PhaseType) -> bool
    ensures { result ≡ may_end kind }
{
    matches!(kind, PhaseType::FixedTerm | PhaseType::Evergreen)
}
