//! Plans without a price in a currency.
ghost use Rattle.std.specs.Prelude.{◌≡◌};
ghost use Rattle.kb_book.specs.Prices.{phase_lacks, lacks_price, refers_to_lacking};

use kb_catalog::{Catalog, Phase, Plan};
use kb_due::choice_of;
use kb_money::Currency;
use kb_timeline::PlanRef;

/// Whether a plan that is referred to tells a price, but not in a currency.
pub fn refers_to_lacking(catalog: &Catalog, currency: Currency, plan: Option<PlanRef>) -> bool
    ensures { result ≡ refers_to_lacking catalog.now currency plan }
{
    let Some(plan) = plan else {
        return false;
    };
    match choice_of(catalog, plan) {
        None => false,
        Some(choice) => lacks_price(currency, choice.plan),
    }
}

/// Whether a price of a plan is told, but not in a currency.
fn lacks_price(currency: Currency, plan: &Plan) -> bool
    ensures { result ≡ lacks_price currency plan.now }
{
    plan.phases
        .as_slice()
        .iter()
        .any(|phase| phase_lacks(currency, phase))
}

/// The same of the prices of a phase.
fn phase_lacks(currency: Currency, phase: &Phase) -> bool
    ensures { result ≡ phase_lacks currency phase.now }
{
    (!phase.fixed.as_slice().is_empty() && phase.fixed_price(currency).is_none())
        || (!phase.recurring.as_slice().is_empty() && phase.recurring_price(currency).is_none())
}
