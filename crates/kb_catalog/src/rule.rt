//! The rules of a version.
ghost use Rattle.std.specs.Prelude.{◌≡◌};
ghost use Rattle.kb_catalog.specs.RuleNumbers.{rule_number};

use thiserror::Error;

/// A rule that a version has to keep, with what is told where it is broken. They are tried in this order.
#[derive(Clone, Copy, Debug, Error)]
pub enum Rule {
    /// 1: there is a currency, and none twice.
    #[error("there is no currency, or one is named twice: name at least one, and each once")]
    Currencies,
    /// 2: no two products have one name.
    #[error("a product has the name of an earlier one: give it another name")]
    ProductNames,
    /// 3: only base products list add-ons, and only add-on products.
    #[error("only base products list add-ons, and only products of the category ADD_ON: take the others out")]
    AddOns,
    /// 4: no add-on is both available and included in one product.
    #[error("a product has an add-on both available and included: keep it in one of the two lists")]
    AddOnsOnce,
    /// 5: no two plans have one name.
    #[error("a plan has the name of an earlier one: give it another name")]
    PlanNames,
    /// 6: each plan's product is there.
    #[error("a plan's product isn't there: add the product, or name another one")]
    PlanProducts,
    /// 7: each plan has a phase, and its last phase alone is unlimited.
    #[error("a plan's last phase alone has to be UNLIMITED: end with one, and give the earlier ones a length")]
    LastPhase,
    /// 8: an evergreen phase is the last one, and the last one is no trial and no discount.
    #[error("an EVERGREEN phase has to be the last one, and a TRIAL or a DISCOUNT can't be: order the phases anew")]
    PhaseKinds,
    /// 9: a phase has a recurring price if it has a billing period, and none otherwise.
    #[error("a phase has a recurring price and no billing period, or the other way round: give both or neither")]
    PhasePeriods,
    /// 10: prices name currencies of the version, and none twice.
    #[error("a price is in a currency that the catalog doesn't name, or in one twice: price in each of its currencies once")]
    Prices,
    /// 11: no two lists have one name, their plans are there and no two agree in product and billing
    /// period, and one list is named DEFAULT.
    #[error("a price list has the name of an earlier one, or names a plan that isn't there or two of one product and billing period, or no list is named DEFAULT: correct the list, or add it")]
    Lists,
    /// 12: each rule list has a case, its last case has no condition, and cases name products and lists
    /// that are there.
    #[error("a rule list has no case, ends with a case that has a condition, or names a product or a list that isn't there: end it with a case without condition")]
    Cases,
}

impl Rule {
    /// The rules, in the order in which they are tried.
    pub const ALL: [Rule; 12] = [
        Rule::Currencies,
        Rule::ProductNames,
        Rule::AddOns,
        Rule::AddOnsOnce,
        Rule::PlanNames,
        Rule::PlanProducts,
        Rule::LastPhase,
        Rule::PhaseKinds,
        Rule::PhasePeriods,
        Rule::Prices,
        Rule::Lists,
        Rule::Cases,
    ];

    /// The number of the rule: 1 to 12.
    pub fn number(self) -> u32
        ensures { result ≡ rule_number self }
    {
        match self {
            Rule::Currencies => 1,
            Rule::ProductNames => 2,
            Rule::AddOns => 3,
            Rule::AddOnsOnce => 4,
            Rule::PlanNames => 5,
            Rule::PlanProducts => 6,
            Rule::LastPhase => 7,
            Rule::PhaseKinds => 8,
            Rule::PhasePeriods => 9,
            Rule::Prices => 10,
            Rule::Lists => 11,
            Rule::Cases => 12,
        }
    }
}

/// The first rule that a version breaks, and the place, from 0, of the first offender in the list that
/// the rule speaks of.
#[derive(Clone, Copy, Debug, Error)]
#[error("rule {}, at place {index} from 0: {rule}", .rule.number())]
pub struct CatalogFault {
    pub rule: Rule,
    pub index: u32,
}
