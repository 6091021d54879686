//! What billing asks of a valid version.
ghost use Rattle.std.specs.Prelude.{◌≡◌, ◌<◌, ◌^◌, bytes_eq, length, Some, IfSome, option_map};
ghost use Rattle.std.specs.List.{position_from};
ghost use Rattle.kb_catalog.specs.declared.price_list.PriceList.{PriceList};
ghost use Rattle.kb_catalog.specs.Plans.{is_asked};
ghost use Rattle.kb_catalog.specs.Cases.{EndOpen, first_match, fits_change, fits_plan, fits_create};
ghost use Rattle.kb_catalog.specs.LookUp.{plan_at, names_sold};
ghost use Rattle.kb_catalog.specs.ValidVersions.{IsOnlyPlan};

use crate::ask::{ChangeAsk, PlanAsk};
use crate::case::decide;
use crate::plan::Plan;
use crate::price_list::PriceList;
use crate::rules::Rules;
use crate::valid::Valid;
use crate::words::{Align, BillingAlign, CreateAlign, Policy};
use kb_days::{Name, Period};

impl Valid {
    /// The places of the named list and of the plan that it sells for a product and a billing period, from 0,
    /// in the version's lists and plans; none exactly where it sells none. No other list is looked in.
    pub fn find_plan(&self, product: Name, period: Period, list: Name) -> Option<(u32, u32)>
        ensures value { result ≡ plan_at self.now product period list }
        ensures only { IfSome result (λ found. IsOnlyPlan self.now product period list found.1) }
    {
        let version = self.version();
        let (list_place, names) = find_list(version.lists.as_slice(), list)?;
        let plan_place = find_sold(version.plans.as_slice(), product, period, names)?;
        Some((list_place, plan_place))
    }

    /// When a change takes effect: by the first case whose conditions all hold.
    pub fn change_policy(&self, change: &ChangeAsk) -> Policy
        ensures { first_match (fits_change change.now) (λ case. case.answer)
            self.now.rules.change_policy ≡ Some result }
    {
        decide(
            self.rules().change_policy.as_slice(),
            &change.from,
            &change.to,
        )
        .answer
    }

    /// From which day the phases are counted after a change: by the first case whose conditions all hold.
    pub fn change_alignment(&self, change: &ChangeAsk) -> Align
        ensures { first_match (fits_change change.now) (λ case. case.answer)
            self.now.rules.change_alignment ≡ Some result }
    {
        decide(
            self.rules().change_alignment.as_slice(),
            &change.from,
            &change.to,
        )
        .answer
    }

    /// When a cancellation takes effect: by the first case whose conditions all hold.
    pub fn cancel_policy(&self, now: &PlanAsk) -> Policy
        ensures { first_match (fits_plan now.now) (λ case. case.answer) self.now.rules.cancel_policy
            ≡ Some result }
    {
        decide(self.rules().cancel_policy.as_slice(), now, now).answer
    }

    /// From which day the phases are counted after a start: by the first case whose conditions all hold.
    pub fn create_alignment(&self, now: &PlanAsk) -> CreateAlign
        ensures { first_match (fits_create now.now) (λ case. case.alignment) self.now.rules.create_alignment
            ≡ Some result }
    {
        decide(self.rules().create_alignment.as_slice(), now, now).alignment
    }

    /// Whose cycle day a plan is billed by: by the first case whose conditions all hold.
    pub fn billing_alignment(&self, now: &PlanAsk) -> BillingAlign
        ensures { first_match (fits_plan now.now) (λ case. case.answer) self.now.rules.billing_alignment
            ≡ Some result }
    {
        decide(self.rules().billing_alignment.as_slice(), now, now).answer
    }

    /// The rule lists, each of which ends with a case without condition.
    #[tactic(auto, using(crate::proofs::Holding::endings))]
    fn rules(&self) -> &Rules
        ensures same { result.now ≡ self.now.rules }
        ensures ends_open { EndOpen result.now }
    {
        &self.version().rules
    }
}

/// The place of the list of a name, and the names that it sells.
fn find_list(lists: &[PriceList], name: Name) -> Option<(u32, &[Name])>
    requires counted { length lists.now < 2 ^ 32 }
    ensures place { option_map (λ found. found.0) result
        ≡ position_from (λ (list : PriceList). bytes_eq name list.name) 0 lists.now }
    ensures sold { IfSome result (λ found. found.1.now ≡ names_sold lists.now name) }
{
    for (place, list) in lists.iter().enumerate() {
        if name == list.name {
            return Some((place as u32, list.plans.as_slice()));
        }
    }
    None
}

/// The place of the plan with a product and a billing period, among those of these names.
fn find_sold(plans: &[Plan], product: Name, period: Period, names: &[Name]) -> Option<u32>
    requires counted { length plans.now < 2 ^ 32 }
    ensures { result ≡ position_from (is_asked product period names.now) 0 plans.now }
{
    for (place, plan) in plans.iter().enumerate() {
        if plan.is_asked(product, period, names) {
            return Some(place as u32);
        }
    }
    None
}
