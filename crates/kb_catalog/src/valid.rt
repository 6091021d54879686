//! Versions whose rules hold.
ghost use Rattle.std.specs.Prelude.{◌≡◌, ◌<◌, ◌^◌, ◌↔◌, IsTrue, nat_lt, length, Err, Some, IsOk, IfOk, All};
ghost use Rattle.kb_catalog.specs.declared.plan.Plan.{Plan};
ghost use Rattle.kb_catalog.specs.declared.rule.CatalogFault.{CatalogFault};
ghost use Rattle.kb_catalog.specs.VersionRules.{fault_of, IsValid, HasCounts};
ghost use Rattle.kb_catalog.specs.ValidVersions.{HasDistinctNames, EndsUnlimited};

use crate::check::fault_of;
use crate::plan::Plan;
use crate::rule::CatalogFault;
use crate::version::Version;
use std::marker::Model;

/// A version whose twelve rules hold.
#[derive(Debug, Drop)]
pub struct Valid {
    version: Version,
}

impl Model for Valid {
    ghost use Rattle.kb_catalog.specs.declared.version.Version.{Version};
    ghost use Rattle.kb_catalog.specs.VersionRules.{IsValid, HasCounts};

    ghost Value = { Version };

    ghost view = { λ valid. valid.version };

    ghost invariant = { λ valid. IsValid valid.version × HasCounts valid.version };
}

impl Version {
    /// Whether the lists of currencies, products, plans and price lists have each fewer than 2^32 members,
    /// and so have the phases of each plan, so that a `u32` numbers their places.
    pub fn has_counts(&self) -> bool
        ensures { IsTrue result ↔ HasCounts self.now }
    {
        is_counted(self.currencies.as_slice())
            && is_counted(self.products.as_slice())
            && is_counted(self.plans.as_slice())
            && is_counted(self.lists.as_slice())
            && are_phases_counted(self.plans.as_slice())
    }

    /// The version, if its rules hold; else the first rule that it breaks, and that rule's first offender.
    pub fn check(self) -> Result<Valid, CatalogFault>
        requires counted { HasCounts self }
        ensures valid { IsOk result ↔ IsValid self }
        ensures same { IfOk result (λ valid. valid ≡ self) }
        ensures fault { (fault : CatalogFault) → ((result ≡ Err fault) ↔ (fault_of self ≡ Some fault)) }
    {
        match fault_of(&self) {
            Some(fault) => Err(fault),
            None => Ok(Valid { version: self }),
        }
    }
}

impl Valid {
    /// The version.
    pub fn version(&self) -> &Version
        ensures same { result.now ≡ self.now }
        ensures valid { IsValid result.now }
        ensures counted { HasCounts result.now }
        ensures names { HasDistinctNames result.now }
        ensures phases { All (λ (plan : Plan). EndsUnlimited plan.phases) result.now.plans }
    {
        &self.version
    }
}

/// Whether each of these plans has fewer than 2^32 phases.
fn are_phases_counted(plans: &[Plan]) -> bool
    ensures { IsTrue result ↔ All (λ (plan : Plan). length plan.phases < 2 ^ 32) plans.now }
{
    plans.iter().all(|plan| is_counted(plan.phases.as_slice()))
}

/// Whether a list has fewer than 2^32 members.
fn is_counted<T>(members: &[T]) -> bool
    ensures { result ≡ nat_lt (length members.now) (2 ^ 32) }
{
    members.len() <= u32::MAX as usize
}
