//! Catalogs: the versions of what a shop sells, each from its date on.
ghost use Rattle.std.specs.Prelude.{◌≡◌, ◌<◌, ◌≤◌, ◌-◌, ◌↔◌, ◌++◌, ◌∷◌, [], length, map, nat_le, slice_get};
ghost use Rattle.std.specs.Prelude.{MatchOption, Some, Err, IfOk, IfErr};
ghost use Rattle.std.specs.Bool.{MatchBool};
ghost use Rattle.std.specs.Option.{option_copied};
ghost use Rattle.std.specs.Arc.{arc_value};
ghost use Rattle.kb_catalog.specs.Catalogs.{version_at};
ghost use Rattle.kb_catalog.specs.Catalogs.{max_versions, IsCatalog, IsEarly, IsLater, IsLatest, NoneBegun};

use crate::valid::Valid;
use kb_base::{NoMemory, shared};
use kb_days::Day;
use std::alloc::{AllocError, AllocFailed, Global};
use std::marker::Model;
use std::sync::Arc;
use thiserror::Error;

/// The most versions that a catalog has.
pub const MAX_VERSIONS: u32 = 64;

/// A catalog: valid versions by rising date, at most `MAX_VERSIONS`. An added version shares the earlier
/// ones.
#[derive(Debug)]
pub struct Catalog {
    versions: Vec<Arc<Valid>>,
}

impl Drop for Catalog {
    /// Drops all that it holds. No crate above has to show again how that is dropped.
    fn drop(self) {
        let Catalog {
            versions: _versions,
        } = self;
    }
}

impl Model for Catalog {
    ghost use Rattle.std.specs.Prelude.{List, map};
    ghost use Rattle.std.specs.Arc.{arc_value};
    ghost use Rattle.kb_catalog.specs.declared.version.Version.{Version};
    ghost use Rattle.kb_catalog.specs.Catalogs.{IsCatalog};

    ghost Value = { List Version };

    ghost view = { λ catalog. map arc_value catalog.versions.items };

    ghost invariant = { λ catalog. IsCatalog (map arc_value catalog.versions.items) };
}

/// Why a version isn't added to a catalog.
#[derive(Clone, Copy, Debug, PartialEq, Eq, Error)]
pub enum AddFault {
    /// The version's date isn't after that of the last version.
    #[error("the version isn't after the last one: give it a later date")]
    VersionOrder,
    /// The catalog has as many versions as it may have.
    #[error("the catalog has {} versions and takes no more", MAX_VERSIONS)]
    Limit,
    /// Memory ran out.
    #[error("out of memory")]
    NoMemory,
}

impl From<NoMemory> for AddFault {
    ghost use Rattle.kb_catalog.specs.declared.catalog.AddFault.TheVariants.{NoMemory};

    ghost from_gives = { λ _ fault. fault ≡ NoMemory };

    fn from(_: NoMemory) -> AddFault {
        AddFault::NoMemory
    }
}

impl From<AllocError> for AddFault {
    ghost use Rattle.kb_catalog.specs.declared.catalog.AddFault.TheVariants.{NoMemory};

    ghost from_gives = { λ _ fault. fault ≡ NoMemory };

    fn from(_: AllocError) -> AddFault {
        AddFault::NoMemory
    }
}

impl<T: Drop> From<AllocFailed<T>> for AddFault {
    ghost use Rattle.kb_catalog.specs.declared.catalog.AddFault.TheVariants.{NoMemory};

    ghost from_gives = { λ _ fault. fault ≡ NoMemory };

    fn from(_: AllocFailed<T>) -> AddFault {
        AddFault::NoMemory
    }
}

impl Catalog {
    /// A catalog without a version.
    pub fn new(alloc: Global) -> Catalog
        ensures { result ≡ [] }
    {
        Catalog {
            versions: Vec::new(alloc),
        }
    }

    /// How many versions there are.
    pub fn len(&self) -> u32
        ensures value { result ≡ length self.now }
        ensures limit { result ≤ max_versions }
    {
        self.versions.len() as u32
    }

    /// The version at a place, from 0.
    pub fn version(&self, place: u32) -> &Valid
        requires { place < length self.now }
        ensures member { slice_get self.now place ≡ Some result.now }
    {
        &self.versions[place as usize]
    }

    /// The place of the version that is used on a day: of the last one whose date is on or before it.
    #[tactic(auto, using(crate::proofs::Latest::latest_version))]
    pub fn version_at(&self, day: Day) -> Option<u32>
        ensures place { result ≡ version_at self.now day }
        ensures latest { MatchOption result (NoneBegun self.now day) (IsLatest self.now day) }
        ensures sound { IsCatalog self.now }
    {
        latest(self.versions.as_slice(), day)
    }

    /// The catalog with a version more at its end.
    pub fn add(&self, alloc: Global, version: Valid) -> Result<Catalog, AddFault>
        ensures added { IfOk result (λ catalog. catalog ≡ self.now ++ version ∷ []) }
        ensures order { (result ≡ Err AddFault.VersionOrder) ↔ IsEarly self.now version }
        ensures limit { (result ≡ Err AddFault.Limit)
            ↔ (IsLater self.now version × (length self.now ≡ max_versions)) }
    {
        if self.is_early(&version) {
            return Err(AddFault::VersionOrder);
        }
        if self.len() == MAX_VERSIONS {
            return Err(AddFault::Limit);
        }
        let versions = with_version(alloc, self.versions.as_slice(), version)?;
        Ok(Catalog { versions })
    }

    /// Whether a version's date isn't after that of the last version.
    fn is_early(&self, version: &Valid) -> bool
        ensures { MatchBool result (IsEarly self.now version.now) (IsLater self.now version.now) }
    {
        match self.last() {
            Some(last) => is_begun(version, last.version().effective),
            None => false,
        }
    }

    /// The last version.
    fn last(&self) -> Option<&Valid>
        ensures { option_copied result ≡ slice_get self.now (length self.now - 1) }
    {
        let count = self.len();
        if count == 0 {
            return None;
        }
        Some(self.version(count - 1))
    }
}

/// The place of the last version whose date is on or before a day.
#[tactic(auto, using(crate::proofs::Latest::walks))]
fn latest(versions: &[Arc<Valid>], day: Day) -> Option<u32>
    requires { length versions.now ≤ max_versions }
    ensures { result ≡ version_at (map arc_value versions.now) day }
{
    let mut found = None;
    for (place, version) in versions.iter().enumerate() {
        if is_begun(version, day) {
            found = Some(place as u32);
        }
    }
    found
}

/// Whether a version's date is on or before a day.
fn is_begun(version: &Valid, day: Day) -> bool
    ensures { result ≡ nat_le version.now.effective day }
{
    version.version().effective <= day
}

/// The same versions, shared, and another one at their end.
fn with_version(
    alloc: Global,
    versions: &[Arc<Valid>],
    version: Valid,
) -> Result<Vec<Arc<Valid>>, AddFault>
    ensures added { IfOk result (λ longer. map arc_value longer.items
        ≡ map arc_value versions.now ++ version ∷ []) }
    ensures memory { IfErr result (λ fault. fault ≡ AddFault.NoMemory) }
{
    let mut longer = shared(alloc, versions)?;
    longer.push(Arc::new(alloc, version)?)?;
    Ok(longer)
}
