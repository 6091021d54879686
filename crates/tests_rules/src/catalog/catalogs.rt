//! Catalogs of some versions: the version of a day, and which one may be added.

use crate::compare::same;
use kb_catalog::{Catalog, Valid};
use kb_samples::{SampleFault, day};

/// The first version of a catalog.
pub(crate) fn first(catalog: &Catalog) -> Result<&Valid, SampleFault> {
    if catalog.len() == 0 {
        return Err(SampleFault::Catalog);
    }
    Ok(catalog.version(0))
}

#[test]
fn no_version_of_a_day(rt: HostRuntime) -> Result<(), SampleFault> {
    let catalog = Catalog::new(rt.alloc());
    let place = catalog.version_at(day("2024-10-04")?);
    same(&rt, &place, &None, &"no version");
    Ok(())
}
