//! The plan that is asked for.
ghost use Rattle.std.specs.Prelude.{◌≡◌, option_copied};
ghost use Rattle.kb_book.specs.Wishes.{version_of, plan_asked};

use kb_book::Wish;
use kb_catalog::{Catalog, Valid};
use kb_days::Day;
use kb_timeline::PlanRef;

/// The version of a day: the last one effective by then.
pub fn version_on(catalog: &Catalog, day: Day) -> Option<&Valid>
    ensures { option_copied result ≡ version_of catalog.now day }
{
    let place = catalog.version_at(day)?;
    Some(catalog.version(place))
}

/// The place of the plan of a wish, by the version of a day: none where that sells none.
pub fn plan_asked(catalog: &Catalog, day: Day, wish: &Wish) -> Option<PlanRef>
    ensures { result ≡ plan_asked catalog.now day wish.now }
{
    let version = catalog.version_at(day)?;
    let (list, plan) = catalog
        .version(version)
        .find_plan(wish.product, wish.period, wish.list)?;
    Some(PlanRef {
        version,
        list,
        plan,
    })
}
