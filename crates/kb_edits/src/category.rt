//! The category of a product.
ghost use Rattle.std.specs.Prelude.{◌≡◌};
ghost use Rattle.kb_book.specs.Wishes.{category_in, category_on};

use crate::plan::version_on;
use kb_catalog::{Catalog, Category, Valid};
use kb_days::{Day, Name};

/// The category of a product in the version of a day, if that has it.
pub fn category_on(catalog: &Catalog, day: Day, product: Name) -> Option<Category>
    ensures { result ≡ category_on catalog.now day product }
{
    category_in(version_on(catalog, day)?, product)
}

/// The category of a product in a version, if that has it.
pub(crate) fn category_in(version: &Valid, product: Name) -> Option<Category>
    ensures { result ≡ category_in version.now product }
{
    Some(version.version().product(product)?.category)
}
