//! A version of a catalog, as it is written.
ghost use Rattle.std.specs.Prelude.{◌≡◌, bytes_eq, find, option_copied};
ghost use Rattle.kb_catalog.specs.declared.product.Product.{Product};
ghost use Rattle.kb_catalog.specs.VersionProducts.{product_named};

use crate::plan::Plan;
use crate::price_list::PriceList;
use crate::product::Product;
use crate::rules::Rules;
use kb_base::Seq;
use kb_days::{Day, Name};
use kb_money::Currency;

/// A version of a catalog, with the day from which it is used.
#[derive(Debug)]
pub struct Version {
    pub effective: Day,
    pub currencies: Seq<Currency>,
    pub products: Seq<Product>,
    pub plans: Seq<Plan>,
    pub lists: Seq<PriceList>,
    pub rules: Rules,
}

impl Drop for Version {
    /// Drops all that it names. No crate above has to show again how that is dropped.
    fn drop(self) {
        let Version {
            effective: _effective,
            currencies: _currencies,
            products: _products,
            plans: _plans,
            lists: _lists,
            rules: _rules,
        } = self;
    }
}

impl Version {
    /// The product of a name, where it is there.
    pub fn product(&self, name: Name) -> Option<&Product>
        ensures { option_copied result ≡ product_named self.now name }
    {
        product_named(self.products.as_slice(), name)
    }
}

/// The first of these products with a name.
fn product_named(products: &[Product], name: Name) -> Option<&Product>
    ensures { option_copied result ≡ find (λ (product : Product). bytes_eq name product.name) products.now }
{
    for product in products {
        if name == product.name {
            return Some(product);
        }
    }
    None
}
