//! Products.
ghost use Rattle.std.specs.Prelude.{◌≡◌, not};
ghost use Rattle.kb_catalog.specs.Products.{is_empty, has_name, listed, lists_twice};

use crate::names::{has_name, is_empty};
use crate::words::Category;
use kb_base::Seq;
use kb_days::Name;

/// A product, with the add-ons that may be had with it and those that come with it.
#[derive(Debug, Drop)]
pub struct Product {
    pub name: Name,
    pub category: Category,
    pub available: Seq<Name>,
    pub included: Seq<Name>,
}

impl Product {
    /// Whether the add-on of a name may be had with the product.
    pub fn offers(&self, name: Name) -> bool
        ensures { result ≡ has_name self.now.available name }
    {
        has_name(self.available.as_slice(), &name)
    }

    /// Whether the product lists an add-on.
    pub fn lists_some(&self) -> bool
        ensures { result ≡ not (is_empty (listed self.now)) }
    {
        !is_empty(self.available.as_slice()) || !is_empty(self.included.as_slice())
    }

    /// Whether a name is both available and included in the product.
    pub fn lists_twice(&self) -> bool
        ensures { result ≡ lists_twice self.now }
    {
        let included = self.included.as_slice();
        self.available
            .as_slice()
            .iter()
            .any(|name| has_name(included, name))
    }
}
