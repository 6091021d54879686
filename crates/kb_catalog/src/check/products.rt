//! The rules of currencies and products.
ghost use Rattle.std.specs.Prelude.{◌≡◌, ◌||◌, bytes_eq, not};
ghost use Rattle.std.specs.List.{list_any};
ghost use Rattle.kb_base.specs.Offenders.{passes_at, repeats_at};
ghost use Rattle.kb_catalog.specs.declared.product.Product.{Product};
ghost use Rattle.kb_catalog.specs.Products.{is_empty, is_add_on, lists_twice};
ghost use Rattle.kb_catalog.specs.VersionProducts.{has_product, has_add_on, lists_wrongly};

use crate::names::has_currency;
use crate::product::Product;
use crate::version::Version;
use kb_days::Name;
use kb_money::Currency;

/// Whether there is no currency, or the one at a place stands earlier.
pub(super) fn currency_breaks(version: &Version, place: usize) -> bool
    ensures { result ≡ (is_empty version.now.currencies || repeats_at bytes_eq version.now.currencies place) }
{
    let currencies = version.currencies.as_slice();
    currencies.is_empty() || currency_repeats(currencies, place)
}

/// Whether the currency at a place stands earlier.
fn currency_repeats(currencies: &[Currency], place: usize) -> bool
    ensures { result ≡ repeats_at bytes_eq currencies.now place }
{
    match currencies.get(place) {
        None => false,
        Some(currency) => has_currency(&currencies[..place], *currency),
    }
}

/// Whether the name of the product at a place stands earlier.
pub(super) fn name_repeats(version: &Version, place: usize) -> bool
    ensures { result ≡ repeats_at (λ (a : Product) (b : Product). bytes_eq a.name b.name) version.now.products
        place }
{
    let products = version.products.as_slice();
    match products.get(place) {
        None => false,
        Some(product) => is_among(&products[..place], &product.name),
    }
}

/// Whether a product of this name is there.
pub(super) fn has_product(version: &Version, name: &Name) -> bool
    ensures { result ≡ has_product version.now name.now }
{
    is_among(version.products.as_slice(), name)
}

/// Whether one of these products has this name.
fn is_among(products: &[Product], name: &Name) -> bool
    ensures { result ≡ list_any (λ (product : Product). bytes_eq name.now product.name) products.now }
{
    products.iter().any(|product| *name == product.name)
}

/// Whether the product at a place lists add-ons wrongly.
pub(super) fn lists_wrongly_at(version: &Version, place: usize) -> bool
    ensures { result ≡ passes_at version.now.products place (lists_wrongly version.now) }
{
    let products = version.products.as_slice();
    products
        .get(place)
        .is_some_and(|product| lists_wrongly(version, product))
}

/// Whether the product at a place lists an add-on as available and as included.
pub(super) fn lists_twice_at(version: &Version, place: usize) -> bool
    ensures { result ≡ passes_at version.now.products place lists_twice }
{
    let products = version.products.as_slice();
    products
        .get(place)
        .is_some_and(|product| product.lists_twice())
}

/// Whether a product lists add-ons and isn't a base product, or lists what is no add-on product.
fn lists_wrongly(version: &Version, product: &Product) -> bool
    ensures { result ≡ lists_wrongly version.now product.now }
{
    (!product.category.is_base() && product.lists_some())
        || misses_add_on(version, product.available.as_slice())
        || misses_add_on(version, product.included.as_slice())
}

/// Whether one of these names is of no add-on product.
fn misses_add_on(version: &Version, names: &[Name]) -> bool
    ensures { result ≡ list_any (λ name. not (has_add_on version.now name)) names.now }
{
    names.iter().any(|name| !has_add_on(version, name))
}

/// Whether an add-on product of this name is there.
fn has_add_on(version: &Version, name: &Name) -> bool
    ensures { result ≡ has_add_on version.now name.now }
{
    let products = version.products.as_slice();
    products.iter().any(|product| *name == product.name && product.category.is_add_on())
}
