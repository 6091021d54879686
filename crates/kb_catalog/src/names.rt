//! Names and currencies among others.
ghost use Rattle.std.specs.Prelude.{◌≡◌, bytes_eq};
ghost use Rattle.std.specs.List.{list_any};
ghost use Rattle.kb_catalog.specs.Products.{is_empty, has_name};

use kb_days::Name;
use kb_money::Currency;

/// Whether a name is among some names.
pub fn has_name(names: &[Name], name: &Name) -> bool
    ensures { result ≡ has_name names.now name.now }
{
    names.iter().any(|other| *name == *other)
}

/// Whether a currency is among these.
pub fn has_currency(currencies: &[Currency], currency: Currency) -> bool
    ensures { result ≡ list_any (bytes_eq currency) currencies.now }
{
    currencies.iter().any(|other| currency == *other)
}

/// Whether a list has no member.
pub(crate) fn is_empty<T>(members: &[T]) -> bool
    ensures { result ≡ is_empty members.now }
{
    matches!(members, [])
}
