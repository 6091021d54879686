//! Names and keys that are the platform's own.
ghost use Rattle.std.specs.Prelude.{◌≡◌};
ghost use Rattle.kb_days.specs.Names.{IsName};
ghost use Rattle.kb_book.specs.BlockCommands.{is_reserved};
ghost use Rattle.kb_book.specs.PaymentRows.{is_own_key};

use kb_days::Name;

/// A name of the platform's own.
pub(crate) fn own_name(bytes: &[u8]) -> Name
    requires named { IsName bytes.now }
    ensures { result ≡ bytes.now }
{
    Name::new(bytes).unwrap()
}

/// Whether a service is the platform's own.
pub(crate) fn is_reserved(service: Name) -> bool
    ensures { result ≡ is_reserved service }
{
    service.as_bytes() == b"entitlement-service".as_slice()
        || service.as_bytes() == b"overdue-service".as_slice()
}

/// Whether a payment key is the platform's own.
pub(crate) fn is_own_key(key: Name) -> bool
    ensures { result ≡ is_own_key key }
{
    key.as_bytes().starts_with(b"auto-")
}
