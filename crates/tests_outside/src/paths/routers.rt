//! A router of `matchit` beside the service's own reading of paths.

use kb_http::{Kind, Method, Route, kind_at, service_router};
use std::test::Fail;

/// A path, the kind of its route, and whether it leads somewhere.
const ROWS: [(&str, Option<Kind>, bool); 12] = [
    ("/commands", Some(Kind::Commands), true),
    ("/janitor", Some(Kind::Janitor), true),
    ("/accounts/a1", Some(Kind::Account), true),
    ("/accounts/a1/invoices/7", Some(Kind::Invoice), true),
    ("/accounts/a1/payments/p.1", Some(Kind::Payment), true),
    (
        "/accounts/a1/subscriptions/s1",
        Some(Kind::Subscription),
        true,
    ),
    ("/accounts/%", Some(Kind::Account), false),
    ("/accounts/a1/invoices/07", Some(Kind::Invoice), false),
    ("/accounts/a1/payments/", None, false),
    ("/accounts//payments/p.1", None, false),
    ("/commands/", None, false),
    ("", None, false),
];

#[test]
fn kinds_of_paths(rt: HostRuntime) -> Result<(), Fail> {
    let router = service_router(rt.alloc())?;
    for (path, kind, known) in ROWS {
        let place = Route::new(Method::Other, path.as_bytes());
        assert_eq!(rt;
            (kind_at(&router, path), place != Route::Unknown),
            (kind, known),
            "{path}"
        );
    }
    Ok(())
}
