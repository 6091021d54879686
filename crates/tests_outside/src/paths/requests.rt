//! What a request holds.

use kb_days::Name;
use kb_http::{Allow, Method, Route};
use std::test::Fail;

#[test]
fn where_requests_go(rt: HostRuntime) -> Result<(), Fail> {
    let a1 = Name::new(b"a1").ok_or("a name")?;
    let p1 = Name::new(b"p.1").ok_or("a name")?;
    for (method, target, route) in [
        (
            b"GET".as_slice(),
            b"/accounts/a1".as_slice(),
            Route::Account(a1),
        ),
        (b"GET", b"/accounts/a1/invoices/7", Route::Invoice(a1, 7)),
        (
            b"GET",
            b"/accounts/a1/payments/p.1?q",
            Route::Payment(a1, p1),
        ),
        (
            b"GET",
            b"/accounts/a1/subscriptions/p.1",
            Route::Subscription(a1, p1),
        ),
        (b"POST", b"/commands", Route::Commands),
        (b"POST", b"/janitor", Route::Janitor),
        (b"post", b"/janitor", Route::NotAllowed(Allow::Post)),
        (b"POST", b"/accounts/a1", Route::NotAllowed(Allow::Get)),
        (b"POST", b"/", Route::Unknown),
    ] {
        let found = Route::new(Method::new(method), target);
        assert_eq!(rt; found, route, "{target:?}");
    }
    Ok(())
}
