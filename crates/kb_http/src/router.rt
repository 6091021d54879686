//! A router of the service's routes.
ghost use Rattle.std.specs.Prelude.{◌≡◌, IfOk, IfErr};
ghost use Rattle.matchit.specs.declared.error.InsertError.TheVariants.{OutOfMemory};
ghost use Rattle.matchit.specs.Seek.{first};
ghost use Rattle.kb_base.specs.Lines.{pieces};
ghost use Rattle.kb_http.specs.Routes.{slash, place_of};
ghost use Rattle.kb_http.specs.Rows.{HasRoutes, routes};
ghost use Rattle.kb_http.specs.Places.{place_by};

use crate::kind::Kind;
use matchit::{InsertError, Router};
use std::alloc::Global;

/// A router that holds the service's routes, each with its kind.
pub fn service_router(alloc: Global) -> Result<Router<Kind>, InsertError>
    ensures ok { IfOk result (λ router. HasRoutes router) }
    ensures err { IfErr result (λ error. error ≡ OutOfMemory) }
{
    let mut router = Router::new(alloc);
    router.insert("/commands", Kind::Commands)?;
    router.insert("/janitor", Kind::Janitor)?;
    router.insert("/accounts/{account}", Kind::Account)?;
    router.insert("/accounts/{account}/invoices/{invoice}", Kind::Invoice)?;
    router.insert("/accounts/{account}/payments/{payment}", Kind::Payment)?;
    router.insert(
        "/accounts/{account}/subscriptions/{subscription}",
        Kind::Subscription,
    )?;
    Ok(router)
}

/// The kind of the route that such a router finds for a path. It tells where the path leads.
pub fn kind_at(router: &Router<Kind>, path: &str) -> Option<Kind>
    requires { HasRoutes router.now }
    ensures kind { result ≡ first routes path.now }
    ensures place { place_of path.now ≡ place_by result (pieces slash path.now) }
{
    match router.at(path) {
        Ok(found) => Some(*found.value),
        Err(_) => None,
    }
}
