//! A request.

use crate::route::Route;
use kb_base::Seq;

/// A request: where it goes, its body, and whether the connection closes behind it.
#[derive(Debug, Drop)]
pub struct HttpRequest {
    pub route: Route,
    pub body: Seq<u8>,
    pub close: bool,
}
