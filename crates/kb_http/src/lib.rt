//! The service's profile of HTTP/1.1: the requests of a connection, where each of them goes, and responses as
//! bytes.
//!
//! The rule kept here: however a stream of bytes is cut, its requests come one after another, each with just
//! its own bytes, and a stream without a further one is refused or ends by one stated cause. A path leads to
//! one place or to none, by the words between its slashes, as a router of `matchit` finds it, and a place may
//! be asked for by one method only. It knows heads, bodies and paths, and no account.
#![tactic(auto)]

mod agreement;
mod conn;
mod head;
mod kind;
mod numbers;
mod pieces;
mod reading;
mod request;
mod response;
mod route;
mod router;
mod stop;
mod taking;
mod words;

pub use agreement::readings_agree;
pub use conn::Conn;
pub use kind::Kind;
pub use request::HttpRequest;
pub use response::response_bytes;
pub use route::{Allow, Method, Route};
pub use router::{kind_at, service_router};
pub use stop::HttpNext;
