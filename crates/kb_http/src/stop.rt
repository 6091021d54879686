//! What a connection tells.
ghost use Rattle.std.specs.Prelude.{◌≡◌};
ghost use Rattle.kb_http.specs.Connections.{told_of};

use crate::request::HttpRequest;

/// Why a connection gives no more requests.
#[derive(Clone, Copy, Debug, PartialEq, Eq)]
pub enum Stop {
    /// What was read is refused with this status.
    Refuse(u16),
    /// The peer has closed, with no byte of a further request.
    Closed,
    /// The peer has closed within a request.
    Cut,
    InputFault,
    NoMemory,
}

impl Stop {
    /// What is told of a connection that gives no more.
    pub fn told(self) -> HttpNext
        ensures { result ≡ told_of self }
    {
        match self {
            Stop::Refuse(status) => HttpNext::Refuse(status),
            Stop::Closed => HttpNext::Closed,
            Stop::Cut => HttpNext::Cut,
            Stop::InputFault => HttpNext::InputFault,
            Stop::NoMemory => HttpNext::NoMemory,
        }
    }
}

/// What a connection tells next: a request, or why it gives no more.
#[derive(Debug, Drop)]
pub enum HttpNext {
    Request(HttpRequest),
    /// What was read is refused with this status.
    Refuse(u16),
    /// The peer has closed, with no byte of a further request.
    Closed,
    /// The peer has closed within a request.
    Cut,
    InputFault,
    NoMemory,
}
