//! What the lines say that answer.
ghost use Rattle.std.specs.Prelude.{◌≡◌, ◌≢◌, None, IfSome};
ghost use Rattle.kb_gateway.specs.declared.told.Told.{Told};
ghost use Rattle.kb_gateway.specs.declared.told.Seen.{Seen};
ghost use Rattle.kb_gateway.specs.GatewayLines.{told_line, seen_line};

use crate::told::{Seen, Told};

/// What a line tells in answer to an order; none, if it is no answer.
pub fn told_in(line: &[u8]) -> Option<Told>
    ensures told { IfSome result (λ told. line.now ≡ told_line told) }
    ensures other { result ≡ None → (told : Told) → line.now ≢ told_line told }
{
    if line == b"PROCESSED\n".as_slice() {
        Some(Told::Processed)
    } else if line == b"PENDING\n".as_slice() {
        Some(Told::Pending)
    } else if line == b"ERROR\n".as_slice() {
        Some(Told::Error)
    } else if line == b"CANCELED\n".as_slice() {
        Some(Told::Canceled)
    } else if line == b"UNDEFINED\n".as_slice() {
        Some(Told::Undefined)
    } else {
        None
    }
}

/// What a line tells in answer to a look-up; none, if it is no answer.
pub fn seen_in(line: &[u8]) -> Option<Seen>
    ensures seen { IfSome result (λ seen. line.now ≡ seen_line seen) }
    ensures other { result ≡ None → (seen : Seen) → line.now ≢ seen_line seen }
{
    if line == b"NOTSEEN\n".as_slice() {
        return Some(Seen::NotSeen);
    }
    match told_in(line) {
        Some(told) => Some(Seen::Told(told)),
        None => None,
    }
}
