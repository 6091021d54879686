//! The bytes of responses.
ghost use Rattle.std.specs.Prelude.{◌≡◌, ◌==◌, ◌++◌, is_some, IfOk, OnOk, length, codes};
ghost use Rattle.http.specs.StatusCode.{code_digits};
ghost use Rattle.httparse.specs.Ascii.{crlf_bytes};
ghost use Rattle.kb_http.specs.Responses.{IsStatus, phrase_of, status_line, type_line, length_line};
ghost use Rattle.kb_http.specs.Responses.{allow_line, close_line, response};

use crate::route::Allow;
use http::StatusCode;
use kb_base::NoMemory;
use std::alloc::Global;

/// The most bytes that a response has before its body.
const HEAD_ROOM: usize = 192;

/// A response with this status and body: whether the connection closes behind it, and for 405 the one method
/// that is allowed.
pub fn response_bytes(
    alloc: Global,
    status: u16,
    body: &[u8],
    close: bool,
    allow: Option<Allow>,
) -> Result<Vec<u8>, NoMemory>
    requires known { IsStatus status }
    requires allowed { is_some allow ≡ (status == 405) }
    ensures { IfOk result (λ bytes. bytes.items ≡ response status body.now close allow) }
{
    let mut bytes = Vec::with_capacity(alloc, body.len().saturating_add(HEAD_ROOM))?;
    push_status(&mut bytes, status)?;
    push_length(alloc, &mut bytes, body.len())?;
    push_end(&mut bytes, close, allow)?;
    bytes.extend_from_slice(body)?;
    Ok(bytes)
}

/// Adds the line with the status.
fn push_status(bytes: &mut Vec<u8>, status: u16) -> Result<(), NoMemory>
    requires known { IsStatus status }
    ensures { OnOk result (bytes.new.items ≡ bytes.old.items ++ status_line status) }
{
    let Ok(code) = StatusCode::from_u16(status) else {
        unreachable!();
    };
    push_code(bytes, code)?;
    push_phrase(bytes, code)?;
    Ok(())
}

/// Adds the version and the digits of a status.
fn push_code(bytes: &mut Vec<u8>, code: StatusCode) -> Result<(), NoMemory>
    ensures { OnOk result (bytes.new.items ≡ bytes.old.items ++ (codes "HTTP/1.1 " ++ code_digits code)) }
{
    bytes.extend_from_slice(b"HTTP/1.1 ")?;
    bytes.extend_from_slice(code.as_str().as_bytes())?;
    Ok(())
}

/// Adds a space, the phrase of a status, and the end of the line.
fn push_phrase(bytes: &mut Vec<u8>, code: StatusCode) -> Result<(), NoMemory>
    ensures { OnOk result (bytes.new.items
        ≡ bytes.old.items ++ (codes " " ++ (phrase_of code ++ crlf_bytes))) }
{
    bytes.extend_from_slice(b" ")?;
    bytes.extend_from_slice(phrase(code))?;
    bytes.extend_from_slice(b"\r\n")?;
    Ok(())
}

/// The phrase of a status.
#[tactic(auto, unfolding(crate::specs::Responses::phrase_of))]
fn phrase(code: StatusCode) -> &'static [u8]
    ensures { result.now ≡ phrase_of code }
{
    match code.canonical_reason() {
        Some(phrase) => phrase.as_bytes(),
        None => b"",
    }
}

/// Adds the lines with the kind and the length of the body.
fn push_length(alloc: Global, bytes: &mut Vec<u8>, length: usize) -> Result<(), NoMemory>
    ensures { OnOk result (bytes.new.items ≡ bytes.old.items ++ (type_line ++ length_line length)) }
{
    let digits = length.to_string(alloc)?;
    bytes.extend_from_slice(b"Content-Type: application/json\r\nContent-Length: ")?;
    bytes.extend_from_slice(digits.as_bytes())?;
    bytes.extend_from_slice(b"\r\n")?;
    Ok(())
}

/// Adds the lines behind those.
fn push_end(bytes: &mut Vec<u8>, close: bool, allow: Option<Allow>) -> Result<(), NoMemory>
    ensures { OnOk result (bytes.new.items
        ≡ bytes.old.items ++ (allow_line allow ++ (close_line close ++ crlf_bytes))) }
{
    bytes.extend_from_slice(allow_line(allow))?;
    bytes.extend_from_slice(close_lines(close))?;
    Ok(())
}

/// The line with the one method that is allowed, where that is told.
fn allow_line(allow: Option<Allow>) -> &'static [u8]
    ensures { result.now ≡ allow_line allow }
{
    match allow {
        None => b"",
        Some(Allow::Get) => b"Allow: GET\r\n",
        Some(Allow::Post) => b"Allow: POST\r\n",
    }
}

/// The line that tells that the connection closes, where it does, and the empty line.
fn close_lines(close: bool) -> &'static [u8]
    ensures { result.now ≡ close_line close ++ crlf_bytes }
{
    if close {
        b"Connection: close\r\n\r\n"
    } else {
        b"\r\n"
    }
}
