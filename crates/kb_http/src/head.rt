//! The head of a request, as far as it tells where the request goes and what is read behind it.
ghost use Rattle.std.specs.Prelude.{◌≡◌, ◌==◌, length, map, All, Ok, Err, Some, None, bytes_eq, codes};
ghost use Rattle.std.specs.List.{list_any};
ghost use Rattle.httparse.specs.Spans.{IsWithin, IsHeaderWithin, span_bytes, header_bytes};
ghost use Rattle.kb_http.specs.Heads.{is_named, told_length, body_length, framing_of, asks_to_close};
ghost use Rattle.kb_http.specs.Private.Parts.{told_with, told_after, told_by, length_of, Asks, Sees};

use crate::numbers::number;
use crate::route::{Method, Route};
use crate::words::{is_word, lists_close};
use httparse::spans::{EMPTY_HEADER_SPAN, HeaderSpan, RequestSpans, parse_request};
use httparse::{Error, Status};

/// The most fields of a head.
const MAX_FIELDS: usize = 64;

/// The most bytes of a body.
const MAX_BODY: u64 = 65_536;

/// A head: its length, how many bytes of body are read behind it or the status by which it is refused, where
/// its request goes, and whether it asks that the connection closes.
#[derive(Clone, Copy)]
pub struct Head {
    pub len: usize,
    pub body: Result<usize, u16>,
    pub route: Route,
    pub close: bool,
}

/// What is seen of bytes.
#[derive(Clone, Copy)]
pub enum Seen {
    Whole(Head),
    Part,
    Refused(u16),
}

/// Looks for a head at the front of bytes.
pub fn see_head(bytes: &[u8]) -> Seen
    ensures { Sees bytes.now result }
{
    let mut fields = [EMPTY_HEADER_SPAN; MAX_FIELDS];
    match parse_request(bytes, &mut fields) {
        Ok(Status::Complete(spans)) => Seen::Whole(head_of(bytes, spans, &fields[..spans.headers])),
        Ok(Status::Partial) => Seen::Part,
        Err(Error::TooManyHeaders) => Seen::Refused(431),
        Err(_) => Seen::Refused(400),
    }
}

/// The head whose parts lie at these places.
fn head_of(bytes: &[u8], spans: RequestSpans, fields: &[HeaderSpan]) -> Head
    requires method { IsWithin (length bytes.now) spans.method }
    requires target { IsWithin (length bytes.now) spans.path }
    requires within { All (IsHeaderWithin (length bytes.now)) fields.now }
    ensures len { result.len ≡ spans.len }
    ensures asks { Asks (span_bytes bytes.now spans.method) (span_bytes bytes.now spans.path) spans.version
        (map (header_bytes bytes.now) fields.now) result }
{
    let method = spans.method.of(bytes);
    Head {
        len: spans.len,
        body: framing(bytes, method, fields),
        route: Route::new(Method::new(method), spans.path.of(bytes)),
        close: spans.version == 0 || has_close(bytes, fields),
    }
}

/// How many bytes of body are read behind a head, or the status by which it is refused.
#[tactic(auto, using(crate::proofs::Lengths::framing_told))]
fn framing(bytes: &[u8], method: &[u8], fields: &[HeaderSpan]) -> Result<usize, u16>
    requires within { All (IsHeaderWithin (length bytes.now)) fields.now }
    ensures { result ≡ framing_of method.now (map (header_bytes bytes.now) fields.now) }
{
    if has_field(bytes, fields, b"transfer-encoding") {
        return Err(411);
    }
    body_length(method, length_told(bytes, fields))
}

/// The same of a method and the length that is told.
fn body_length(method: &[u8], told: Option<Result<usize, u16>>) -> Result<usize, u16>
    ensures { result ≡ length_of (bytes_eq method.now (codes "POST")) told }
{
    match told {
        Some(told) => told,
        None => {
            if method == b"POST".as_slice() {
                Err(411)
            } else {
                Ok(0)
            }
        }
    }
}

/// Whether there is a field with this name.
fn has_field(bytes: &[u8], fields: &[HeaderSpan], name: &[u8]) -> bool
    requires within { All (IsHeaderWithin (length bytes.now)) fields.now }
    ensures { result ≡ list_any (is_named name.now) (map (header_bytes bytes.now) fields.now) }
{
    for field in fields {
        if is_word(field.name.of(bytes), name) {
            return true;
        }
    }
    false
}

/// The length that the Content-Length fields tell, if there is one.
fn length_told(bytes: &[u8], fields: &[HeaderSpan]) -> Option<Result<usize, u16>>
    requires within { All (IsHeaderWithin (length bytes.now)) fields.now }
    ensures { result ≡ told_by None (map (header_bytes bytes.now) fields.now) }
{
    let mut told = None;
    for field in fields {
        told = told_after(told, field.name.of(bytes), field.value.of(bytes));
    }
    told
}

/// The length that is told after one more field.
fn told_after(
    told: Option<Result<usize, u16>>,
    name: &[u8],
    text: &[u8],
) -> Option<Result<usize, u16>>
    ensures { result ≡ told_after told (name.now, text.now) }
{
    if is_word(name, b"content-length") {
        told_with(told, text)
    } else {
        told
    }
}

/// The length that is told after one more Content-Length: two of them are refused.
fn told_with(told: Option<Result<usize, u16>>, text: &[u8]) -> Option<Result<usize, u16>>
    ensures { result ≡ told_with told text.now }
{
    match told {
        None => Some(length_of_value(text)),
        Some(_) => Some(Err(400)),
    }
}

/// The length that a Content-Length tells, or the status by which it is refused.
fn length_of_value(text: &[u8]) -> Result<usize, u16>
    ensures { result ≡ told_length text.now }
{
    match number(text, MAX_BODY + 1) {
        None => Err(400),
        Some(length) if length > MAX_BODY => Err(413),
        Some(length) => Ok(length as usize),
    }
}

/// Whether a field asks that the connection closes.
fn has_close(bytes: &[u8], fields: &[HeaderSpan]) -> bool
    requires within { All (IsHeaderWithin (length bytes.now)) fields.now }
    ensures { result ≡ list_any asks_to_close (map (header_bytes bytes.now) fields.now) }
{
    for field in fields {
        if is_word(field.name.of(bytes), b"connection") && lists_close(field.value.of(bytes)) {
            return true;
        }
    }
    false
}
