//! A connection: the requests of a link, one after another.
//!
//! What was read and is of no request yet stands in a buffer; a request is taken off its front once it is
//! whole. The states of a connection:
//!
//! | State | The buffer | `next` |
//! |---|---|---|
//! | open | begins where the last request ended | reads on as far as it must, and gives what comes next |
//! | ended | as it was then | tells that again, and reads nothing |
//!
//! What always holds:
//!
//! 1. The buffer and what is left in the link are the stream behind the requests that were given.
//! 2. The buffer has at most 86,016 bytes: a head, a body, and one reading more.
ghost use Rattle.std.specs.Prelude.{◌≡◌, ◌≢◌, ◌≤◌, ◌<◌, ◌+◌, ℕ, List, [], ◌++◌, None, Some, length, ◌||◌};
ghost use Rattle.std.specs.Prelude.{nat_le, IfSome, IfOk, IfErr, OnOk, OnErr};
ghost use Rattle.kb_http.specs.Heads.{max_requests};
ghost use Rattle.std.specs.Io.KnownBytes.{Appends, Consumes, Keeps, prepend_known};
ghost use Rattle.kb_base.specs.Faults.{HasCause};
ghost use Rattle.kb_base.specs.Stream.{Writes};
ghost use Rattle.httparse.specs.Grammar.{RequestHead};
ghost use Rattle.kb_http.specs.Connections.{new_conn, unread, told_of, ended_by, IfRequest, UnlessRequest};
ghost use Rattle.kb_http.specs.Connections.{UnlessFault, count_after, IsCaused, Meets, MeetsPart, MeetsEnd};
ghost use Rattle.kb_http.specs.declared.request.HttpRequest.{HttpRequest};
ghost use Rattle.kb_http.specs.Requests.{IsRequest, BeginsWith};
ghost use Rattle.kb_http.specs.Private.Reading.{ReadsAhead, StandsStill, Stops, HasWhole};

use crate::head::Head;
use crate::reading::{MAX_BODY, MAX_HEAD, PIECE, fill, read_head};
use crate::request::HttpRequest;
use crate::stop::{HttpNext, Stop};
use crate::taking::take_body;
use kb_base::{Failed, Seq};
use kb_ports::{Link, send_bytes};
use std::alloc::Global;
use std::marker::Model;

/// The most requests of a connection.
const MAX_REQUESTS: u32 = 10_000;

/// A connection: the requests of a link, one after another.
#[derive(Drop)]
pub struct Conn<L: Link> {
    link: L,
    pending: Vec<u8>,
    given: u32,
    ended: Option<Stop>,
}

impl<L: Link> Model for Conn<L> {
    ghost use Rattle.std.specs.Prelude.{◌≤◌, length};
    ghost use Rattle.kb_http.specs.Connections.{ConnValue};

    ghost Value = { ConnValue L };

    ghost view = { λ conn. record {
      link = conn.link;
      pending = conn.pending.items;
      given = conn.given;
      ended = conn.ended;
    } };

    ghost invariant = { λ conn. (length conn.pending.items ≤ 86016) × (conn.given ≤ 10000) };
}

impl<L: Link> Conn<L> {
    /// A connection of this link, of which nothing is read yet.
    pub fn new(alloc: Global, link: L) -> Conn<L>
        ensures { result ≡ new_conn link }
    {
        Conn {
            link,
            pending: Vec::new(alloc),
            given: 0,
            ended: None,
        }
    }

    /// The link as it is.
    pub fn into_link(self) -> L
        ensures { result ≡ self.link }
    {
        self.link
    }

    /// The next request, or why there is none. A call behind an answer that is no request gives it again.
    pub fn next(&mut self, alloc: Global) -> HttpNext
        ensures request { self.old.ended ≡ None → IfRequest result (λ request. (bytes : List ℕ)
            × Consumes (unread L.left self.old) (unread L.left self.new) bytes
            × IsRequest self.old.given bytes request) }
        ensures kept { UnlessRequest result (Keeps (unread L.left self.old) (unread L.left self.new)) }
        ensures cause { self.old.ended ≡ None → IsCaused (L.input_faults self.old.link)
            (L.input_faults self.new.link) (L.left self.new.link) self.new.pending result }
        ensures whole { self.old.ended ≡ None → (bytes : List ℕ) → unread L.left self.old ≡ Some bytes
            → (head : RequestHead) (rest : List ℕ) → BeginsWith bytes head rest → Meets head rest result }
        ensures part { self.old.ended ≡ None → (bytes more : List ℕ) → unread L.left self.old ≡ Some bytes
            → bytes ≢ [] → more ≢ [] → (request : HttpRequest)
            → IsRequest self.old.given (bytes ++ more) request → MeetsPart result }
        ensures none { self.old.ended ≡ None → unread L.left self.old ≡ Some [] → MeetsEnd result }
        ensures again { IfSome self.old.ended (λ stop. (result ≡ told_of stop) × (self.new ≡ self.old)) }
        ensures ended { self.new.ended ≡ ended_by result }
        ensures counted { self.new.given ≡ count_after self.old.given result }
        ensures bounded { length self.new.pending ≤ 86016 }
        ensures calm { UnlessFault result
            (L.input_faults self.new.link ≡ L.input_faults self.old.link) }
        ensures rising { L.input_faults self.old.link ≤ L.input_faults self.new.link }
        ensures output { L.written self.new.link ≡ L.written self.old.link }
        ensures output_calm { L.output_faults self.new.link ≡ L.output_faults self.old.link }
    {
        match self.ended {
            Some(stop) => stop.told(),
            None => self.read_next(alloc),
        }
    }

    /// The next request of a connection that hasn't ended, or why there is none.
    fn read_next(&mut self, alloc: Global) -> HttpNext
        requires { self.old.ended ≡ None }
        ensures request { IfRequest result (λ request. (bytes : List ℕ)
            × Consumes (unread L.left self.old) (unread L.left self.new) bytes
            × IsRequest self.old.given bytes request) }
        ensures kept { UnlessRequest result (Keeps (unread L.left self.old) (unread L.left self.new)) }
        ensures cause { IsCaused (L.input_faults self.old.link) (L.input_faults self.new.link)
            (L.left self.new.link) self.new.pending result }
        ensures ended { self.new.ended ≡ ended_by result }
        ensures counted { self.new.given ≡ count_after self.old.given result }
        ensures bounded { length self.new.pending ≤ 86016 }
        ensures calm { UnlessFault result
            (L.input_faults self.new.link ≡ L.input_faults self.old.link) }
        ensures rising { L.input_faults self.old.link ≤ L.input_faults self.new.link }
        ensures output { L.written self.new.link ≡ L.written self.old.link }
        ensures output_calm { L.output_faults self.new.link ≡ L.output_faults self.old.link }
    {
        match read_request(alloc, &mut self.link, &mut self.pending, self.given) {
            Ok(request) => {
                self.given = (self.given + 1).min(MAX_REQUESTS);
                HttpNext::Request(request)
            }
            Err(stop) => {
                self.ended = Some(stop);
                stop.told()
            }
        }
    }

    /// Writes all the bytes to the peer. A fault leaves a first part of them written.
    pub fn send(&mut self, bytes: &[u8]) -> Result<(), Failed>
        ensures ok { OnOk result (Appends (L.written self.old.link) (L.written self.new.link) bytes.now) }
        ensures err { OnErr result (Writes (L.written self.old.link) (L.written self.new.link)
            (λ text. (rest : List ℕ) × (text ++ rest ≡ bytes.now))) }
        ensures cause { HasCause (L.output_faults self.old.link) (L.output_faults self.new.link) result }
        ensures calm { OnOk result (L.output_faults self.new.link ≡ L.output_faults self.old.link) }
        ensures rising { L.output_faults self.old.link ≤ L.output_faults self.new.link }
        ensures same { self.new ≡ record self.old { link = self.new.link } }
        ensures input { L.left self.new.link ≡ L.left self.old.link }
        ensures input_calm { L.input_faults self.new.link ≡ L.input_faults self.old.link }
    {
        send_bytes(&mut self.link, bytes)
    }
}

/// Reads the next head and its body, which stay at the front of what was read.
fn read_whole<L: Link>(link: &mut L, pending: &mut Vec<u8>) -> Result<(Head, usize), Stop>
    requires bounded { length pending.old.items ≤ MAX_HEAD + MAX_BODY + PIECE }
    ensures ahead { ReadsAhead L.left L.written L.output_faults link.old link.new
        pending.old.items pending.new.items }
    ensures whole { IfOk result (λ found. HasWhole pending.new.items found.0 found.1) }
    ensures bounded { length pending.new.items ≤ MAX_HEAD + MAX_BODY + PIECE }
    ensures err { IfErr result (Stops (L.input_faults link.old) (L.input_faults link.new)
        (L.left link.new) pending.new.items) }
    ensures calm { OnOk result (L.input_faults link.new ≡ L.input_faults link.old) }
    ensures still { IfErr result (StandsStill (L.input_faults link.old) (L.input_faults link.new)) }
    ensures rising { L.input_faults link.old ≤ L.input_faults link.new }
{
    let head = match read_head(link, pending) {
        Ok(head) => head,
        Err(stop) => return Err(stop),
    };
    let count = match head.body {
        Ok(count) => count,
        Err(status) => return Err(Stop::Refuse(status)),
    };
    match fill(link, pending, head.len + count) {
        Ok(true) => Ok((head, count)),
        Ok(false) => Err(Stop::Cut),
        Err(stop) => Err(stop),
    }
}

/// Reads the next request, which is taken off the front of what was read.
fn read_request<L: Link>(
    alloc: Global,
    link: &mut L,
    pending: &mut Vec<u8>,
    given: u32,
) -> Result<HttpRequest, Stop>
    requires few { given ≤ MAX_REQUESTS }
    requires bounded { length pending.old.items ≤ MAX_HEAD + MAX_BODY + PIECE }
    ensures request { IfOk result (λ request. (bytes : List ℕ)
        × Consumes (prepend_known pending.old.items (L.left link.old))
        (prepend_known pending.new.items (L.left link.new)) bytes
        × IsRequest given bytes request) }
    ensures kept { OnErr result (Keeps (prepend_known pending.old.items (L.left link.old))
        (prepend_known pending.new.items (L.left link.new))) }
    ensures bounded { length pending.new.items ≤ MAX_HEAD + MAX_BODY + PIECE }
    ensures err { IfErr result (Stops (L.input_faults link.old) (L.input_faults link.new)
        (L.left link.new) pending.new.items) }
    ensures calm { OnOk result (L.input_faults link.new ≡ L.input_faults link.old) }
    ensures still { IfErr result (StandsStill (L.input_faults link.old) (L.input_faults link.new)) }
    ensures rising { L.input_faults link.old ≤ L.input_faults link.new }
    ensures output { L.written link.new ≡ L.written link.old }
    ensures output_calm { L.output_faults link.new ≡ L.output_faults link.old }
{
    let (head, count) = match read_whole(link, pending) {
        Ok(found) => found,
        Err(stop) => return Err(stop),
    };
    match take_body(alloc, pending, head.len, count) {
        Ok(body) => Ok(HttpRequest {
            route: head.route,
            body: Seq::from_vec(body),
            close: closes(head.close, given),
        }),
        Err(_) => Err(Stop::NoMemory),
    }
}

/// Whether the connection closes behind a request: where that is asked, and behind the last of so many.
fn closes(asked: bool, given: u32) -> bool
    requires few { given ≤ MAX_REQUESTS }
    ensures { result ≡ (asked || nat_le max_requests (given + 1)) }
{
    asked || MAX_REQUESTS <= given + 1
}
