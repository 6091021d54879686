//! Reading ahead from a link.
ghost use Rattle.std.specs.Prelude.{◌≡◌, ◌≤◌, ◌<◌, ◌+◌, ℕ, List, Option, length, take};
ghost use Rattle.std.specs.Prelude.{IsTrue, IsFalse, IfOk, IfErr, OnOk};
ghost use Rattle.std.specs.Io.KnownBytes.{IsAtEnd};
ghost use Rattle.httparse.specs.Grammar.{HasNoRequest, MayBecomeRequest};
ghost use Rattle.kb_http.specs.Heads.{max_head};
ghost use Rattle.kb_http.specs.Private.Reading.{ReadsAhead, IsReadFault, StandsStill, Looks, Stops, HasHead};

use crate::head::{Head, Seen, see_head};
use crate::stop::Stop;
use kb_ports::Link;

/// The most bytes of a head.
pub const MAX_HEAD: usize = 16_384;

/// The most bytes of a body.
pub const MAX_BODY: usize = 65_536;

/// How many bytes are asked for at a time.
pub const PIECE: usize = 4096;

/// Reads some bytes more; false at the end of the link.
fn read_piece<L: Link>(link: &mut L, pending: &mut Vec<u8>) -> Result<bool, Stop>
    ensures ahead { ReadsAhead L.left L.written L.output_faults link.old link.new
        pending.old.items pending.new.items }
    ensures more { IfOk result (λ more. IsTrue more → length pending.old.items < length pending.new.items) }
    ensures end { IfOk result (λ more. IsFalse more →
        (pending.new.items ≡ pending.old.items) × IsAtEnd (L.left link.new)) }
    ensures bounded { length pending.new.items ≤ length pending.old.items + PIECE }
    ensures err { IfErr result (IsReadFault (L.input_faults link.old) (L.input_faults link.new)) }
    ensures calm { OnOk result (L.input_faults link.new ≡ L.input_faults link.old) }
    ensures still { IfErr result (StandsStill (L.input_faults link.old) (L.input_faults link.new)) }
    ensures rising { L.input_faults link.old ≤ L.input_faults link.new }
{
    let mut piece = [0; PIECE];
    if pending.reserve(PIECE).is_err() {
        return Err(Stop::NoMemory);
    }
    let count = match link.read(&mut piece) {
        Ok(count) => count,
        Err(_) => return Err(Stop::InputFault),
    };
    let Ok(()) = pending.extend_from_slice(&piece[..count]) else {
        unreachable!();
    };
    Ok(count > 0)
}

/// Reads until there are so many bytes; false where the link ends before.
pub fn fill<L: Link>(link: &mut L, pending: &mut Vec<u8>, count: usize) -> Result<bool, Stop>
    requires few { count ≤ MAX_HEAD + MAX_BODY }
    requires bounded { length pending.old.items ≤ MAX_HEAD + MAX_BODY + PIECE }
    ensures ahead { ReadsAhead L.left L.written L.output_faults link.old link.new
        pending.old.items pending.new.items }
    ensures full { IfOk result (λ full. IsTrue full → count ≤ length pending.new.items) }
    ensures end { IfOk result (λ full. IsFalse full →
        (length pending.new.items < count) × IsAtEnd (L.left link.new)) }
    ensures bounded { length pending.new.items ≤ MAX_HEAD + MAX_BODY + PIECE }
    ensures err { IfErr result (IsReadFault (L.input_faults link.old) (L.input_faults link.new)) }
    ensures calm { OnOk result (L.input_faults link.new ≡ L.input_faults link.old) }
    ensures still { IfErr result (StandsStill (L.input_faults link.old) (L.input_faults link.new)) }
    ensures rising { L.input_faults link.old ≤ L.input_faults link.new }
{
    'reads: while pending.len() < count {
        match read_piece(link, pending) {
            Ok(true) => {}
            Ok(false) => return Ok(false),
            Err(stop) => return Err(stop),
        }
    }
    Ok(true)
}

/// Reads until the first bytes have come, or further ones with which a head may be whole, or as many as one
/// may have; false where the link ends before it gives any. So bytes that come one by one aren't looked
/// through from the first one each time.
fn read_to_mark<L: Link>(link: &mut L, pending: &mut Vec<u8>) -> Result<bool, Stop>
    requires short { length pending.old.items < MAX_HEAD }
    ensures ahead { ReadsAhead L.left L.written L.output_faults link.old link.new
        pending.old.items pending.new.items }
    ensures more { IfOk result (λ more. IsTrue more → length pending.old.items < length pending.new.items) }
    ensures end { IfOk result (λ more. IsFalse more →
        (pending.new.items ≡ pending.old.items) × IsAtEnd (L.left link.new)) }
    ensures bounded { length pending.new.items ≤ MAX_HEAD + PIECE }
    ensures err { IfErr result (IsReadFault (L.input_faults link.old) (L.input_faults link.new)) }
    ensures calm { OnOk result (L.input_faults link.new ≡ L.input_faults link.old) }
    ensures still { IfErr result (StandsStill (L.input_faults link.old) (L.input_faults link.new)) }
    ensures rising { L.input_faults link.old ≤ L.input_faults link.new }
{
    let before = pending.len();
    'reads: while pending.len() < MAX_HEAD {
        let from = pending.len();
        match read_piece(link, pending) {
            Ok(true) => {}
            Ok(false) => return Ok(before < pending.len()),
            Err(stop) => return Err(stop),
        }
        if from == 0 || has_mark(pending, from) {
            return Ok(true);
        }
    }
    Ok(true)
}

/// Reads the next head, which stays at the front of what was read.
pub fn read_head<L: Link>(link: &mut L, pending: &mut Vec<u8>) -> Result<Head, Stop>
    requires bounded { length pending.old.items ≤ MAX_HEAD + MAX_BODY + PIECE }
    ensures ahead { ReadsAhead L.left L.written L.output_faults link.old link.new
        pending.old.items pending.new.items }
    ensures head { IfOk result (HasHead pending.new.items) }
    ensures bounded { length pending.new.items ≤ MAX_HEAD + MAX_BODY + PIECE }
    ensures err { IfErr result (Stops (L.input_faults link.old) (L.input_faults link.new)
        (L.left link.new) pending.new.items) }
    ensures calm { OnOk result (L.input_faults link.new ≡ L.input_faults link.old) }
    ensures still { IfErr result (StandsStill (L.input_faults link.old) (L.input_faults link.new)) }
    ensures rising { L.input_faults link.old ≤ L.input_faults link.new }
{
    'looks: loop {
        match look(pending) {
            Seen::Whole(head) => return Ok(head),
            Seen::Refused(status) => return Err(Stop::Refuse(status)),
            Seen::Part => read_behind_part(link, pending)?,
        }
    }
}

/// Looks for a head among as many bytes as one may have.
#[tactic(auto, using(crate::proofs::Looks::sees_all))]
fn look(pending: &[u8]) -> Seen
    ensures { Looks pending.now result }
{
    see_head(&pending[..pending.len().min(MAX_HEAD)])
}

/// Reads on behind a part of a head.
fn read_behind_part<L: Link>(link: &mut L, pending: &mut Vec<u8>) -> Result<(), Stop>
    requires none { HasNoRequest (take max_head pending.old.items) }
    requires unfinished { MayBecomeRequest (take max_head pending.old.items) }
    requires bounded { length pending.old.items ≤ MAX_HEAD + MAX_BODY + PIECE }
    ensures ahead { ReadsAhead L.left L.written L.output_faults link.old link.new
        pending.old.items pending.new.items }
    ensures more { OnOk result (length pending.old.items < length pending.new.items) }
    ensures short { OnOk result (length pending.old.items < max_head) }
    ensures bounded { length pending.new.items ≤ MAX_HEAD + MAX_BODY + PIECE }
    ensures err { IfErr result (Stops (L.input_faults link.old) (L.input_faults link.new)
        (L.left link.new) pending.new.items) }
    ensures calm { OnOk result (L.input_faults link.new ≡ L.input_faults link.old) }
    ensures still { IfErr result (StandsStill (L.input_faults link.old) (L.input_faults link.new)) }
    ensures rising { L.input_faults link.old ≤ L.input_faults link.new }
{
    if pending.len() >= MAX_HEAD {
        return Err(Stop::Refuse(431));
    }
    let end = end_of(pending);
    match read_to_mark(link, pending) {
        Ok(true) => Ok(()),
        Ok(false) => Err(end),
        Err(stop) => Err(stop),
    }
}

/// What the end of a link is that stands behind these bytes, which are a part of a head.
#[tactic(auto, using(crate::proofs::Looks::part_cut))]
fn end_of(pending: &[u8]) -> Stop
    requires none { HasNoRequest (take max_head pending.now) }
    requires unfinished { MayBecomeRequest (take max_head pending.now) }
    requires short { length pending.now < max_head }
    ensures { (old new : ℕ) (left : Option (List ℕ)) → IsAtEnd left → Stops old new left pending.now result }
{
    match pending {
        [] => Stop::Closed,
        [_, ..] => Stop::Cut,
    }
}

/// Whether an empty line that follows another line ends from this place on, as one ends each head.
fn has_mark(bytes: &[u8], from: usize) -> bool {
    for at in from..bytes.len() {
        if bytes[at] == b'\n' && ends_line(without_return(&bytes[..at])) {
            return true;
        }
    }
    false
}

/// Whether the bytes end with a line that isn't empty.
fn ends_line(bytes: &[u8]) -> bool {
    match bytes {
        [front @ .., b'\n'] => match without_return(front) {
            [] | [.., b'\n'] => false,
            _ => true,
        },
        _ => false,
    }
}

/// The bytes without a carriage return at their end.
fn without_return(bytes: &[u8]) -> &[u8] {
    match bytes {
        [front @ .., b'\r'] => front,
        _ => bytes,
    }
}
