//! Where the records of a journal end.
ghost use Rattle.std.specs.Prelude.{◌≡◌, ◌≤◌, ◌<◌, ◌+◌, ◌++◌, ◌∷◌, length, drop, get_or};
ghost use Rattle.std.specs.Prelude.{IfNone, IfSome, IfOk, IfErr};
ghost use Rattle.kb_journal.specs.Format.{framed, IsSized, IsClosed};
ghost use Rattle.kb_journal.specs.Reading.{IsCutShort};
ghost use Rattle.kb_journal.specs.Private.Parts.{IsEnd, IsCutBehind};

use crate::block::MAX_RECORD;
use crate::records::read_size;

/// How many records stand before a gate, and its place.
#[derive(Drop)]
pub struct End {
    pub count: usize,
    pub gate: usize,
}

/// The first closed gate in bytes that begin at a gate, or the place of an open one before it that has no
/// whole record behind it.
pub fn find_end(bytes: &[u8]) -> Result<End, usize>
    requires some { 1 ≤ length bytes.now }
    ensures end { IfOk result (λ end. IsEnd end.count end.gate bytes.now) }
    ensures closed { IfOk result (λ end. IsClosed (get_or bytes.now end.gate 0)) }
    ensures cut { IfErr result (IsCutBehind bytes.now) }
{
    let mut count = 0;
    let mut gate = 0;
    while let Some(rest) = behind_open(&bytes[gate..]) {
        let Some(record) = first_record(rest) else {
            return Err(gate);
        };
        count += 1;
        gate += record.len() + 5;
    }
    Ok(End { count, gate })
}

/// What stands behind a gate, if it is open.
fn behind_open(bytes: &[u8]) -> Option<&[u8]>
    requires some { 1 ≤ length bytes.now }
    ensures open { IfSome result (λ rest. bytes.now ≡ 1 ∷ rest.now) }
    ensures closed { IfNone result (IsClosed (get_or bytes.now 0 0)) }
{
    if bytes[0] != 1 {
        return None;
    }
    Some(&bytes[1..])
}

/// The record behind an open gate, if it is whole and a gate stands behind it.
#[tactic(auto, using(crate::proofs::Parts::record_whole))]
fn first_record(bytes: &[u8]) -> Option<&[u8]>
    ensures whole { IfSome result (λ found.
        bytes.now ≡ framed found.now ++ drop (4 + length found.now) bytes.now) }
    ensures sized { IfSome result (λ found. IsSized found.now) }
    ensures gate { IfSome result (λ found. 4 + length found.now < length bytes.now) }
    ensures cut { IfNone result (IsCutShort bytes.now) }
{
    if bytes.len() < 4 {
        return None;
    }
    let size = read_size(bytes) as usize;
    if size < 1 || MAX_RECORD < size || bytes.len() < size + 5 {
        return None;
    }
    Some(&bytes[4..4 + size])
}
