//! What the bytes of a journal tell.
ghost use Rattle.std.specs.Prelude.{◌≡◌, ◌≤◌, ◌<◌, ℕ, length, drop, IfOk, IfErr, MatchResult};
ghost use Rattle.kb_journal.specs.Format.{body, StandsFor};
ghost use Rattle.kb_journal.specs.Reading.{IsNoJournal};

use crate::ending::find_end;
use crate::header::read_header;
use crate::records::Records;

/// The number of lanes, the records, and the place of the last gate.
#[derive(Drop)]
pub struct Contents {
    pub lanes: u16,
    pub records: Records,
    pub gate: u64,
}

/// What bytes tell as a journal of this lane, or where it shows that they are none.
pub fn read_contents(bytes: Vec<u8>, lane: u16) -> Result<Contents, u64>
    ensures stands { IfOk result (λ found. StandsFor found.lanes lane found.records bytes.items) }
    ensures placed { IfOk result (λ found. found.gate ≡ length (body found.lanes lane found.records)) }
    ensures there { IfOk result (λ found. found.gate < length bytes.items) }
    ensures some_lanes { IfOk result (λ found. 1 ≤ found.lanes) }
    ensures few_lanes { IfOk result (λ found. found.lanes ≤ 64) }
    ensures fault { IfErr result (IsNoJournal lane bytes.items) }
    ensures exact { (at : ℕ) → IsNoJournal lane bytes.items at
        → MatchResult result (λ _. ⊥) (λ told. told ≡ at) }
{
    let lanes = read_header(&bytes, lane)?;
    match find_end(behind_header(&bytes)) {
        Ok(end) => Ok(Contents {
            lanes,
            records: Records::behind_header(bytes, end.count),
            gate: end.gate as u64 + 16,
        }),
        Err(gate) => Err(gate as u64 + 16),
    }
}

/// What follows a header.
fn behind_header(bytes: &[u8]) -> &[u8]
    requires long { 16 ≤ length bytes.now }
    ensures { result.now ≡ drop 16 bytes.now }
{
    &bytes[16..]
}
