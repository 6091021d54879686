//! The header of a journal, as it is read.
ghost use Rattle.std.specs.Prelude.{◌≡◌, ◌≤◌, ◌+◌, ◌++◌, length, drop, take, IfOk, IfErr};
ghost use Rattle.std.specs.Int.{w16, to_be_bytes};
ghost use Rattle.kb_journal.specs.Format.{header};
ghost use Rattle.kb_journal.specs.Reading.{number_at, IsHeaderFault};

/// The number of lanes in the header of this lane, or the place of its first fault.
#[tactic(auto, using(crate::proofs::Parts::header_whole))]
pub fn read_header(bytes: &[u8], lane: u16) -> Result<u16, u64>
    ensures many { IfOk result (λ lanes. (1 ≤ lanes) × (lanes ≤ 64) × (lanes ≡ number_at 8 bytes.now)) }
    ensures header { IfOk result (λ lanes. bytes.now ≡ header lanes lane ++ drop 16 bytes.now) }
    ensures long { IfOk result (λ lanes. 17 ≤ length bytes.now) }
    ensures fault { IfErr result (IsHeaderFault lane bytes.now) }
{
    if bytes.len() < 17 || bytes[..8] != [b'K', b'B', b'J', b'R', b'N', b'L', b'0', b'1'] {
        return Err(0);
    }
    let lanes = read_number(bytes, 8);
    if lanes < 1 || 64 < lanes {
        return Err(8);
    }
    if read_number(bytes, 10) != lane {
        return Err(10);
    }
    if bytes[12..16] != [0, 0, 0, 0] {
        return Err(12);
    }
    Ok(lanes)
}

/// The number in two bytes at a place.
fn read_number(bytes: &[u8], at: usize) -> u16
    requires in_range { at + 2 ≤ length bytes.now }
    ensures read { result ≡ number_at at bytes.now }
    ensures written { to_be_bytes w16 result ≡ take 2 (drop at bytes.now) }
{
    let part = &bytes[at..at + 2];
    u16::from_be_bytes([part[0], part[1]])
}
