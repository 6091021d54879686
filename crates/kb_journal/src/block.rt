//! A record as it is written behind a gate.
ghost use Rattle.std.specs.Prelude.{◌≡◌, ◌≤◌, ◌+◌, ◌++◌, ◌∷◌, [], length, take};
ghost use Rattle.kb_journal.specs.Format.{header, framed, IsSized};

/// The most bytes of a record.
pub const MAX_RECORD: usize = 65_536;

/// The most bytes of a block.
pub const MAX_BLOCK: usize = MAX_RECORD + 5;

/// Puts the length of a record, the record and a closed gate at the front of a block.
pub fn fill_block(block: &mut [u8], bytes: &[u8])
    requires sized { IsSized bytes.now }
    requires fits { length bytes.now + 5 ≤ length block.old }
    ensures { take (length bytes.now + 5) block.new ≡ framed bytes.now ++ 0 ∷ [] }
{
    let end = bytes.len() + 4;
    block[..4].copy_from_slice(&(bytes.len() as u32).to_be_bytes());
    block[4..end].copy_from_slice(bytes);
    block[end] = 0;
}

/// The header of a lane of so many, and a closed gate.
pub fn header_block(lanes: u16, lane: u16) -> [u8; 17]
    ensures { result ≡ header lanes lane ++ 0 ∷ [] }
{
    let [many, lanes] = lanes.to_be_bytes();
    let [high, low] = lane.to_be_bytes();
    [
        b'K', b'B', b'J', b'R', b'N', b'L', b'0', b'1', many, lanes, high, low, 0, 0, 0, 0, 0,
    ]
}
