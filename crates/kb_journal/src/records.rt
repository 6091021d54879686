//! The records of a journal, in the bytes that were read.
ghost use Rattle.std.specs.Prelude.{◌≡◌, ◌≤◌, ◌+◌, length, drop, take};
ghost use Rattle.std.specs.Iterator.{YieldsFirstRef, item_count};
ghost use Rattle.std.specs.Int.{w32, to_be_bytes};
ghost use Rattle.kb_journal.specs.Reading.{told_size};
ghost use Rattle.kb_journal.specs.Private.Records.{first_told, behind_first, told};
ghost use Rattle.kb_journal.specs.Private.Parts.{AreThere};

use std::marker::Model;

/// The records of a journal, in order. They stand in the bytes of the journal, which are kept as they were
/// read.
#[derive(Drop)]
pub struct Records {
    bytes: Vec<u8>,
    count: usize,
}

impl Model for Records {
    ghost use Rattle.std.specs.Prelude.{List, ℕ, ◌≤◌, length, drop};
    ghost use Rattle.kb_journal.specs.Private.Records.{told};
    ghost use Rattle.kb_journal.specs.Private.Parts.{AreThere};

    ghost Value = { List (List ℕ) };

    ghost view = { λ records. told records.count (drop 16 records.bytes.items) };

    ghost invariant = { λ records.
        (16 ≤ length records.bytes.items) × AreThere records.count (drop 16 records.bytes.items) };
}

impl Records {
    /// So many records behind a header.
    pub(crate) fn behind_header(bytes: Vec<u8>, count: usize) -> Records
        requires header { 16 ≤ length bytes.items }
        requires there { AreThere count (drop 16 bytes.items) }
        ensures { result ≡ told count (drop 16 bytes.items) }
    {
        Records { bytes, count }
    }

    /// How many there are.
    pub fn len(&self) -> usize
        ensures { result ≡ length self.now }
    {
        self.count
    }

    /// All of them, one after another.
    pub fn iter(&self) -> RecordsLeft<'_>
        ensures { result ≡ self.now }
    {
        RecordsLeft {
            bytes: &self.bytes[16..],
            count: self.count,
        }
    }
}

/// The records of a journal that are left, when some were gone over.
#[derive(Drop)]
pub struct RecordsLeft<'a> {
    bytes: &'a [u8],
    count: usize,
}

impl<'a> Model for RecordsLeft<'a> {
    ghost use Rattle.std.specs.Prelude.{List, ℕ};
    ghost use Rattle.kb_journal.specs.Private.Records.{told};
    ghost use Rattle.kb_journal.specs.Private.Parts.{AreThere};

    ghost Value = { List (List ℕ) };

    ghost view = { λ left. told left.count left.bytes.now };

    ghost invariant = { λ left. AreThere left.count left.bytes.now };
}

impl<'a> Iterator for RecordsLeft<'a> {
    type Item = &'a [u8];

    ghost next_gives = { YieldsFirstRef (λ left. left) };

    ghost remaining = { item_count (λ left. left) };

    fn next(&mut self) -> Option<&'a [u8]> {
        if self.count == 0 {
            return None;
        }
        let (record, rest) = split_record(self.bytes);
        self.bytes = rest;
        self.count -= 1;
        Some(record)
    }
}

/// The record behind the gate that bytes begin at, and what follows it.
fn split_record(bytes: &[u8]) -> (&[u8], &[u8])
    requires there { told_size (drop 1 bytes.now) + 5 ≤ length bytes.now }
    ensures first { result.0.now ≡ first_told bytes.now }
    ensures rest { result.1.now ≡ behind_first bytes.now }
{
    let size = read_size(&bytes[1..]) as usize;
    bytes[5..].split_at(size)
}

/// The length that a record tells of itself.
pub fn read_size(bytes: &[u8]) -> u32
    requires in_range { 4 ≤ length bytes.now }
    ensures read { result ≡ told_size bytes.now }
    ensures written { to_be_bytes w32 result ≡ take 4 bytes.now }
{
    let part = &bytes[..4];
    u32::from_be_bytes([part[0], part[1], part[2], part[3]])
}
