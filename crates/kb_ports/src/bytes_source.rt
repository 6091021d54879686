//! A source in memory.
ghost use Rattle.std.specs.Prelude.{◌≡◌, ◌<◌, ◌≤◌, ◌↔◌, [], ◌++◌, length, min, take, drop};
ghost use Rattle.std.specs.Prelude.{Some, IsErr, IsTrue, IfOk, OnErr, OnOk};
ghost use Rattle.std.specs.Io.{ReadsAtMost};
ghost use Rattle.std.specs.Io.KnownBytes.{ReadConsumes};
ghost use Rattle.kb_base.specs.Faults.{HasCause};
ghost use Rattle.kb_ports.specs.Memory.{uncalled, fails_next, after_fault, after_call};

use crate::calls::Calls;
use crate::source::Source;
use kb_base::Failed;
use std::marker::Model;

/// Bytes in memory to read from, with the numbers of the calls that are to fail.
#[derive(Debug, Drop)]
pub struct BytesSource {
    bytes: Vec<u8>,
    given: usize,
    calls: Calls,
}

impl Model for BytesSource {
    ghost use Rattle.std.specs.Prelude.{◌≤◌, length, drop};
    ghost use Rattle.kb_ports.specs.Memory.{Memory};

    ghost Value = { Memory };

    ghost view = { λ source. record {
      bytes = drop source.given source.bytes.items;
      failing = source.calls.failing.items;
      calls = source.calls.made;
      faults = source.calls.faults;
    } };

    ghost invariant = { λ source. source.given ≤ length source.bytes.items };
}

impl BytesSource {
    /// A source of these bytes. The calls of these numbers, counted from 1, fail.
    pub fn new(bytes: Vec<u8>, failing: Vec<u64>) -> BytesSource
        ensures { result ≡ uncalled bytes.items failing.items }
    {
        BytesSource {
            bytes,
            given: 0,
            calls: Calls::new(failing),
        }
    }

    /// The bytes that are left.
    pub fn left(&self) -> &[u8]
        ensures { result.now ≡ self.now.bytes }
    {
        &self.bytes[self.given..]
    }

    /// How many calls were made, failed ones too.
    pub fn calls(&self) -> u64
        ensures { result ≡ self.now.calls }
    {
        self.calls.made
    }

    /// How many calls have failed.
    pub fn faults(&self) -> u64
        ensures { result ≡ self.now.faults }
    {
        self.calls.faults.number()
    }
}

impl Source for BytesSource {
    ghost left = { λ source. Some source.bytes };

    ghost faults = { λ source. source.faults };

    /// Reads as many bytes as there are and fit.
    fn read(&mut self, buf: &mut [u8]) -> Result<usize, Failed>
        ensures bytes { ReadConsumes (Some self.old.bytes) (Some self.new.bytes) result buf.new }
        ensures count { ReadsAtMost result buf.new }
        ensures cause { HasCause self.old.faults self.new.faults result }
        ensures calm { OnOk result (self.new.faults ≡ self.old.faults) }
        ensures rising { self.old.faults ≤ self.new.faults }
        ensures fails { IsErr result ↔ IsTrue (fails_next self.old.failing self.old.calls) }
        ensures given { IfOk result (λ count.
            count ≡ min (length self.old.bytes) (length buf.old)) }
        ensures ok { IfOk result (λ count.
            self.new ≡ after_call self.old (drop count self.old.bytes)) }
        ensures err { OnErr result (self.new ≡ after_fault self.old) }
        ensures filled { IfOk result (λ count.
            buf.new ≡ take count self.old.bytes ++ drop count buf.old) }
        ensures untouched { OnErr result (buf.new ≡ buf.old) }
    {
        self.calls.begin()?;
        let count = copy_front(&self.bytes[self.given..], buf);
        self.given += count;
        Ok(count)
    }
}

/// Copies as many of the first bytes as there are and fit, and says how many.
fn copy_front(bytes: &[u8], buf: &mut [u8]) -> usize
    ensures count { result ≡ min (length bytes.now) (length buf.old) }
    ensures filled { buf.new ≡ take result bytes.now ++ drop result buf.old }
    ensures split { bytes.now ≡ take result buf.new ++ drop result bytes.now }
    ensures end { result ≡ 0 → 0 < length buf.new → drop result bytes.now ≡ [] }
{
    let count = bytes.len().min(buf.len());
    buf[..count].copy_from_slice(&bytes[..count]);
    count
}
