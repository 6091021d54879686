//! A sink in memory.
ghost use Rattle.std.specs.Prelude.{◌≡◌, ◌≤◌, ◌<◌, ◌++◌, length, Some, IsErr, IsTrue, IfOk, OnErr, OnOk};
ghost use Rattle.std.specs.Io.{WritesAtMost};
ghost use Rattle.std.specs.Io.KnownBytes.{WriteAppends};
ghost use Rattle.kb_base.specs.Faults.{HasCause};
ghost use Rattle.kb_ports.specs.Memory.{uncalled, fails_next, after_fault, after_call};

use crate::calls::Calls;
use crate::sink::Sink;
use kb_base::Failed;
use std::marker::Model;

/// Bytes in memory to write to, with the numbers of the calls that are to fail.
#[derive(Debug, Drop)]
pub struct BytesSink {
    bytes: Vec<u8>,
    calls: Calls,
}

impl Model for BytesSink {
    ghost use Rattle.kb_ports.specs.Memory.{Memory};

    ghost Value = { Memory };

    ghost view = { λ sink. record {
      bytes = sink.bytes.items;
      failing = sink.calls.failing.items;
      calls = sink.calls.made;
      faults = sink.calls.faults;
    } };
}

impl BytesSink {
    /// A sink that these bytes were written to. The calls of these numbers, counted from 1, fail.
    pub fn new(bytes: Vec<u8>, failing: Vec<u64>) -> BytesSink
        ensures { result ≡ uncalled bytes.items failing.items }
    {
        BytesSink {
            bytes,
            calls: Calls::new(failing),
        }
    }

    /// The bytes that were written.
    pub fn bytes(&self) -> &[u8]
        ensures { result.now ≡ self.now.bytes }
    {
        &self.bytes
    }

    /// The bytes that were written.
    pub fn into_bytes(self) -> Vec<u8>
        ensures { result.items ≡ self.bytes }
    {
        self.bytes
    }

    /// How many calls were made, failed ones too.
    pub fn calls(&self) -> u64
        ensures { result ≡ self.now.calls }
    {
        self.calls.made
    }

    /// How many calls have failed.
    pub fn faults(&self) -> u64
        ensures { result ≡ self.now.faults }
    {
        self.calls.faults.number()
    }
}

impl Sink for BytesSink {
    ghost written = { λ sink. Some sink.bytes };

    ghost faults = { λ sink. sink.faults };

    /// Writes all the bytes. It fails too where memory runs out.
    fn write(&mut self, bytes: &[u8]) -> Result<usize, Failed>
        ensures bytes { WriteAppends (Some self.old.bytes) (Some self.new.bytes) result bytes.now }
        ensures count { WritesAtMost result bytes.now }
        ensures some { 0 < length bytes.now → IfOk result (λ count. 0 < count) }
        ensures cause { HasCause self.old.faults self.new.faults result }
        ensures calm { OnOk result (self.new.faults ≡ self.old.faults) }
        ensures rising { self.old.faults ≤ self.new.faults }
        ensures fails { IsTrue (fails_next self.old.failing self.old.calls) → IsErr result }
        ensures all { IfOk result (λ count. count ≡ length bytes.now) }
        ensures ok { OnOk result (self.new ≡ after_call self.old (self.old.bytes ++ bytes.now)) }
        ensures err { OnErr result (self.new ≡ after_fault self.old) }
    {
        self.calls.begin()?;
        if self.bytes.extend_from_slice(bytes).is_err() {
            return Err(self.calls.fault());
        }
        Ok(bytes.len())
    }
}
