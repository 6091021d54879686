//! A link in memory.
ghost use Rattle.std.specs.Prelude.{◌≡◌, ◌≤◌, ◌<◌, ◌↔◌, [], ◌++◌, length, min, take, drop};
ghost use Rattle.std.specs.Prelude.{Some, IsErr, IsTrue, IfOk, OnErr, OnOk};
ghost use Rattle.std.specs.Io.{ReadsAtMost, WritesAtMost};
ghost use Rattle.std.specs.Io.KnownBytes.{ReadConsumes, WriteAppends};
ghost use Rattle.kb_base.specs.Faults.{HasCause};
ghost use Rattle.kb_ports.specs.Memory.{fails_next, after_fault, after_call};
ghost use Rattle.kb_ports.specs.Pairs.{new_pair};

use crate::calls::Calls;
use crate::link::Link;
use kb_base::{Failed, NoMemory};
use std::alloc::Global;
use std::marker::Model;

/// Bytes in memory to read from and to write to, with the numbers of the calls that are to fail.
#[derive(Drop)]
pub struct PairLink {
    input: Vec<u8>,
    given: usize,
    reads: Calls,
    output: Vec<u8>,
    writes: Calls,
}

impl Model for PairLink {
    ghost use Rattle.std.specs.Prelude.{◌≤◌, length, drop};
    ghost use Rattle.kb_ports.specs.Pairs.{PairValue};

    ghost Value = { PairValue };

    ghost view = { λ link. record {
      input = record {
        bytes = drop link.given link.input.items;
        failing = link.reads.failing.items;
        calls = link.reads.made;
        faults = link.reads.faults;
      };
      output = record {
        bytes = link.output.items;
        failing = link.writes.failing.items;
        calls = link.writes.made;
        faults = link.writes.faults;
      };
    } };

    ghost invariant = { λ link. link.given ≤ length link.input.items };
}

impl PairLink {
    /// A link with these bytes to read. The reads and the writes of these numbers, counted from 1, fail.
    pub fn new(
        alloc: Global,
        input: Vec<u8>,
        failing_reads: Vec<u64>,
        failing_writes: Vec<u64>,
    ) -> PairLink
        ensures { result ≡ new_pair input.items failing_reads.items failing_writes.items }
    {
        PairLink {
            input,
            given: 0,
            reads: Calls::new(failing_reads),
            output: Vec::new(alloc),
            writes: Calls::new(failing_writes),
        }
    }

    /// The bytes that are left to read.
    pub fn left(&self) -> &[u8]
        ensures { result.now ≡ self.now.input.bytes }
    {
        &self.input[self.given..]
    }

    /// The bytes that were written.
    pub fn written(&self) -> &[u8]
        ensures { result.now ≡ self.now.output.bytes }
    {
        &self.output
    }

    /// How many reads were made, failed ones too.
    pub fn reads(&self) -> u64
        ensures { result ≡ self.now.input.calls }
    {
        self.reads.made
    }

    /// How many writes were made, failed ones too.
    pub fn writes(&self) -> u64
        ensures { result ≡ self.now.output.calls }
    {
        self.writes.made
    }

    /// Another link that is just as this one.
    pub fn copy(&self, alloc: Global) -> Result<PairLink, NoMemory>
        ensures { IfOk result (λ copy. copy ≡ self.now) }
    {
        Ok(PairLink {
            input: self.left().to_vec(alloc)?,
            given: 0,
            reads: copy_calls(alloc, &self.reads)?,
            output: self.output.to_vec(alloc)?,
            writes: copy_calls(alloc, &self.writes)?,
        })
    }

    /// Copies as many bytes as there are and fit, and says how many.
    fn give(&mut self, buf: &mut [u8]) -> usize
        ensures count { result ≡ min (length self.old.input.bytes) (length buf.old) }
        ensures filled { buf.new ≡ take result self.old.input.bytes ++ drop result buf.old }
        ensures split { self.old.input.bytes ≡ take result buf.new ++ self.new.input.bytes }
        ensures end { result ≡ 0 → 0 < length buf.new → self.new.input.bytes ≡ [] }
        ensures left { self.new.input ≡ record self.old.input {
          bytes = drop result self.old.input.bytes;
        } }
        ensures output { self.new.output ≡ self.old.output }
    {
        let count = copy_front(&self.input[self.given..], buf);
        self.given += count;
        count
    }
}

/// Counts that are just as these.
fn copy_calls(alloc: Global, calls: &Calls) -> Result<Calls, NoMemory>
    ensures failing { IfOk result (λ copy. copy.failing.items ≡ calls.now.failing.items) }
    ensures made { IfOk result (λ copy. copy.made ≡ calls.now.made) }
    ensures faults { IfOk result (λ copy. copy.faults ≡ calls.now.faults) }
{
    Ok(Calls {
        failing: calls.failing.to_vec(alloc)?,
        made: calls.made,
        faults: calls.faults,
    })
}

/// Copies as many of the first bytes as there are and fit, and says how many.
fn copy_front(bytes: &[u8], buf: &mut [u8]) -> usize
    ensures count { result ≡ min (length bytes.now) (length buf.old) }
    ensures filled { buf.new ≡ take result bytes.now ++ drop result buf.old }
    ensures split { bytes.now ≡ take result buf.new ++ drop result bytes.now }
    ensures end { result ≡ 0 → 0 < length buf.new → drop result bytes.now ≡ [] }
{
    let count = bytes.len().min(buf.len());
    buf[..count].copy_from_slice(&bytes[..count]);
    count
}

impl Link for PairLink {
    ghost left = { λ link. Some link.input.bytes };

    ghost written = { λ link. Some link.output.bytes };

    ghost input_faults = { λ link. link.input.faults };

    ghost output_faults = { λ link. link.output.faults };

    /// Reads as many bytes as there are and fit.
    fn read(&mut self, buf: &mut [u8]) -> Result<usize, Failed>
        ensures bytes { ReadConsumes (Some self.old.input.bytes) (Some self.new.input.bytes) result buf.new }
        ensures count { ReadsAtMost result buf.new }
        ensures cause { HasCause self.old.input.faults self.new.input.faults result }
        ensures calm { OnOk result (self.new.input.faults ≡ self.old.input.faults) }
        ensures rising { self.old.input.faults ≤ self.new.input.faults }
        ensures output { Some self.new.output.bytes ≡ Some self.old.output.bytes }
        ensures output_calm { self.new.output.faults ≡ self.old.output.faults }
        ensures fails { IsErr result ↔ IsTrue (fails_next self.old.input.failing self.old.input.calls) }
        ensures given { IfOk result (λ count.
            count ≡ min (length self.old.input.bytes) (length buf.old)) }
        ensures ok { IfOk result (λ count.
            self.new.input ≡ after_call self.old.input (drop count self.old.input.bytes)) }
        ensures err { OnErr result (self.new.input ≡ after_fault self.old.input) }
        ensures same_output { self.new.output ≡ self.old.output }
        ensures untouched { OnErr result (buf.new ≡ buf.old) }
    {
        self.reads.begin()?;
        Ok(self.give(buf))
    }

    /// Writes all the bytes. It fails too where memory runs out.
    fn write(&mut self, bytes: &[u8]) -> Result<usize, Failed>
        ensures bytes { WriteAppends (Some self.old.output.bytes) (Some self.new.output.bytes) result
            bytes.now }
        ensures count { WritesAtMost result bytes.now }
        ensures some { 0 < length bytes.now → IfOk result (λ count. 0 < count) }
        ensures cause { HasCause self.old.output.faults self.new.output.faults result }
        ensures calm { OnOk result (self.new.output.faults ≡ self.old.output.faults) }
        ensures rising { self.old.output.faults ≤ self.new.output.faults }
        ensures input { Some self.new.input.bytes ≡ Some self.old.input.bytes }
        ensures input_calm { self.new.input.faults ≡ self.old.input.faults }
        ensures fails { IsTrue (fails_next self.old.output.failing self.old.output.calls) → IsErr result }
        ensures all { IfOk result (λ count. count ≡ length bytes.now) }
        ensures ok { OnOk result (self.new.output
            ≡ after_call self.old.output (self.old.output.bytes ++ bytes.now)) }
        ensures err { OnErr result (self.new.output ≡ after_fault self.old.output) }
        ensures same_input { self.new.input ≡ self.old.input }
    {
        self.writes.begin()?;
        if self.output.extend_from_slice(bytes).is_err() {
            return Err(self.writes.fault());
        }
        Ok(bytes.len())
    }
}
