//! Runs of a machine over the lines of a source, whose answers go to a sink.
//!
//! The input is read in chunks. What always holds between two of them:
//!
//! 1. *Answered*: the lines that have ended are answered, in order, and their answers are written.
//! 2. *Pending*: the bytes behind the last line feed are kept, and are at most `MAX_LINE`.
ghost use Rattle.std.specs.Prelude.{◌≡◌, ◌≤◌, OnOk, IfErr};
ghost use Rattle.kb_base.specs.Faults.{Rose};
ghost use Rattle.kb_base.specs.Stream.{Writes};
ghost use Rattle.kb_base.specs.Private.Midstream.{EndsPiece, Moves};
ghost use Rattle.kb_runs.specs.declared.run_stop.RunStop.TheVariants.{Input, Output};
ghost use Rattle.kb_runs.specs.Reading.{Ends, StopsBy};
ghost use Rattle.kb_runs.specs.Private.Stopping.{BreaksAmong, StopsAtLast};

use crate::line_machine::LineMachine;
use crate::run_stop::RunStop;
use crate::taking::{end_piece, take_bytes};
use kb_base::{Failed, NoMemory};
use kb_ports::{Sink, Source, write_all};
use std::alloc::Global;

/// The bytes at which a run is stopped: 2^40.
pub const MAX_INPUT: u64 = 1 << 40;

/// How many bytes are read at a time.
const CHUNK: usize = 8_192;

/// Runs a machine over the lines of a source until the input ends, and writes its answers to a sink.
pub fn run_lines<M: LineMachine, I: Source, O: Sink>(
    alloc: Global,
    machine: &mut M,
    input: &mut I,
    output: &mut O,
) -> Result<(), RunStop>
    ensures ok { OnOk result (Ends M.machine machine.old (I.left input.old) (I.left input.new)
        (O.written output.old) (O.written output.new) machine.new) }
    ensures err { IfErr result (λ stop. StopsBy M.machine machine.old stop
        (I.left input.old) (I.left input.new) (O.written output.old) (O.written output.new) machine.new) }
    ensures input_fault { result ≡ Err Input → Rose (I.faults input.old) (I.faults input.new) }
    ensures output_fault { result ≡ Err Output → Rose (O.faults output.old) (O.faults output.new) }
    ensures input_calm { (result ≡ Err Input → ⊥) → I.faults input.new ≡ I.faults input.old }
    ensures output_calm { (result ≡ Err Output → ⊥) → O.faults output.new ≡ O.faults output.old }
    ensures input_rising { I.faults input.old ≤ I.faults input.new }
    ensures output_rising { O.faults output.old ≤ O.faults output.new }
{
    let mut pending = Vec::new(alloc);
    let mut chunk = [0; CHUNK];
    let mut seen: u64 = 0;
    'reads: while seen < MAX_INPUT {
        let count = match input.read(&mut chunk) {
            Ok(count) => count,
            Err(Failed) => return Err(RunStop::Input),
        };
        if count == 0 {
            if let Err(stop) = finish(alloc, machine, &mut pending, output) {
                return Err(stop);
            }
            return Ok(());
        }
        if let Err(stop) = feed(alloc, machine, &mut pending, &chunk[..count], output) {
            return Err(stop);
        }
        seen += count as u64;
    }
    Err(RunStop::InputTooLong)
}

/// Takes some bytes, and writes the answers to the lines that they end. Where the machine gives up
/// among them, what was said before is still written.
fn feed<M: LineMachine, O: Sink>(
    alloc: Global,
    machine: &mut M,
    pending: &mut Vec<u8>,
    bytes: &[u8],
    output: &mut O,
) -> Result<(), RunStop>
    ensures ok { OnOk result (Writes (O.written output.old) (O.written output.new)
        (λ text. Moves M.machine machine.old pending.old.items bytes.now
        machine.new pending.new.items text)) }
    ensures err { IfErr result (λ stop. Writes (O.written output.old) (O.written output.new)
        (λ text. BreaksAmong M.machine machine.old pending.old.items bytes.now stop
        machine.new pending.new.items text)) }
    ensures input { result ≡ Err Input → ⊥ }
    ensures output { result ≡ Err Output → Rose (O.faults output.old) (O.faults output.new) }
    ensures calm { (result ≡ Err Output → ⊥) → O.faults output.new ≡ O.faults output.old }
    ensures rising { O.faults output.old ≤ O.faults output.new }
{
    let mut said = Vec::new(alloc);
    let taken = take_bytes(alloc, machine, pending, bytes, &mut said);
    match write_all(output, said.as_slice()) {
        Ok(()) => taken,
        Err(Failed) => Err(RunStop::Output),
    }
}

/// Answers the last piece, which no line feed has ended, if it is a line. What was said is written
/// even if the machine gives up.
fn finish<M: LineMachine, O: Sink>(
    alloc: Global,
    machine: &mut M,
    pending: &mut Vec<u8>,
    output: &mut O,
) -> Result<(), RunStop>
    ensures ok { OnOk result (Writes (O.written output.old) (O.written output.new)
        (λ text. EndsPiece M.machine machine.old pending.old.items machine.new text)) }
    ensures err { IfErr result (λ stop. Writes (O.written output.old) (O.written output.new)
        (λ text. StopsAtLast M.machine machine.old pending.old.items stop machine.new text)) }
    ensures input { result ≡ Err Input → ⊥ }
    ensures output { result ≡ Err Output → Rose (O.faults output.old) (O.faults output.new) }
    ensures calm { (result ≡ Err Output → ⊥) → O.faults output.new ≡ O.faults output.old }
    ensures rising { O.faults output.old ≤ O.faults output.new }
{
    let mut said = Vec::new(alloc);
    let ended = end_piece(alloc, machine, pending, &mut said);
    if let Err(Failed) = write_all(output, said.as_slice()) {
        return Err(RunStop::Output);
    }
    match ended {
        Ok(()) => Ok(()),
        Err(NoMemory) => Err(RunStop::Memory),
    }
}
