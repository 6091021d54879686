//! How a machine takes bytes: a line feed ends a piece, a piece that is a line is answered, and the bytes
//! behind the last line feed are pending.
ghost use Rattle.std.specs.Prelude.{◌≡◌, ◌++◌, ◌∷◌, List, ℕ, [], OnOk, OnErr, IfErr};
ghost use Rattle.kb_base.specs.Lines.{is_line};
ghost use Rattle.kb_base.specs.Stream.{CutsPiece};
ghost use Rattle.kb_base.specs.Private.Midstream.{EndsPiece, Moves};
ghost use Rattle.kb_runs.specs.Private.Stopping.{StopsAtByte, StopsAmong};

use crate::line_machine::LineMachine;
use crate::run_stop::RunStop;
use kb_base::NoMemory;
use std::alloc::Global;

/// The most bytes that a line may have.
pub const MAX_LINE: usize = 65_536;

/// Takes some bytes, one after another.
pub fn take_bytes<M: LineMachine>(
    alloc: Global,
    machine: &mut M,
    pending: &mut Vec<u8>,
    bytes: &[u8],
    said: &mut Vec<u8>,
) -> Result<(), RunStop>
    ensures ok { OnOk result ((text : List ℕ) × (said.new.items ≡ said.old.items ++ text)
        × Moves M.machine machine.old pending.old.items bytes.now machine.new pending.new.items text) }
    ensures err { IfErr result (λ stop. (text : List ℕ) × (said.new.items ≡ said.old.items ++ text)
        × StopsAmong M.machine machine.old pending.old.items bytes.now stop
        machine.new pending.new.items text) }
{
    for byte in bytes {
        if let Err(stop) = take_byte(alloc, machine, pending, *byte, said) {
            return Err(stop);
        }
    }
    Ok(())
}

/// Takes the next byte.
fn take_byte<M: LineMachine>(
    alloc: Global,
    machine: &mut M,
    pending: &mut Vec<u8>,
    byte: u8,
    said: &mut Vec<u8>,
) -> Result<(), RunStop>
    ensures ok { OnOk result ((text : List ℕ) × (said.new.items ≡ said.old.items ++ text)
        × Moves M.machine machine.old pending.old.items (byte ∷ []) machine.new pending.new.items text) }
    ensures err { IfErr result (λ stop. (text : List ℕ) × (said.new.items ≡ said.old.items ++ text)
        × StopsAtByte M.machine machine.old pending.old.items byte stop text machine.new
        × (pending.new.items ≡ pending.old.items)) }
{
    if byte == b'\n' {
        match end_piece(alloc, machine, pending, said) {
            Ok(()) => Ok(()),
            Err(NoMemory) => Err(RunStop::Memory),
        }
    } else if pending.len() >= MAX_LINE {
        Err(RunStop::LineTooLong)
    } else {
        Ok(pending.push(byte)?)
    }
}

/// Answers the pending piece, if it is a line.
pub fn end_piece<M: LineMachine>(
    alloc: Global,
    machine: &mut M,
    pending: &mut Vec<u8>,
    said: &mut Vec<u8>,
) -> Result<(), NoMemory>
    ensures ok { OnOk result ((text : List ℕ) × (said.new.items ≡ said.old.items ++ text)
        × EndsPiece M.machine machine.old pending.old.items machine.new text × (pending.new.items ≡ [])) }
    ensures err { OnErr result ((text : List ℕ) × (said.new.items ≡ said.old.items ++ text)
        × CutsPiece M.machine machine.old pending.old.items text machine.new
        × (pending.new.items ≡ pending.old.items)) }
{
    if is_line(pending.as_slice()) {
        machine.answer(alloc, pending.as_slice(), said)?;
    }
    pending.clear();
    Ok(())
}

/// A piece between line feeds is a line unless it is empty or a lone carriage return.
fn is_line(piece: &[u8]) -> bool
    ensures { result ≡ is_line piece.now }
{
    match piece {
        [] => false,
        [byte] => *byte != b'\r',
        _ => true,
    }
}
