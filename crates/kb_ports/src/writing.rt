//! All bytes to a sink, however few a call takes.
ghost use Rattle.std.specs.Prelude.{◌≡◌, ◌≤◌, ◌++◌, List, ℕ, OnErr, OnOk};
ghost use Rattle.std.specs.Io.KnownBytes.{Appends};
ghost use Rattle.kb_base.specs.Faults.{HasCause};
ghost use Rattle.kb_base.specs.Stream.{Writes};

use crate::sink::Sink;
use kb_base::Failed;

/// Writes all the bytes, in as many calls as it takes. A fault leaves a first part of them written.
pub fn write_all<S: Sink>(sink: &mut S, bytes: &[u8]) -> Result<(), Failed>
    ensures ok { OnOk result (Appends (S.written sink.old) (S.written sink.new) bytes.now) }
    ensures err { OnErr result (Writes (S.written sink.old) (S.written sink.new)
        (λ text. (rest : List ℕ) × (text ++ rest ≡ bytes.now))) }
    ensures cause { HasCause (S.faults sink.old) (S.faults sink.new) result }
    ensures calm { OnOk result (S.faults sink.new ≡ S.faults sink.old) }
    ensures rising { S.faults sink.old ≤ S.faults sink.new }
{
    let mut taken = 0;
    while taken < bytes.len() {
        taken += sink.write(&bytes[taken..])?;
    }
    Ok(())
}
