//! All bytes to a link, however few a call takes.
ghost use Rattle.std.specs.Prelude.{◌≡◌, ◌≤◌, ◌++◌, List, ℕ, OnErr, OnOk};
ghost use Rattle.std.specs.Io.KnownBytes.{Appends};
ghost use Rattle.kb_base.specs.Faults.{HasCause};
ghost use Rattle.kb_base.specs.Stream.{Writes};

use crate::link::Link;
use kb_base::Failed;

/// Writes all the bytes, in as many calls as it takes. A fault leaves a first part of them written.
pub fn send_bytes<L: Link>(link: &mut L, bytes: &[u8]) -> Result<(), Failed>
    ensures ok { OnOk result (Appends (L.written link.old) (L.written link.new) bytes.now) }
    ensures err { OnErr result (Writes (L.written link.old) (L.written link.new)
        (λ text. (rest : List ℕ) × (text ++ rest ≡ bytes.now))) }
    ensures cause { HasCause (L.output_faults link.old) (L.output_faults link.new) result }
    ensures calm { OnOk result (L.output_faults link.new ≡ L.output_faults link.old) }
    ensures rising { L.output_faults link.old ≤ L.output_faults link.new }
    ensures input { L.left link.new ≡ L.left link.old }
    ensures input_calm { L.input_faults link.new ≡ L.input_faults link.old }
{
    let mut taken = 0;
    while taken < bytes.len() {
        taken += link.write(&bytes[taken..])?;
    }
    Ok(())
}
