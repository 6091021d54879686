//! Where bytes go.
ghost use Rattle.std.specs.Prelude.{◌≡◌, ◌≤◌, ◌<◌, List, ℕ, Option, IfOk, OnOk, length};
ghost use Rattle.std.specs.Io.{WritesAtMost};
ghost use Rattle.std.specs.Io.KnownBytes.{WriteAppends};
ghost use Rattle.kb_base.specs.Faults.{HasCause};

use kb_base::Failed;

/// A place to write bytes to.
pub trait Sink {
    /// The bytes that were written, where the object tells them.
    ghost written: { Self → Option (List ℕ) };

    /// How many calls have failed: a u64, which stands still at its last value.
    ghost faults: { Self → ℕ };

    /// Writes some bytes from the front of `bytes`, and says how many: at least one, unless there is
    /// none. A call that fails writes nothing.
    fn write(&mut self, bytes: &[u8]) -> Result<usize, Failed>
        ensures bytes { WriteAppends (written self.old) (written self.new) result bytes.now }
        ensures count { WritesAtMost result bytes.now }
        ensures some { 0 < length bytes.now → IfOk result (λ count. 0 < count) }
        ensures cause { HasCause (faults self.old) (faults self.new) result }
        ensures calm { OnOk result (faults self.new ≡ faults self.old) }
        ensures rising { faults self.old ≤ faults self.new };
}
