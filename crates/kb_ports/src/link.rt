//! A connection with a peer.
ghost use Rattle.std.specs.Prelude.{◌≡◌, ◌≤◌, ◌<◌, List, ℕ, Option, IfOk, OnOk, length};
ghost use Rattle.std.specs.Io.{ReadsAtMost, WritesAtMost};
ghost use Rattle.std.specs.Io.KnownBytes.{ReadConsumes, WriteAppends};
ghost use Rattle.kb_base.specs.Faults.{HasCause};

use kb_base::Failed;

/// A connection: bytes of a peer to read, and a place to write bytes for the peer.
pub trait Link {
    /// The bytes that are left to read, where the object tells them.
    ghost left: { Self → Option (List ℕ) };

    /// The bytes that were written, where the object tells them.
    ghost written: { Self → Option (List ℕ) };

    /// How many reads have failed: a u64, which stands still at its last value.
    ghost input_faults: { Self → ℕ };

    /// How many writes have failed: a u64, which stands still at its last value.
    ghost output_faults: { Self → ℕ };

    /// Reads some bytes into the front of `buf`, and says how many. Into a buffer that isn't empty, 0
    /// is the end of the input. A call that fails reads nothing.
    fn read(&mut self, buf: &mut [u8]) -> Result<usize, Failed>
        ensures bytes { ReadConsumes (left self.old) (left self.new) result buf.new }
        ensures count { ReadsAtMost result buf.new }
        ensures cause { HasCause (input_faults self.old) (input_faults self.new) result }
        ensures calm { OnOk result (input_faults self.new ≡ input_faults self.old) }
        ensures rising { input_faults self.old ≤ input_faults self.new }
        ensures output { written self.new ≡ written self.old }
        ensures output_calm { output_faults self.new ≡ output_faults self.old };

    /// Writes some bytes from the front of `bytes`, and says how many: at least one, unless there is
    /// none. A call that fails writes nothing.
    fn write(&mut self, bytes: &[u8]) -> Result<usize, Failed>
        ensures bytes { WriteAppends (written self.old) (written self.new) result bytes.now }
        ensures count { WritesAtMost result bytes.now }
        ensures some { 0 < length bytes.now → IfOk result (λ count. 0 < count) }
        ensures cause { HasCause (output_faults self.old) (output_faults self.new) result }
        ensures calm { OnOk result (output_faults self.new ≡ output_faults self.old) }
        ensures rising { output_faults self.old ≤ output_faults self.new }
        ensures input { left self.new ≡ left self.old }
        ensures input_calm { input_faults self.new ≡ input_faults self.old };
}
