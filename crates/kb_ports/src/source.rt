//! Where bytes come from.
ghost use Rattle.std.specs.Prelude.{◌≡◌, ◌≤◌, List, ℕ, Option, OnOk};
ghost use Rattle.std.specs.Io.{ReadsAtMost};
ghost use Rattle.std.specs.Io.KnownBytes.{ReadConsumes};
ghost use Rattle.kb_base.specs.Faults.{HasCause};

use kb_base::Failed;

/// A stream of bytes to read.
pub trait Source {
    /// The bytes that are left, where the object tells them.
    ghost left: { Self → Option (List ℕ) };

    /// How many calls have failed: a u64, which stands still at its last value.
    ghost faults: { Self → ℕ };

    /// Reads some bytes into the front of `buf`, and says how many. Into a buffer that isn't empty, 0
    /// is the end of the input. A call that fails reads nothing.
    fn read(&mut self, buf: &mut [u8]) -> Result<usize, Failed>
        ensures bytes { ReadConsumes (left self.old) (left self.new) result buf.new }
        ensures count { ReadsAtMost result buf.new }
        ensures cause { HasCause (faults self.old) (faults self.new) result }
        ensures calm { OnOk result (faults self.new ≡ faults self.old) }
        ensures rising { faults self.old ≤ faults self.new };
}
