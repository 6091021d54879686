//! Machines that answer lines.
ghost use Rattle.std.specs.Prelude.{◌≡◌, ◌++◌, List, ℕ, OnOk, OnErr};
ghost use Rattle.kb_base.specs.Machine.{Machine};

use kb_base::NoMemory;
use std::alloc::Global;

/// A machine that answers lines.
pub trait LineMachine {
    /// In a state and to a line, it may say a text and go on in another state.
    ghost machine: { Machine Self (List ℕ) };

    /// Answers a line, which has no line feed, at the end of `said`. An `Err` cuts the step short.
    fn answer(&mut self, alloc: Global, line: &[u8], said: &mut Vec<u8>) -> Result<(), NoMemory>
        ensures ok { OnOk result ((text : List ℕ)
            × (said.new.items ≡ said.old.items ++ text) × machine.step self.old line.now text self.new) }
        ensures err { OnErr result ((text : List ℕ)
            × (said.new.items ≡ said.old.items ++ text) × machine.cut self.old line.now text self.new) };
}
