//! Where connections come in.
ghost use Rattle.std.specs.Prelude.{◌≡◌, ◌≤◌, ◌<◌, ◌+◌, List, ℕ, Option, OnOk};
ghost use Rattle.kb_base.specs.Faults.{HasCause};
ghost use Rattle.kb_ports.specs.Doors.{Gets, Stays, HandsOut, count_after};

use crate::link::Link;
use kb_base::Failed;

/// A place where connections come in, and where they are given back to be closed.
pub trait Door {
    type Link: Link + Send + Drop;

    /// How many links were handed out.
    ghost count_out: { Self → ℕ };

    /// How many links were given back.
    ghost count_back: { Self → ℕ };

    /// The links that were handed out, each as it was then, where the object tells them.
    ghost handed_out: { Self → Option (List Self.Link) };

    /// The links that were given back, each as it was then, where the object tells them.
    ghost given_back: { Self → Option (List Self.Link) };

    /// How many calls have failed: a u64, which stands still at its last value.
    ghost faults: { Self → ℕ };

    /// Waits for connections at a port from now on.
    fn listen(&mut self, port: u16) -> Result<(), Failed>
        ensures cause { HasCause (faults self.old) (faults self.new) result }
        ensures calm { OnOk result (faults self.new ≡ faults self.old) }
        ensures rising { faults self.old ≤ faults self.new }
        ensures out { count_out self.new ≡ count_out self.old }
        ensures returned { count_back self.new ≡ count_back self.old }
        ensures same_out { Stays (handed_out self.old) (handed_out self.new) }
        ensures same_back { Stays (given_back self.old) (given_back self.new) };

    /// Hands out the next connection. It may wait for one.
    fn accept(&mut self) -> Result<Self::Link, Failed>
        ensures cause { HasCause (faults self.old) (faults self.new) result }
        ensures calm { OnOk result (faults self.new ≡ faults self.old) }
        ensures rising { faults self.old ≤ faults self.new }
        ensures out { count_out self.new ≡ count_after (count_out self.old) result }
        ensures returned { count_back self.new ≡ count_back self.old }
        ensures noted { HandsOut (handed_out self.old) (handed_out self.new) result }
        ensures same_back { Stays (given_back self.old) (given_back self.new) };

    /// Takes a connection back and closes it.
    fn back(&mut self, link: Self::Link)
        requires { count_back self.old < count_out self.old }
        ensures calm { faults self.new ≡ faults self.old }
        ensures out { count_out self.new ≡ count_out self.old }
        ensures returned { count_back self.new ≡ count_back self.old + 1 }
        ensures same_out { Stays (handed_out self.old) (handed_out self.new) }
        ensures noted { Gets (given_back self.old) (given_back self.new) link };
}
