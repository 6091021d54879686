//! The calls of an object in memory, of which some are to fail.
ghost use Rattle.std.specs.Prelude.{◌≡◌, ◌≤◌, ◌↔◌, IsErr, IsTrue, OnErr, OnOk};
ghost use Rattle.kb_base.specs.Faults.{next_count};
ghost use Rattle.kb_ports.specs.Memory.{fails_next};

use kb_base::{Failed, FaultCount};

/// Counts the calls of an object in memory and its faults. Each count stands still at its last value.
#[derive(Debug, Drop)]
pub struct Calls {
    /// The numbers of the calls that are to fail, counted from 1.
    pub failing: Vec<u64>,
    /// How many calls were made, failed ones too.
    pub made: u64,
    pub faults: FaultCount,
}

impl Calls {
    /// No call yet, and those of these numbers, counted from 1, are to fail.
    pub fn new(failing: Vec<u64>) -> Calls
        ensures { result ≡ record { failing = failing; made = 0; faults = 0 } }
    {
        Calls {
            failing,
            made: 0,
            faults: FaultCount::new(),
        }
    }

    /// Counts one more call, which fails if its number is among the failing ones.
    pub fn begin(&mut self) -> Result<(), Failed>
        ensures fails { IsErr result ↔ IsTrue (fails_next self.old.failing.items self.old.made) }
        ensures ok { OnOk result (self.new ≡ record self.old {
          made = next_count self.old.made;
        }) }
        ensures err { OnErr result (self.new ≡ record self.old {
          made = next_count self.old.made;
          faults = next_count self.old.faults;
        }) }
        ensures rising { self.old.faults ≤ self.new.faults }
    {
        self.made = self.made.saturating_add(1);
        if self.failing.contains(&self.made) {
            return Err(self.fault());
        }
        Ok(())
    }

    /// Counts a fault.
    pub fn fault(&mut self) -> Failed
        ensures counted { self.new ≡ record self.old { faults = next_count self.old.faults } }
        ensures rising { self.old.faults ≤ self.new.faults }
    {
        self.faults.fail()
    }
}
