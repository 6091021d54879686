//! A clock that stands still.
ghost use Rattle.std.specs.Prelude.{◌≡◌, Some};

use crate::clock::Clock;
use kb_days::Day;
use std::marker::Model;

/// A clock on which it is always the same day, seen as that day.
#[derive(Drop)]
pub struct FixedClock {
    day: Day,
}

impl Model for FixedClock {
    ghost use Rattle.std.specs.Prelude.{ℕ};

    ghost Value = { ℕ };

    ghost view = { λ clock. clock.day };
}

impl FixedClock {
    /// A clock on which it is always this day.
    pub fn new(day: Day) -> FixedClock
        ensures { result ≡ day }
    {
        FixedClock { day }
    }
}

impl Clock for FixedClock {
    ghost day = { λ clock. Some clock };

    fn today(&self) -> Day
        ensures { result ≡ self.now }
    {
        self.day
    }
}
