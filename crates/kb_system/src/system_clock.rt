//! The clock of the system.
ghost use Rattle.std.specs.Prelude.{None};

use crate::day_of_time::day_at;
use kb_days::Day;
use kb_ports::Clock;
use std::time::{SystemTime, UNIX_EPOCH};
use std::{io, time};

/// The system's clock. Its day changes at midnight UTC. It tells nothing of the days that it gives.
#[derive(Drop)]
pub struct SystemClock<'a, R: time::Clock + Sync> {
    system: &'a R,
}

impl<'a, R: time::Clock + Sync> SystemClock<'a, R> {
    /// The clock of this system.
    pub fn new(system: &'a R) -> SystemClock<'a, R> {
        SystemClock { system }
    }
}

impl<R: time::Clock + Sync> Clock for SystemClock<'_, R> {
    ghost day = { λ _. None };

    /// Today's day, or the nearest that a command may name; the first one where the system tells no time.
    fn today(&self) -> Day {
        day_at(seconds_since_1970(self.system).unwrap_or(0))
    }
}

/// How many whole seconds have passed since 1970 began.
fn seconds_since_1970(system: &impl time::Clock) -> io::Result<u64> {
    let now = SystemTime::now(system)?;
    match now.duration_since(UNIX_EPOCH) {
        Ok(since) => Ok(since.as_secs()),
        Err(_) => Ok(0),
    }
}
