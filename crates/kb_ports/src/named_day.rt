//! The day that is named, or today.
ghost use Rattle.kb_ports.specs.NamedDays.{IsDayOf};

use crate::clock::Clock;
use kb_days::Day;

/// The day that is named, or, if none is, today by a clock.
pub fn day_or_today<C: Clock>(clock: &C, named: Option<Day>) -> Day
    ensures { IsDayOf C.day clock.now named result }
{
    match named {
        Some(day) => day,
        None => clock.today(),
    }
}
