//! On which day a time falls.
ghost use Rattle.std.specs.Prelude.{◌≡◌};
ghost use Rattle.kb_system.specs.Times.{day_at};

use kb_days::{Day, FIRST_DAY, LAST_DAY};

/// Seconds of a day.
const SECONDS: u64 = 86_400;

/// The day on which a time falls, so many seconds from 1970-01-01 00:00:00 UTC on, or the nearest day that a
/// command may name.
pub fn day_at(seconds: u64) -> Day
    ensures { result ≡ day_at seconds }
{
    let number = (seconds / SECONDS).clamp(u64::from(FIRST_DAY), u64::from(LAST_DAY));
    Day::new(number as u32).unwrap()
}
