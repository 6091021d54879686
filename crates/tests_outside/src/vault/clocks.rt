//! Clocks: the day that they give.

use crate::compare::same;
use kb_days::Day;
use kb_ports::{Clock, FixedClock};
use kb_system::SystemClock;
use std::io::ErrorKind;
use std::test::Fail;
use std::time::Duration;
use std::{io, time};

/// A system whose clock stands at so many seconds since 1970, or tells no time.
#[derive(Drop)]
struct Standing {
    seconds: Option<u64>,
}

impl time::Clock for Standing {
    fn monotonic(&self) -> io::Result<Duration> {
        Ok(Duration::ZERO)
    }

    fn since_1970(&self) -> io::Result<Duration> {
        match self.seconds {
            Some(seconds) => Ok(Duration::from_secs(seconds)),
            None => Err(ErrorKind::Unsupported.into()),
        }
    }
}

/// The number of a clock's day.
fn number_of(clock: &impl Clock) -> u32 {
    clock.today().number()
}

/// Seconds since 1970, and the day: 2024-03-01 from its first to its last second, 1999-12-31, 2100-01-01, a
/// time past the clock's end, and no time.
const DAYS: [(Option<u64>, u32); 6] = [
    (Some(1_709_251_200), 19_783),
    (Some(1_709_337_599), 19_783),
    (Some(946_684_799), 10_957),
    (Some(4_102_444_800), 47_481),
    (Some(u64::MAX), 10_957),
    (None, 10_957),
];

#[test]
fn days_of_a_system(rt: HostRuntime) {
    for (seconds, day) in DAYS {
        let system = Standing { seconds };
        same(&rt, &number_of(&SystemClock::new(&system)), &day, &"");
    }
}

#[test]
fn a_day_of_this_system(rt: HostRuntime) {
    assert!(rt; (20_000..47_481).contains(&number_of(&SystemClock::new(&rt))));
}

#[test]
fn a_fixed_day(rt: HostRuntime) -> Result<(), Fail> {
    let day = Day::new(19_783).ok_or("a day")?;
    same(&rt, &number_of(&FixedClock::new(day)), &19_783, &"");
    Ok(())
}
