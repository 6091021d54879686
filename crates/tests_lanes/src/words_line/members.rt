//! The members of what is read.

use crate::compare::same;
use kb_words::Within;

#[test]
fn numbers_in_a_range(rt: HostRuntime) {
    let cases = [
        (0, None),
        (1, Some(1)),
        (64, Some(64)),
        (65, None),
        (u32::MAX, None),
    ];
    for (number, held) in cases {
        let within = Within::<1, 64>::new(number);
        same(&rt, &(within.map(|within| within.get())), &held, &number);
    }
}
