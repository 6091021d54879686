//! How high the trees of shared maps become.

use crate::compare::same;
use kb_sharing::SharedMap;
use std::alloc::Global;
use std::test::Fail;

/// How many keys come in.
const COUNT: u32 = 1_000;

/// A prime: the first `COUNT` multiples of a number below it are different from each other modulo it.
const PRIME: u32 = 1_009;

/// The map into which so many keys came, each by this step behind the one before.
fn stepped(alloc: Global, step: u32) -> Result<SharedMap<u32, u32>, Fail> {
    let mut map = SharedMap::new();
    for count in 1..=COUNT {
        map = map.with(alloc, count.wrapping_mul(step) % PRIME, count)?;
    }
    Ok(map)
}

#[test]
fn a_thousand_keys_make_a_low_tree(rt: HostRuntime) -> Result<(), Fail> {
    // Keys rise by 1, fall by 1, and jump.
    for step in [1, PRIME - 1, 377, 500, 808] {
        let map = stepped(rt.alloc(), step)?;
        same(&rt, &(map.height() <= 14, map.len()), &(true, 1_000), &step);
    }
    Ok(())
}

#[test]
fn an_entry_alone_is_one_high(rt: HostRuntime) -> Result<(), Fail> {
    let none: SharedMap<u32, u32> = SharedMap::new();
    let one = none.with(rt.alloc(), 7, 70)?;
    let two = one.with(rt.alloc(), 8, 80)?;
    let heights = (none.height(), one.height(), two.height());
    same(&rt, &heights, &(0, 1, 2), &"");
    Ok(())
}
