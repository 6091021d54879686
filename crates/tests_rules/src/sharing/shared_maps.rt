//! Shared maps: what each change gives, in which order entries stand, and that the map is left as it was.
ghost use Rattle.std.specs.Prelude.{◌≡◌, Some, IfOk};

use crate::compare::same;
use kb_base::NoMemory;
use kb_days::Name;
use kb_sharing::SharedMap;
use std::alloc::Global;
use std::test::Fail;

/// What is found at a name once a value is kept there: the laws of std's maps say it of the two calls.
fn kept_and_found(
    alloc: Global,
    map: &SharedMap<Name, u64>,
    name: Name,
    value: u64,
) -> Result<Option<u64>, NoMemory>
    ensures { IfOk result (λ found. found ≡ Some value) }
{
    let kept = map.with(alloc, name, value)?;
    let found = kept.get(&name).copied();
    Ok(found)
}

/// A map of the numbers below 1,000, each with its square, which came in out of their order.
fn squares(alloc: Global) -> Result<SharedMap<u32, u32>, Fail> {
    let mut map = SharedMap::new();
    for count in 0..1_000u32 {
        let number = (count * 377) % 1_000;
        map = map.with(alloc, number, number * number)?;
    }
    Ok(map)
}

#[test]
fn each_key_has_its_value(rt: HostRuntime) -> Result<(), Fail> {
    let map = squares(rt.alloc())?;
    for number in 0..1_000u32 {
        same(&rt, &map.get(&number), &(Some(&(number * number))), &"");
    }
    same(&rt, &(map.len(), map.get(&1_000)), &(1_000, None), &"");
    Ok(())
}

#[test]
fn entries_stand_in_the_order_of_their_keys(rt: HostRuntime) -> Result<(), Fail> {
    let map = squares(rt.alloc())?;
    let entries = map.entries(rt.alloc())?;
    let mut next = map.first();
    for (number, (key, value)) in (0..1_000u32).zip(entries.as_slice()) {
        same(
            &rt,
            &(next, **key, map.get(&number)),
            &(Some((*key, *value)), number, Some(*value)),
            &"",
        );
        next = map.after(key);
    }
    same(&rt, &(entries.len(), next), &(1_000, None), &"");
    Ok(())
}

#[test]
fn a_change_leaves_the_map_that_it_was_called_on(rt: HostRuntime) -> Result<(), Fail> {
    let map = squares(rt.alloc())?;
    for number in 0..1_000u32 {
        let changed = map.with(rt.alloc(), number, 7)?;
        let longer = map.share()?.with(rt.alloc(), number + 1_000, 7)?;
        let lens = (map.len(), changed.len(), longer.len());
        same(&rt, &lens, &(1_000, 1_000, 1_001), &"");
        let found = (
            map.get(&number),
            changed.get(&number),
            longer.get(&(number + 1_000)),
        );
        same(
            &rt,
            &found,
            &(Some(&(number * number)), Some(&7), Some(&7)),
            &"",
        );
    }
    Ok(())
}

#[test]
fn names_are_keys(rt: HostRuntime) -> Result<(), Fail> {
    let silver = Name::new(b"silver").ok_or("a name")?;
    let gold = Name::new(b"gold").ok_or("a name")?;
    let map = SharedMap::new().with(rt.alloc(), silver, 5u64)?;
    same(
        &rt,
        &(kept_and_found(rt.alloc(), &map, gold, 6)?),
        &Some(6),
        &"",
    );
    same(
        &rt,
        &(map.first(), map.after(&gold), map.after(&silver)),
        &(Some((&silver, &5)), Some((&silver, &5)), None),
        &"",
    );
    Ok(())
}
