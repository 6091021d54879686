//! Shared lists: what each edit gives, and that it leaves the list that it was called on.

use crate::compare::same;
use kb_base::NoMemory;
use kb_days::Name;
use kb_sharing::SharedList;
use std::alloc::Global;
use std::test::Fail;

/// How many members lists are grown to: 1,000 members lie in 62 chunks of 16, which lie in two trees of 31
/// chunks, and in a tail of 8.
const COUNT: u64 = 1_000;

/// The list of the numbers below `COUNT`.
fn numbers(alloc: Global) -> Result<SharedList<u64>, Fail> {
    let mut list = SharedList::new();
    for number in 0..COUNT {
        list = list.push(alloc, number)?;
    }
    Ok(list)
}

#[test]
fn members_come_back_in_their_order(rt: HostRuntime) -> Result<(), Fail> {
    let list = numbers(rt.alloc())?;
    for place in 0..COUNT {
        same(&rt, &list.get(place), &Some(&place), &"");
    }
    same(&rt, &(list.len(), list.get(COUNT)), &(COUNT, None), &"");
    Ok(())
}

/// What a list has at a place, and what two edits of it have: one there, and one behind its last member.
fn edits_at(
    alloc: Global,
    list: &SharedList<u64>,
    place: u64,
) -> Result<Option<(Option<u64>, Option<u64>, Option<u64>)>, NoMemory> {
    if place >= list.len() {
        return Ok(None);
    }
    let changed = list.replace(alloc, place, COUNT)?;
    let longer = list.share()?.push(alloc, place)?;
    let found = (
        list.get(place).copied(),
        changed.get(place).copied(),
        longer.get(COUNT).copied(),
    );
    Ok(Some(found))
}

#[test]
fn an_edit_leaves_the_list_that_it_was_called_on(rt: HostRuntime) -> Result<(), Fail> {
    let list = numbers(rt.alloc())?;
    for place in 0..COUNT {
        let found = edits_at(rt.alloc(), &list, place)?;
        same(
            &rt,
            &found,
            &(Some((Some(place), Some(COUNT), Some(place)))),
            &"",
        );
    }
    Ok(())
}

#[test]
fn members_may_be_names(rt: HostRuntime) -> Result<(), Fail> {
    let gold = Name::new(b"gold").ok_or("a name")?;
    let silver = Name::new(b"silver").ok_or("a name")?;
    let list = SharedList::new()
        .push(rt.alloc(), gold)?
        .push(rt.alloc(), silver)?;
    same(
        &rt,
        &(list.get(0), list.get(1)),
        &(Some(&gold), Some(&silver)),
        &"",
    );
    Ok(())
}
