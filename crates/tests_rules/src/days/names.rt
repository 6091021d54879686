//! Names: which texts are taken, their order, and names as keys.

use crate::compare::same;
use kb_days::Name;
use std::collections::{BTreeMap, HashMap};
use std::test::Fail;

#[test]
fn names_that_are_taken(rt: HostRuntime) -> Result<(), Fail> {
    let cases = [
        "a",
        "Z",
        "0",
        ".",
        "_",
        "-",
        "gold-monthly",
        "Plan_9.v2",
        "a234567890123456789012345678901234567890123456789012345678901234",
    ];
    for written in cases {
        let name = Name::new(written.as_bytes()).ok_or("a name")?;
        same(&rt, &name.as_bytes(), &written.as_bytes(), &written);
        same(&rt, &name.as_str(), &written, &written);
    }
    Ok(())
}

#[test]
fn names_that_are_refused(rt: HostRuntime) {
    let cases = [
        "",
        " ",
        "gold monthly",
        "gold/monthly",
        "gold:",
        "gold@",
        "gold[",
        "gold`",
        "gold{",
        "a\0",
        "a\n",
        "caf\u{e9}",
        "a2345678901234567890123456789012345678901234567890123456789012345",
    ];
    for written in cases {
        same(
            &rt,
            &Name::new(written.as_bytes()).is_none(),
            &true,
            &written,
        );
    }
}

#[test]
fn order_of_names(rt: HostRuntime) -> Result<(), Fail> {
    // A name comes before each longer one that it begins.
    let cases = [
        "-", ".", "0", "10", "9", "A", "B", "_", "a", "a-", "aa", "b",
    ];
    for later in 1..cases.len() {
        let first = Name::new(cases[later - 1].as_bytes()).ok_or("a name")?;
        let second = Name::new(cases[later].as_bytes()).ok_or("a name")?;
        same(&rt, &(first < second), &true, &(first, second));
        same(&rt, &(first != second), &true, &(first, second));
    }
    Ok(())
}

#[test]
fn names_as_texts_and_keys(rt: HostRuntime) -> Result<(), Fail> {
    let alloc = rt.alloc();
    let gold = Name::new(b"gold").ok_or("a name")?;
    same(&rt, &(gold.to_string(alloc)?.as_str()), &"gold", &"");
    same(
        &rt,
        &(format!(in alloc; "{gold:?}")?.as_str()),
        &("\"gold\""),
        &"",
    );

    let other = Name::new(b"gol").ok_or("a name")?;
    let mut ordered = BTreeMap::new(alloc);
    ordered.insert(gold, 1)?;
    same(&rt, &ordered.get(&gold).copied(), &Some(1), &"");
    assert!(rt; ordered.get(&other).is_none());

    let mut hashed = HashMap::new(alloc);
    hashed.insert(gold, 1)?;
    same(&rt, &hashed.get(&gold).copied(), &Some(1), &"");
    assert!(rt; hashed.get(&other).is_none());
    Ok(())
}
