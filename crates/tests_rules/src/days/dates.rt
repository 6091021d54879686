//! Texts of days. The rows set a text beside the number of its day.

use crate::compare::same;
use kb_days::{BadDate, Reach, parse, text};
use std::test::Fail;

#[test]
fn texts_that_are_read(rt: HostRuntime) -> Result<(), Fail> {
    let cases = [
        ("2000-01-01", 10_957),
        ("2000-02-29", 11_016),
        ("2023-02-28", 19_416),
        ("2023-12-31", 19_722),
        ("2024-02-29", 19_782),
        ("2024-03-10", 19_792),
        ("2099-12-31", 47_481),
    ];
    for (written, number) in cases {
        let day = parse(written.as_bytes())?;
        same(&rt, &day.number(), &number, &written);
        same(
            &rt,
            &text(day.reach()).as_slice(),
            &written.as_bytes(),
            &written,
        );
    }
    Ok(())
}

#[test]
fn texts_that_are_refused(rt: HostRuntime) {
    let cases = [
        "",
        "1999-12-31",
        "2100-01-01",
        "2023-02-29",
        "2024-02-30",
        "2024-04-31",
        "2024-00-10",
        "2024-13-01",
        "2024-03-00",
        "2024-03-32",
        "2024-2-1",
        "24-03-10",
        "0000-00-00",
        "9999-99-99",
        "abcd-ef-gh",
        "ten bytes!",
        "2024/03/10",
        "2024-03/10",
        "2024-03-1a",
        "2024-03- 1",
        "+024-03-10",
        "2024-03-1",
        "2024-03-10 ",
        " 2024-03-10",
        "2024-03-10T",
    ];
    for written in cases {
        same(&rt, &parse(written.as_bytes()), &Err(BadDate), &written);
    }
}

#[test]
fn texts_of_days_that_may_follow(rt: HostRuntime) -> Result<(), Fail> {
    let cases = [
        (10_000, "1997-05-19"),
        (47_540, "2100-02-28"),
        (47_541, "2100-03-01"),
        (48_242, "2102-01-31"),
        (49_000, "2104-02-28"),
    ];
    for (number, written) in cases {
        let reach = Reach::new(number).ok_or("a reach")?;
        same(&rt, &text(reach).as_slice(), &written.as_bytes(), &number);
    }
    Ok(())
}
