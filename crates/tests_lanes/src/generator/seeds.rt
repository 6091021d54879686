//! Seeds, and the commands that they stand for.
ghost use Rattle.std.specs.Prelude.{◌≡◌, ◌≤◌, ◌<◌, ◌^◌, IfOk};
ghost use Rattle.kb_make.specs.Seeds.{commands_of};

use crate::compare::same;
use kb_base::NoMemory;
use kb_codec::{Command, encode};
use kb_days::{Day, text};
use kb_make::Generator;
use std::alloc::Global;
use std::test::Fail;

/// The date on which a command comes, and its bytes.
type Sent = (&'static str, &'static [u8]);

/// The commands of the seed 1 for one account and eight months. It draws 16838 and 5758, and for the months
/// 10113, 17515, 31051, 5627, 23010, 7419, 16212 and 4086.
static SEED_1: [Sent; 17] = [
    ("2024-01-19", b"\x03\x02m1\x02k1USD\x0b\x01"),
    (
        "2024-01-19",
        b"\x04\x02m1\x02k2\x02b1\x02s1\x05Basic\x04\x07DEFAULT\x01\x00\x00\x4d\x1d",
    ),
    ("2024-02-01", b"\x09\x02m1\x02k3\x02b1\x01\x00\x00\x4d\x27"),
    ("2024-02-01", b"\x0b\x02m1\x02k4\x01\x00\x00\x4d\x2a"),
    (
        "2024-03-01",
        b"\x05\x02m1\x02k5\x02s1\x05Basic\x04\x07DEFAULT\x01\x00\x00\x4d\x45",
    ),
    ("2024-03-01", b"\x0b\x02m1\x02k6\x01\x00\x00\x4d\x47"),
    (
        "2024-04-01",
        b"\x05\x02m1\x02k7\x02s1\x05Basic\x04\x07DEFAULT\x01\x00\x00\x4d\x64",
    ),
    ("2024-04-01", b"\x0b\x02m1\x02k8\x01\x00\x00\x4d\x66"),
    (
        "2024-05-01",
        b"\x05\x02m1\x02k9\x02s1\x05Basic\x04\x07DEFAULT\x01\x00\x00\x4d\x82",
    ),
    ("2024-05-01", b"\x0b\x02m1\x03k10\x01\x00\x00\x4d\x84"),
    (
        "2024-06-01",
        b"\x05\x02m1\x03k11\x02s1\x03Pro\x04\x07DEFAULT\x01\x00\x00\x4d\xa1",
    ),
    ("2024-06-01", b"\x0b\x02m1\x03k12\x01\x00\x00\x4d\xa3"),
    (
        "2024-07-01",
        b"\x05\x02m1\x03k13\x02s1\x05Basic\x04\x07DEFAULT\x01\x00\x00\x4d\xbf",
    ),
    ("2024-07-01", b"\x0b\x02m1\x03k14\x01\x00\x00\x4d\xc1"),
    (
        "2024-08-01",
        b"\x0c\x02m1\x03k15\x00\x00\x00\x00\x00\x00\x01\xf4",
    ),
    ("2024-08-01", b"\x0b\x02m1\x03k16\x01\x00\x00\x4d\xe0"),
    ("2024-09-01", b"\x0b\x02m1\x03k17\x01\x00\x00\x4d\xff"),
];

/// The commands of the seed 624 for two accounts and two months. It draws 21343, 16436, 22912 and 1594 for
/// one, and 26314, 11061, 4263 and 31213 for the other.
static SEED_624: [Sent; 11] = [
    ("2024-01-01", b"\x03\x02m1\x02k1USD\x08\x01"),
    (
        "2024-01-01",
        b"\x04\x02m1\x02k2\x02b1\x02s1\x05Basic\x04\x07DEFAULT\x01\x00\x00\x4d\x0b",
    ),
    ("2024-02-01", b"\x08\x02m1\x02k3\x02b1\x01\x00\x00\x4d\x27"),
    ("2024-02-01", b"\x0b\x02m1\x02k4\x01\x00\x00\x4d\x2a"),
    (
        "2024-03-01",
        b"\x05\x02m1\x02k5\x02s1\x03Pro\x04\x07DEFAULT\x01\x00\x00\x4d\x45",
    ),
    ("2024-03-01", b"\x0b\x02m1\x02k6\x01\x00\x00\x4d\x47"),
    ("2024-01-02", b"\x03\x02m2\x02k7USD\x17\x01"),
    (
        "2024-01-02",
        b"\x04\x02m2\x02k8\x02b1\x02s1\x05Basic\x04\x07DEFAULT\x01\x00\x00\x4d\x0c",
    ),
    ("2024-02-01", b"\x0b\x02m2\x02k9\x01\x00\x00\x4d\x2a"),
    (
        "2024-03-01",
        b"\x0d\x02m2\x03k10\x00\x00\x00\x00\x00\x00\x01\x2c",
    ),
    ("2024-03-01", b"\x0b\x02m2\x03k11\x01\x00\x00\x4d\x47"),
];

/// The first command of the seed 7, and the last one for 200 accounts and 24 months.
const FIRST_OF_SEED_7: Sent = ("2024-01-07", b"\x03\x02m1\x02k1USD\x15\x01");

const LAST_OF_SEED_7: Sent = ("2026-01-01", b"\x0b\x04m200\x05k8859\x01\x00\x00\x4f\xe6");

/// All commands of a seed, with their days.
fn all_of(
    alloc: Global,
    seed: u32,
    accounts: u32,
    months: u32,
) -> Result<Vec<(Day, Command)>, NoMemory>
    requires seed { seed < 2 ^ 31 }
    requires accounts { accounts ≤ 10000 }
    requires months { months ≤ 120 }
    ensures { IfOk result (λ all. all.items ≡ commands_of seed accounts months) }
{
    let mut generator = Generator::new(seed, accounts, months);
    let mut all = Vec::new(alloc);
    'sent: while let Some((today, command)) = generator.next() {
        all.push((today, command))?;
    }
    Ok(all)
}

/// Whether a command comes on its date and is spelled so.
fn is_sent(alloc: Global, sent: &(Day, Command), row: Sent) -> Result<bool, Fail> {
    let (today, command) = sent;
    let (date, bytes) = row;
    Ok(
        text(today.reach()).as_slice() == date.as_bytes()
            && encode(alloc, command)?.as_slice() == bytes,
    )
}

/// The place of the first command that isn't as its row says, if one isn't.
fn first_other(
    alloc: Global,
    all: &[(Day, Command)],
    rows: &[Sent],
) -> Result<Option<usize>, Fail> {
    for (place, (sent, row)) in all.iter().zip(rows).enumerate() {
        if !is_sent(alloc, sent, *row)? {
            return Ok(Some(place));
        }
    }
    Ok(None)
}

#[test]
fn an_account_of_eight_months(rt: HostRuntime) -> Result<(), Fail> {
    let all = all_of(rt.alloc(), 1, 1, 8)?;
    let other = first_other(rt.alloc(), &all, &SEED_1)?;
    same(&rt, &(all.len(), other), &(17, None), &"seed 1");
    Ok(())
}

#[test]
fn two_accounts_of_two_months(rt: HostRuntime) -> Result<(), Fail> {
    let all = all_of(rt.alloc(), 624, 2, 2)?;
    let other = first_other(rt.alloc(), &all, &SEED_624)?;
    same(&rt, &(all.len(), other), &(11, None), &"seed 624");
    Ok(())
}

#[test]
fn no_account(rt: HostRuntime) -> Result<(), Fail> {
    let all = all_of(rt.alloc(), 1, 0, 120)?;
    same(&rt, &all.len(), &0, &"no account");
    Ok(())
}

#[test]
fn two_hundred_accounts_of_two_years(rt: HostRuntime) -> Result<(), Fail> {
    let all = all_of(rt.alloc(), 7, 200, 24)?;
    let first = all.first().ok_or("a first command")?;
    let last = all.last().ok_or("a last command")?;
    let found = (
        all.len(),
        is_sent(rt.alloc(), first, FIRST_OF_SEED_7)?,
        is_sent(rt.alloc(), last, LAST_OF_SEED_7)?,
    );
    same(&rt, &found, &(8859, true, true), &"seed 7");
    Ok(())
}
