//! The kinds of commands that a seed stands for.
ghost use Rattle.std.specs.Prelude.{◌≡◌, ◌≤◌, ◌-◌, true, IfSome, option_map, slice_get};
ghost use Rattle.kb_make.specs.SeedCommands.{opening, creation, pause, resumption, change};
ghost use Rattle.kb_make.specs.SeedCommands.{charge, credit, bill, choices, is_seeded};
ghost use Rattle.kb_codec.specs.Commands.{IsAmount};

use crate::days::days_before;
use crate::names::{account_name, named};
use kb_codec::{
    Action, Amount, Bill, Change, Charge, Command, Create, Credit, OpenAccount, Pause, Resume,
};
use kb_days::{Bcd, Day, Name, Period};
use kb_money::Currency;

/// Opens an account, by its first draw.
pub(crate) fn opening(account: u32, key: Name, first: u32) -> Command
    ensures { result ≡ opening account first key }
{
    Command::Act {
        account: account_name(account),
        key,
        action: Action::OpenAccount(OpenAccount {
            currency: Currency::new(b"USD").unwrap(),
            bcd: Bcd::new(first % 28 + 1).unwrap(),
            autopay: true,
        }),
    }
}

/// Begins the account's subscription on a day.
pub(crate) fn creation(account: u32, key: Name, day: Day) -> Command
    ensures { result ≡ creation account day key }
{
    Command::Act {
        account: account_name(account),
        key,
        action: Action::Create(Create {
            bundle: named(b"b1"),
            subscription: named(b"s1"),
            product: named(b"Basic"),
            period: Period::Monthly,
            list: named(b"DEFAULT"),
            day: Some(day),
        }),
    }
}

/// What a month's draw chooses by its number; none from 6 on. The day is the first of the month.
pub(crate) fn choice(number: u32, account: u32, key: Name, day: Day) -> Option<Command>
    requires { 19723 ≤ day }
    ensures chosen { result
        ≡ option_map (λ command. command key) (slice_get (choices account day) number) }
    ensures kind { IfSome result (λ command. is_seeded command ≡ true) }
{
    match number {
        0 => Some(pause(account, key, days_before(day, 3))),
        1 => Some(resumption(account, key, days_before(day, 3))),
        2 => Some(change(account, key, named(b"Pro"), days_before(day, 2))),
        3 => Some(change(account, key, named(b"Basic"), days_before(day, 2))),
        4 => Some(charge(account, key, 500)),
        5 => Some(credit(account, key, 300)),
        _ => None,
    }
}

/// Pauses the account's bundle on a day.
fn pause(account: u32, key: Name, day: Day) -> Command
    ensures { result ≡ pause account day key }
{
    Command::Act {
        account: account_name(account),
        key,
        action: Action::Pause(Pause {
            bundle: named(b"b1"),
            day: Some(day),
        }),
    }
}

/// Resumes the account's bundle on a day.
fn resumption(account: u32, key: Name, day: Day) -> Command
    ensures { result ≡ resumption account day key }
{
    Command::Act {
        account: account_name(account),
        key,
        action: Action::Resume(Resume {
            bundle: named(b"b1"),
            day: Some(day),
        }),
    }
}

/// Changes the account's subscription to a product on a day.
fn change(account: u32, key: Name, product: Name, day: Day) -> Command
    ensures { result ≡ change account product day key }
{
    Command::Act {
        account: account_name(account),
        key,
        action: Action::Change(Change {
            subscription: named(b"s1"),
            product,
            period: Period::Monthly,
            list: named(b"DEFAULT"),
            day: Some(day),
        }),
    }
}

/// Charges an amount.
fn charge(account: u32, key: Name, amount: u64) -> Command
    requires { IsAmount amount }
    ensures { result ≡ charge account amount key }
{
    Command::Act {
        account: account_name(account),
        key,
        action: Action::Charge(Charge {
            amount: Amount::new(amount).unwrap(),
        }),
    }
}

/// Credits an amount.
fn credit(account: u32, key: Name, amount: u64) -> Command
    requires { IsAmount amount }
    ensures { result ≡ credit account amount key }
{
    Command::Act {
        account: account_name(account),
        key,
        action: Action::Credit(Credit {
            amount: Amount::new(amount).unwrap(),
        }),
    }
}

/// Bills the account up to a day.
pub(crate) fn bill(account: u32, key: Name, day: Day) -> Command
    ensures { result ≡ bill account day key }
{
    Command::Act {
        account: account_name(account),
        key,
        action: Action::Bill(Bill { day: Some(day) }),
    }
}
