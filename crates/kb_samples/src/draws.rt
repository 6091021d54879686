//! Accounts whose steps are drawn.
ghost use Rattle.std.specs.Prelude.{◌<◌, ◌≤◌, ◌+◌};

use crate::account::Account;
use crate::fault::SampleFault;
use crate::step::Step::{Block, Cancel, Change, Create};
use crate::step::{Anchor, Step};
use kb_blocking::Scope;
use kb_catalog::Catalog;
use kb_timeline::EditFault;
use std::alloc::Global;

/// An account that was drawn.
#[derive(Drop)]
pub struct DrawnAccount {
    /// Its subscriptions and blocking states.
    pub account: Account,
    /// Its cycle day: 1 to 31.
    pub bcd: u32,
    /// Three dates that it is billed to, the last one long after the others.
    pub billed: [&'static str; 3],
}

/// The account of a number, on plans of the club's catalog: it has two subscriptions, changes and
/// cancellations, and a bundle that is paused for some days. A number stands for one account.
pub fn draw_account(
    alloc: Global,
    catalog: &Catalog,
    seed: u32,
) -> Result<DrawnAccount, SampleFault> {
    let mut draws = Draws { last: seed };
    let plans = PLANS[seed as usize % 3];
    let account = account(alloc, catalog, &mut draws, &plans)?;
    Ok(DrawnAccount {
        account,
        bcd: BCDS[draws.below(6)],
        billed: [draws.date(3, 5), draws.date(8, 6), "2025-01-12"],
    })
}

/// The first days of the months from December 2023 to January 2025, each behind the two days before it.
static DATES: [&str; 42] = [
    "2023-11-29",
    "2023-11-30",
    "2023-12-01",
    "2023-12-30",
    "2023-12-31",
    "2024-01-01",
    "2024-01-30",
    "2024-01-31",
    "2024-02-01",
    "2024-02-28",
    "2024-02-29",
    "2024-03-01",
    "2024-03-30",
    "2024-03-31",
    "2024-04-01",
    "2024-04-29",
    "2024-04-30",
    "2024-05-01",
    "2024-05-30",
    "2024-05-31",
    "2024-06-01",
    "2024-06-29",
    "2024-06-30",
    "2024-07-01",
    "2024-07-30",
    "2024-07-31",
    "2024-08-01",
    "2024-08-30",
    "2024-08-31",
    "2024-09-01",
    "2024-09-29",
    "2024-09-30",
    "2024-10-01",
    "2024-10-30",
    "2024-10-31",
    "2024-11-01",
    "2024-11-29",
    "2024-11-30",
    "2024-12-01",
    "2024-12-30",
    "2024-12-31",
    "2025-01-01",
];

/// The plans of an account's lead and of its other subscription.
#[derive(Clone, Copy)]
struct Plans {
    leads: [&'static str; 3],
    others: [&'static str; 3],
    are_add_ons: bool,
}

/// The other subscription stands for itself; the lead offers the add-on for some time; and the add-on is
/// billed by its lead's cycle day.
static PLANS: [Plans; 3] = [
    Plans {
        leads: ["Basic", "Starter", "Own"],
        others: ["Thirty", "Thirty", "Thirty"],
        are_add_ons: false,
    },
    Plans {
        leads: ["Basic", "Pro", "Basic"],
        others: ["Support", "Extra", "Support"],
        are_add_ons: true,
    },
    Plans {
        leads: ["Own", "Own", "Own"],
        others: ["Helper", "Helper", "Helper"],
        are_add_ons: true,
    },
];

static BCDS: [u32; 6] = [1, 15, 28, 29, 30, 31];

/// Numbers that are drawn alike in each run.
#[derive(Drop)]
struct Draws {
    last: u32,
}

impl Draws {
    /// A number below another.
    fn below(&mut self, count: usize) -> usize
        requires { 0 < count }
        ensures { result < count }
    {
        self.last = self
            .last
            .wrapping_mul(1_664_525)
            .wrapping_add(1_013_904_223);
        (self.last >> 16) as usize % count
    }

    /// The place of a date around the first day of one of some months.
    fn place(&mut self, first: usize, months: usize) -> usize
        requires some { 0 < months }
        requires inside { first + months ≤ 14 }
        ensures { result < 42 }
    {
        3 * (first + self.below(months)) + self.below(3)
    }

    /// A date around the first day of one of some months.
    fn date(&mut self, first: usize, months: usize) -> &'static str
        requires some { 0 < months }
        requires inside { first + months ≤ 14 }
    {
        DATES[self.place(first, months)]
    }
}

/// The step of a turn: in the first two the lead and the other subscription are created, and in the later
/// ones, of which there are at most eight, they are edited.
fn step(draws: &mut Draws, plans: &Plans, turn: usize) -> Step
    requires { turn < 10 }
{
    match turn {
        0 => {
            let plan = plans.leads[draws.below(3)];
            Create {
                plan,
                from: draws.date(0, 5),
                addon: false,
            }
        }
        1 => {
            let plan = plans.others[draws.below(3)];
            Create {
                plan,
                from: draws.date(5, 4),
                addon: plans.are_add_ons,
            }
        }
        _ => edit(draws, plans, turn),
    }
}

/// A change or a cancellation in the first four months from one on.
fn edit(draws: &mut Draws, plans: &Plans, first: usize) -> Step
    requires { first < 10 }
{
    let from = draws.date(first, 4);
    match draws.below(6) {
        0 | 1 | 2 => {
            let plan = plans.leads[draws.below(3)];
            Change {
                sub: 0,
                plan,
                from,
                anchor: Anchor::Start,
            }
        }
        3 | 4 => {
            let plan = plans.others[draws.below(3)];
            Change {
                sub: 1,
                plan,
                from,
                anchor: Anchor::Start,
            }
        }
        _ => Cancel {
            sub: draws.below(2) as u32,
            from,
        },
    }
}

/// An account of the steps that are accepted, whose bundle is paused for some days.
fn account(
    alloc: Global,
    catalog: &Catalog,
    draws: &mut Draws,
    plans: &Plans,
) -> Result<Account, SampleFault> {
    let mut account = Account::new(alloc);
    for turn in 0..10 {
        let taken = account.take(alloc, catalog, step(draws, plans, turn));
        unless_refused(taken)?;
    }
    let (one, other) = (draws.place(5, 4), draws.place(5, 4));
    account.take(alloc, catalog, pause(one.min(other), true))?;
    account.take(alloc, catalog, pause(one.max(other), false))?;
    Ok(account)
}

/// A step that comes before a start, or after a cancellation, is left out.
fn unless_refused(taken: Result<(), SampleFault>) -> Result<(), SampleFault> {
    match taken {
        Err(SampleFault::Step(EditFault::BeforeStart | EditFault::Cancelled)) => Ok(()),
        _ => taken,
    }
}

/// A state of the bundle by which it is paused, or runs on.
fn pause(place: usize, is_paused: bool) -> Step
    requires { place < 42 }
{
    Block {
        scope: Scope::Bundle(0),
        service: "entitlement-service",
        from: DATES[place],
        billing: is_paused,
        entitlement: is_paused,
    }
}
