//! Worked accounts, whose pieces and fees are held against a look at each day.

use crate::pieces::held::{Held, hold};
use kb_blocking::Scope;
use kb_samples::{Anchor, CLUB, Case, DEARER_CLUB, add_on, block, cancel, change, create};
use std::test::Fail;

const BUNDLE: Scope = Scope::Bundle(0);

const ACCOUNT: Scope = Scope::Account;

const FIRST: Scope = Scope::Subscription(0);

/// Months that end on the 31st; a trial; and changes with a cancellation behind them.
static ALONE: [Case<Held>; 3] = [
    Case {
        texts: &[CLUB],
        bcd: 31,
        steps: &[create!("Basic", "2024-01-31")],
        held: Held::Pieces(&BILLED),
    },
    Case {
        texts: &[CLUB],
        bcd: 1,
        steps: &[create!("Starter", "2024-01-15")],
        held: Held::Pieces(&BILLED),
    },
    Case {
        texts: &[CLUB],
        bcd: 1,
        steps: &[
            create!("Basic", "2024-03-01"),
            change!(0, "Basic", "2024-03-15"),
            change!(0, "Pro", "2024-03-20"),
            change!(0, "Starter", "2024-05-07"),
            cancel!(0, "2024-08-15"),
        ],
        held: Held::Pieces(&BILLED),
    },
];

const BILLED: [&str; 7] = [
    "2024-01-18",
    "2024-02-14",
    "2024-02-29",
    "2024-03-20",
    "2024-04-01",
    "2024-06-26",
    "2025-01-12",
];

#[test]
fn pieces_of_one_subscription(rt: HostRuntime) -> Result<(), Fail> {
    hold(&rt, rt.alloc(), &ALONE)
}

/// A pause from 4 to 8 March; two scopes that block days, the last of whose states is the first by day; a
/// pause and a resume dated the same day; and a resume and a pause dated the same day.
static STOPPED: [Case<Held>; 4] = [
    Case {
        texts: &[CLUB],
        bcd: 1,
        steps: &[
            create!("Thirty", "2024-03-01"),
            block!(BUNDLE, "entitlement-service", "2024-03-04", true, true),
            block!(BUNDLE, "entitlement-service", "2024-03-09", false, false),
        ],
        held: Held::Pieces(&[
            "2024-03-04",
            "2024-03-09",
            "2024-03-25",
            "2024-04-01",
            "2024-06-26",
        ]),
    },
    Case {
        texts: &[CLUB],
        bcd: 1,
        steps: &[
            create!("Basic", "2024-03-01"),
            block!(ACCOUNT, "fraud", "2024-03-10", true, false),
            block!(FIRST, "support", "2024-03-15", true, false),
            block!(ACCOUNT, "fraud", "2024-03-20", false, false),
            block!(FIRST, "support", "2024-03-28", false, false),
            block!(ACCOUNT, "fraud", "2024-03-01", true, false),
        ],
        held: Held::Pieces(&[
            "2024-03-04",
            "2024-03-09",
            "2024-03-25",
            "2024-04-01",
            "2024-06-26",
        ]),
    },
    Case {
        texts: &[CLUB],
        bcd: 1,
        steps: &[
            create!("Basic", "2024-03-01"),
            block!(BUNDLE, "entitlement-service", "2024-03-11", true, true),
            block!(BUNDLE, "entitlement-service", "2024-03-11", false, false),
        ],
        held: Held::Pieces(&["2024-03-10", "2024-03-11", "2024-04-01"]),
    },
    Case {
        texts: &[CLUB],
        bcd: 1,
        steps: &[
            create!("Basic", "2024-03-01"),
            block!(BUNDLE, "entitlement-service", "2024-03-05", true, true),
            block!(BUNDLE, "entitlement-service", "2024-03-11", false, false),
            block!(BUNDLE, "entitlement-service", "2024-03-11", true, true),
            block!(BUNDLE, "entitlement-service", "2024-04-11", false, false),
        ],
        held: Held::Pieces(&[
            "2024-03-10",
            "2024-03-11",
            "2024-04-01",
            "2024-04-11",
            "2024-05-01",
        ]),
    },
];

#[test]
fn pieces_of_paused_and_blocked_ones(rt: HostRuntime) -> Result<(), Fail> {
    hold(&rt, rt.alloc(), &STOPPED)
}

/// Add-ons whose lead's product changes, and one that is billed by its lead's cycle day.
static OFFERED: [Case<Held>; 2] = [
    Case {
        texts: &[CLUB],
        bcd: 1,
        steps: &[
            create!("Basic", "2024-03-01"),
            add_on!("Support", "2024-03-01"),
            add_on!("Extra", "2024-03-03"),
            change!(0, "Pro", "2024-03-11"),
            change!(2, "Support", "2024-03-21"),
            change!(0, "Basic", "2024-03-23"),
        ],
        held: Held::Pieces(&["2024-03-01", "2024-03-21", "2024-04-01"]),
    },
    Case {
        texts: &[CLUB],
        bcd: 1,
        steps: &[
            create!("Own", "2024-01-15"),
            add_on!("Helper", "2024-02-20"),
            cancel!(0, "2024-04-17"),
        ],
        held: Held::Pieces(&["2024-02-20", "2024-03-14", "2024-04-14", "2024-05-17"]),
    },
];

#[test]
fn pieces_of_add_ons(rt: HostRuntime) -> Result<(), Fail> {
    hold(&rt, rt.alloc(), &OFFERED)
}

/// Two versions, of which entries keep the one that they chose; and changes to plans whose phases are counted
/// anew, from the change on or from another day.
static CHOSEN: [Case<Held>; 2] = [
    Case {
        texts: &[CLUB, DEARER_CLUB],
        bcd: 15,
        steps: &[
            create!("Basic", "2024-03-01"),
            create!("Pro", "2024-04-05"),
            change!(0, "Pro", "2024-03-20"),
            change!(0, "Basic", "2024-05-11"),
        ],
        held: Held::Pieces(&[
            "2024-03-31",
            "2024-04-01",
            "2024-05-11",
            "2024-06-15",
            "2024-12-31",
        ]),
    },
    Case {
        texts: &[CLUB],
        bcd: 1,
        steps: &[
            create!("Basic", "2024-03-01"),
            change!(0, "Starter", "2024-03-20", Anchor::Change),
            change!(0, "Pro", "2024-06-10"),
            change!(0, "Starter", "2024-08-10", Anchor::Day("2024-08-01")),
        ],
        held: Held::Pieces(&[
            "2024-03-19",
            "2024-03-20",
            "2024-04-19",
            "2024-08-31",
            "2024-12-31",
        ]),
    },
];

#[test]
fn pieces_of_what_was_chosen(rt: HostRuntime) -> Result<(), Fail> {
    hold(&rt, rt.alloc(), &CHOSEN)
}

static ENDING: [Case<Held>; 1] = [Case {
    texts: &[CLUB],
    bcd: 1,
    steps: &[create!("Basic", "2024-03-01")],
    held: Held::Ends,
}];

#[test]
fn the_end_of_the_last_piece(rt: HostRuntime) -> Result<(), Fail> {
    hold(&rt, rt.alloc(), &ENDING)
}
