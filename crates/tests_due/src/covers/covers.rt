//! Covers, from one list of pieces to the next.
ghost use Rattle.std.specs.Prelude.{◌≡◌, ◌+◌, ◌<◌, IfOk, length};
ghost use Rattle.kb_tree.specs.Covers.{IsAbove};

use crate::compare::same;
use crate::covers::sound_pieces::are_sound;
use kb_days::{END_OF_DAYS, FIRST_DAY, Reach, parse};
use kb_due::{Cell, Piece};
use kb_money::Minor;
use kb_timeline::PlanRef;
use kb_tree::{Cover, ItemNo, NewItem, Steps};
use std::alloc::Global;
use std::marker::Brand;
use std::process::Abort;
use std::sync::ledger::{Blank, Ledger};
use std::test::Fail;

/// A piece: its days, the place of its plan, the days of its cell's period, and the price of that.
type PieceRow = (
    &'static str,
    &'static str,
    u32,
    &'static str,
    &'static str,
    u64,
);

/// A new item: what it is, the item repaired or the price of the cell billed, and its days.
type ItemRow = (Kind, u64, &'static str, &'static str);

#[derive(Clone, Copy, Debug, PartialEq)]
enum Kind {
    Bill,
    Repair,
}

/// What is due, and which new items make the cover right.
type Turn = (&'static [PieceRow], &'static [ItemRow]);

const MARCH: PieceRow = (
    "2024-03-01",
    "2024-04-01",
    0,
    "2024-03-01",
    "2024-04-01",
    1000,
);

const THIRTY_DAYS: PieceRow = (
    "2024-04-01",
    "2024-05-01",
    0,
    "2024-04-01",
    "2024-05-01",
    3000,
);

/// A name, and what is due in turn.
static ROWS: [(&str, &[Turn]); 7] = [
    (
        "a cancellation, and its reversal",
        &[
            (
                &[(
                    "2024-03-10",
                    "2024-04-01",
                    0,
                    "2024-03-01",
                    "2024-04-01",
                    1000,
                )],
                &[(Kind::Bill, 1000, "2024-03-10", "2024-04-01")],
            ),
            (
                &[(
                    "2024-03-10",
                    "2024-03-20",
                    0,
                    "2024-03-01",
                    "2024-04-01",
                    1000,
                )],
                &[(Kind::Repair, 1, "2024-03-20", "2024-04-01")],
            ),
            (
                &[(
                    "2024-03-10",
                    "2024-04-01",
                    0,
                    "2024-03-01",
                    "2024-04-01",
                    1000,
                )],
                &[(Kind::Bill, 1000, "2024-03-20", "2024-04-01")],
            ),
            (
                &[],
                &[
                    (Kind::Repair, 1, "2024-03-10", "2024-03-20"),
                    (Kind::Repair, 3, "2024-03-20", "2024-04-01"),
                ],
            ),
        ],
    ),
    (
        "another plan at the same price",
        &[
            (&[MARCH], &[(Kind::Bill, 1000, "2024-03-01", "2024-04-01")]),
            (
                &[
                    (
                        "2024-03-01",
                        "2024-03-11",
                        0,
                        "2024-03-01",
                        "2024-04-01",
                        1000,
                    ),
                    (
                        "2024-03-11",
                        "2024-04-01",
                        1,
                        "2024-03-01",
                        "2024-04-01",
                        1000,
                    ),
                ],
                &[
                    (Kind::Repair, 1, "2024-03-11", "2024-04-01"),
                    (Kind::Bill, 1000, "2024-03-11", "2024-04-01"),
                ],
            ),
        ],
    ),
    (
        "a pause of five days, its end, and a cancellation",
        &[
            (
                &[THIRTY_DAYS],
                &[(Kind::Bill, 3000, "2024-04-01", "2024-05-01")],
            ),
            (
                &[
                    (
                        "2024-04-01",
                        "2024-04-11",
                        0,
                        "2024-04-01",
                        "2024-05-01",
                        3000,
                    ),
                    (
                        "2024-04-16",
                        "2024-05-01",
                        0,
                        "2024-04-01",
                        "2024-05-01",
                        3000,
                    ),
                ],
                &[(Kind::Repair, 1, "2024-04-11", "2024-04-16")],
            ),
            (
                &[THIRTY_DAYS],
                &[(Kind::Bill, 3000, "2024-04-11", "2024-04-16")],
            ),
            (
                &[],
                &[
                    (Kind::Repair, 1, "2024-04-01", "2024-04-11"),
                    (Kind::Repair, 3, "2024-04-11", "2024-04-16"),
                    (Kind::Repair, 1, "2024-04-16", "2024-05-01"),
                ],
            ),
            (&[], &[]),
        ],
    ),
    (
        "periods that begin on the last of a month",
        &[
            (
                &[
                    (
                        "2024-01-31",
                        "2024-02-29",
                        0,
                        "2024-01-31",
                        "2024-02-29",
                        1000,
                    ),
                    (
                        "2024-02-29",
                        "2024-03-31",
                        0,
                        "2024-02-29",
                        "2024-03-31",
                        1000,
                    ),
                ],
                &[
                    (Kind::Bill, 1000, "2024-01-31", "2024-02-29"),
                    (Kind::Bill, 1000, "2024-02-29", "2024-03-31"),
                ],
            ),
            (
                &[
                    (
                        "2024-01-31",
                        "2024-02-29",
                        0,
                        "2024-01-31",
                        "2024-02-29",
                        1000,
                    ),
                    (
                        "2024-02-29",
                        "2024-03-31",
                        0,
                        "2024-02-29",
                        "2024-03-31",
                        1000,
                    ),
                ],
                &[],
            ),
        ],
    ),
    (
        "a fee of one day",
        &[
            (
                &[(
                    "2024-03-05",
                    "2024-03-06",
                    0,
                    "2024-03-05",
                    "2024-03-06",
                    500,
                )],
                &[(Kind::Bill, 500, "2024-03-05", "2024-03-06")],
            ),
            (
                &[(
                    "2024-03-06",
                    "2024-03-07",
                    0,
                    "2024-03-06",
                    "2024-03-07",
                    500,
                )],
                &[
                    (Kind::Repair, 1, "2024-03-05", "2024-03-06"),
                    (Kind::Bill, 500, "2024-03-06", "2024-03-07"),
                ],
            ),
        ],
    ),
    (
        "a fee of nothing is an item",
        &[
            (
                &[("2024-03-05", "2024-03-06", 0, "2024-03-05", "2024-03-06", 0)],
                &[(Kind::Bill, 0, "2024-03-05", "2024-03-06")],
            ),
            (&[], &[(Kind::Repair, 1, "2024-03-05", "2024-03-06")]),
        ],
    ),
    (
        "the first and the last day that may be charged",
        &[(
            &[
                (
                    "2000-01-01",
                    "2000-01-02",
                    0,
                    "2000-01-01",
                    "2000-02-01",
                    31,
                ),
                (
                    "2099-12-30",
                    "2099-12-31",
                    0,
                    "2099-12-01",
                    "2099-12-31",
                    30,
                ),
            ],
            &[
                (Kind::Bill, 31, "2000-01-01", "2000-01-02"),
                (Kind::Bill, 30, "2099-12-30", "2099-12-31"),
            ],
        )],
    ),
];

#[test]
fn covers_made_right_in_turn(rt: HostRuntime) -> Result<(), Fail> {
    holds_all::<Brand>(&rt, rt.alloc(), Blank::new(1))
}

/// Holds all rows, and counts steps in a ledger.
fn holds_all<L: Ledger>(rt: &impl Abort, alloc: Global, blank: Blank) -> Result<(), Fail>
    requires name { blank.name ≡ L.name }
    requires parts { blank.parts ≡ L.parts }
    requires some { 0 < blank.parts }
{
    let mut steps = Steps::<L>::new(blank);
    for row in &ROWS {
        let (name, turns) = *row;
        holds(rt, alloc, name, turns, &mut steps)?;
    }
    Ok(())
}

/// Holds the new items of each turn against the row's, and the charges of the days of 2024 against a look at
/// all items.
fn holds<L: Ledger>(
    rt: &impl Abort,
    alloc: Global,
    name: &str,
    turns: &'static [Turn],
    steps: &mut Steps<L>,
) -> Result<(), Fail> {
    let mut cover = Cover::new(alloc);
    let mut items = Vec::new(alloc);
    let mut next = 1;
    for turn in turns {
        let (pieces, wanted) = *turn;
        let (made, added) = made_right(rt, alloc, &cover, pieces, next, steps)?;
        same(rt, &wrong_place(&added, wanted)?, &None, &name);
        cover = made;
        next = with_items(rt, &mut items, &added, next)?;
        same(rt, &wrong_day(&cover, &items)?, &None, &name);
    }
    Ok(())
}

/// The cover made right by the pieces of a row.
fn made_right<L: Ledger>(
    rt: &impl Abort,
    alloc: Global,
    cover: &Cover,
    rows: &[PieceRow],
    first: ItemNo,
    steps: &mut Steps<L>,
) -> Result<(Cover, Vec<NewItem>), Fail>
    requires above { IsAbove first cover.now }
    ensures above { IfOk result (λ made. IsAbove (first + length made.1.items) made.0) }
{
    let pieces = pieces_of(alloc, rows)?;
    assert!(rt; are_sound(&pieces));
    assert!(rt; first <= 1_000_000);
    Ok(cover.reconcile(alloc, &pieces, first, steps)?)
}

/// The pieces of rows.
fn pieces_of(alloc: Global, rows: &[PieceRow]) -> Result<Vec<Piece>, Fail> {
    let mut pieces = Vec::new(alloc);
    for row in rows {
        pieces.push(piece_of(row)?)?;
    }
    Ok(pieces)
}

fn piece_of(row: &PieceRow) -> Result<Piece, Fail> {
    Ok(Piece {
        from: reach(row.0)?,
        to: reach(row.1)?,
        cell: cell_of(row)?,
    })
}

fn cell_of(row: &PieceRow) -> Result<Cell, Fail> {
    let (_, _, plan, start, end, price) = *row;
    Ok(Cell {
        plan: PlanRef {
            version: 0,
            list: 0,
            plan,
        },
        phase: 0,
        start: reach(start)?,
        end: reach(end)?,
        price: Minor::new(price).ok_or("a price")?,
    })
}

/// The day of a date.
fn reach(date: &str) -> Result<Reach, Fail> {
    Ok(parse(date.as_bytes())?.reach())
}

/// The place of the first new item that isn't as a row says; none if there is none.
fn wrong_place(added: &[NewItem], wanted: &[ItemRow]) -> Result<Option<usize>, Fail> {
    for (place, item) in added.iter().enumerate() {
        let Some(row) = wanted.get(place) else {
            return Ok(Some(place));
        };
        let (kind, number, from, to) = *row;
        if told(item) != (kind, number, reach(from)?, reach(to)?) {
            return Ok(Some(place));
        }
    }
    if added.len() == wanted.len() {
        Ok(None)
    } else {
        Ok(Some(added.len()))
    }
}

/// A new item, as rows tell it.
fn told(item: &NewItem) -> (Kind, u64, Reach, Reach) {
    match *item {
        NewItem::Bill { from, to, cell } => (Kind::Bill, cell.price.units(), from, to),
        NewItem::Repair { of, from, to } => (Kind::Repair, of, from, to),
    }
}

/// Adds new items behind the others, with the numbers from one on. The result is the number of the next one.
fn with_items(
    rt: &impl Abort,
    items: &mut Vec<(ItemNo, NewItem)>,
    added: &[NewItem],
    first: ItemNo,
) -> Result<ItemNo, Fail>
    ensures { IfOk result (λ next. next ≡ first + length added.now) }
{
    let mut next = first;
    for item in added {
        assert!(rt; next <= 1_000_000);
        items.push((next, *item))?;
        next += 1;
    }
    Ok(next)
}

/// The first day that isn't charged as the items charge it, or on which the cover knows another cell for the
/// charge; none if there is none.
fn wrong_day(cover: &Cover, items: &[(ItemNo, NewItem)]) -> Result<Option<u32>, Fail> {
    for number in FIRST_DAY..END_OF_DAYS {
        let day = Reach::new(number).ok_or("a day")?;
        if told_charge(cover, day) != charge_by(items, day) {
            return Ok(Some(number));
        }
    }
    Ok(None)
}

/// What a cover says of a day: the number of its charge, and the cell of that.
fn told_charge(cover: &Cover, day: Reach) -> Option<(ItemNo, Option<Cell>)> {
    match cover.live(day) {
        None => None,
        Some(number) => Some((number, cover.cell(number))),
    }
}

/// What items say of it: the last bill that has the day and isn't repaired on it.
fn charge_by(items: &[(ItemNo, NewItem)], day: Reach) -> Option<(ItemNo, Option<Cell>)> {
    let mut charge = None;
    for item in items {
        if let (number, NewItem::Bill { from, to, cell }) = *item {
            if from <= day && day < to && !is_repaired(items, number, day) {
                charge = Some((number, Some(cell)));
            }
        }
    }
    charge
}

/// Whether an item repairs another one on a day.
fn is_repaired(items: &[(ItemNo, NewItem)], number: ItemNo, day: Reach) -> bool {
    for item in items {
        if let (_, NewItem::Repair { of, from, to }) = *item {
            if of == number && from <= day && day < to {
                return true;
            }
        }
    }
    false
}
