//! Days with one value, told one after another.
ghost use Rattle.std.specs.Prelude.{◌≡◌, ◌++◌, ◌∷◌, [], OnOk};
ghost use Rattle.kb_base.specs.Runs.{Stretch};
ghost use Rattle.kb_base.specs.Intervals.{last_two, push_run};
ghost use Rattle.kb_due.specs.CellStretches.{stretch_of};

use kb_base::NoMemory;
use kb_days::Reach;
use kb_due::{Cell, Piece};
use std::marker::Model;

/// The days from `from` up to, but not including, `to`, and the value that they have.
#[derive(Clone, Copy)]
pub(crate) struct Days<V> {
    pub(crate) from: Reach,
    pub(crate) to: Reach,
    pub(crate) value: V,
}

impl<V> Model for Days<V> {
    ghost use Rattle.kb_base.specs.Runs.{Stretch};

    ghost Value = { Stretch V };

    ghost view = { λ days. record { from = days.from; to = days.to; value = days.value } };

    ghost inverse = { λ stretch. record { from = stretch.from; to = stretch.to; value = stretch.value } };
}

/// What tells days and their value.
pub(crate) trait Stretched {
    type Value: Copy;

    ghost stretch: { Self → Stretch Self.Value };

    /// The first day.
    fn from(&self) -> Reach
        ensures { result ≡ (stretch self.now).from };

    /// The day behind the last one.
    fn to(&self) -> Reach
        ensures { result ≡ (stretch self.now).to };

    /// The value.
    fn value(&self) -> Self::Value
        ensures { result ≡ (stretch self.now).value };
}

impl<V: Copy> Stretched for Days<V> {
    type Value = V;

    ghost stretch = { λ days. days };

    fn from(&self) -> Reach {
        self.from
    }

    fn to(&self) -> Reach {
        self.to
    }

    fn value(&self) -> V {
        self.value
    }
}

impl Stretched for Piece {
    type Value = Cell;

    ghost stretch = { stretch_of };

    fn from(&self) -> Reach {
        self.from
    }

    fn to(&self) -> Reach {
        self.to
    }

    fn value(&self) -> Cell {
        self.cell
    }
}

/// Adds the days from one up to another, if they have a value: they make the last days longer where these end
/// on the first of them and have the same value.
pub(crate) fn push_run<V: Copy + PartialEq>(
    found: &mut Vec<Days<V>>,
    from: Reach,
    to: Reach,
    value: Option<V>,
) -> Result<(), NoMemory>
    ensures { OnOk result (found.new.items ≡ push_run V.eq found.old.items from to value) }
{
    let Some(value) = value else {
        return Ok(());
    };
    match found.pop() {
        None => push_days(found, Days { from, to, value }),
        Some(last) => push_behind(found, last, Days { from, to, value }),
    }
}

/// Adds two stretches of days, as one where the second goes on with the first.
fn push_behind<V: Copy + PartialEq>(
    found: &mut Vec<Days<V>>,
    last: Days<V>,
    next: Days<V>,
) -> Result<(), NoMemory>
    ensures { OnOk result (found.new.items ≡ found.old.items ++ last_two V.eq last next) }
{
    if last.to == next.from && last.value == next.value {
        push_days(
            found,
            Days {
                from: last.from,
                to: next.to,
                value: last.value,
            },
        )
    } else {
        push_days(found, last)?;
        push_days(found, next)
    }
}

/// Adds days.
fn push_days<V: Copy>(found: &mut Vec<Days<V>>, days: Days<V>) -> Result<(), NoMemory>
    ensures { OnOk result (found.new.items ≡ found.old.items ++ days ∷ []) }
{
    found.push(days)?;
    Ok(())
}
