//! Walks along stretches in the order of their days.
ghost use Rattle.std.specs.Prelude.{◌≡◌, ◌<◌, ◌≤◌, ℕ, map, option_to_list};
ghost use Rattle.kb_base.specs.Runs.{values_on};
ghost use Rattle.kb_days.specs.Calendar.{first_day, end_of_days};
ghost use Rattle.kb_tree.specs.Covers.{AreInOrder};
ghost use Rattle.kb_tree.specs.Private.Rests.{AreAhead, AreNear};

use crate::days::Stretched;
use kb_days::{END_OF_DAYS, FIRST_DAY, Reach};

/// The first day that may be charged.
pub(crate) fn first_charged() -> Reach
    ensures { result ≡ first_day }
{
    Reach::new(FIRST_DAY).unwrap()
}

/// The day behind the last one that may be charged.
pub(crate) fn end_of_days() -> Reach
    ensures { result ≡ end_of_days }
{
    Reach::new(END_OF_DAYS).unwrap()
}

/// The value of a day, if it has one: of the stretches that are left, the first ends behind it.
pub(crate) fn value_at<S: Stretched>(rest: &[S], day: Reach) -> Option<S::Value>
    requires ahead { AreAhead day end_of_days (map S.stretch rest.now) }
    ensures { option_to_list result ≡ values_on day (map S.stretch rest.now) }
{
    let (first, _) = rest.split_first()?;
    if first.from() <= day {
        Some(first.value())
    } else {
        None
    }
}

/// The day up to which all days from one on have its value.
pub(crate) fn next_change<S: Stretched>(rest: &[S], day: Reach) -> Reach
    requires ahead { AreAhead day end_of_days (map S.stretch rest.now) }
    requires told { day < end_of_days }
    ensures later { day < result }
    ensures within { result ≤ end_of_days }
    ensures steady { (d : ℕ) → day ≤ d → d < result → values_on d (map S.stretch rest.now) ≡ values_on day
        (map S.stretch rest.now) }
    ensures near { AreNear result end_of_days (map S.stretch rest.now) }
{
    let Some((first, _)) = rest.split_first() else {
        return end_of_days();
    };
    if day < first.from() {
        first.from()
    } else {
        first.to()
    }
}

/// The earlier of two days.
pub(crate) fn earlier(day: Reach, other: Reach) -> Reach
    ensures first { result ≤ day }
    ensures second { result ≤ other }
    ensures greatest { (before : ℕ) → before < day → before < other → before < result }
{
    if day < other { day } else { other }
}

/// What is left of stretches behind a day.
pub(crate) fn passed<S: Stretched>(rest: &[S], day: Reach) -> &[S]
    requires near { AreNear day end_of_days (map S.stretch rest.now) }
    ensures ahead { AreAhead day end_of_days (map S.stretch result.now) }
    ensures same { (d : ℕ) → day ≤ d → values_on d (map S.stretch result.now) ≡ values_on d
        (map S.stretch rest.now) }
{
    match rest.split_first() {
        Some((first, later)) => { if first.to() <= day { later } else { rest } }
        None => rest,
    }
}

/// What is left of all stretches from the first one on that ends behind a day.
pub(crate) fn left_at<S: Stretched>(all: &[S], day: Reach) -> &[S]
    requires in_order { AreInOrder first_day end_of_days (map S.stretch all.now) }
    ensures ahead { AreAhead day end_of_days (map S.stretch result.now) }
    ensures same { values_on day (map S.stretch result.now) ≡ values_on day (map S.stretch all.now) }
{
    let mut rest = all;
    while let Some((first, later)) = rest.split_first() {
        if day < first.to() {
            return rest;
        }
        rest = later;
    }
    rest
}
