//! The lock's words, its slot, and what its passes know.
//!
//! Word 0 counts the tickets drawn, word 1 is the ticket served, and word 2 is the length of the front, which
//! is the history of the value as it was put back last. Slot 0 is the value's home. What always holds of them
//! is `IsLock` of specs/Rule.antt, and the steps that keep it stand in docs/LOCK.md.

use crate::counted::Counted;
use atomic_table::{Seat, Shared, Table, TableRule};
use std::alloc::Global;
use std::collections::LinkedList;
use std::snapshot::Snapshot;

/// How far a pass is.
pub enum Stage {
    /// It has no ticket.
    Rests,
    /// It has a ticket.
    Waits,
    /// Its ticket is served, and the slot is its own.
    Holds,
    /// It has set the front to the history of the value that it put back.
    Told,
}

/// What a pass knows. No value of it is made.
pub struct View<E> {
    pub stage: Stage,
    pub ticket: u64,
    /// The history that the pass saw last.
    pub seen: LinkedList<E>,
    /// What a pass that was joined to this one saw, until this one looks at the front.
    pub note: LinkedList<E>,
}

/// What always holds between two steps.
pub struct Rule;

impl<T: Counted> TableRule<Option<T>, View<<T as Counted>::Entry>, Snapshot<T>> for Rule {
    ghost use Rattle.kb_lock.specs.Rule.{IsLock};
    ghost use Rattle.kb_lock.specs.Private.Views.{rests};

    ghost holds = { λ _. IsLock T.history };

    ghost first = { λ key. rests (T.history key.value) };
}

pub type LockTable<T> = Table<Option<T>, View<<T as Counted>::Entry>, Snapshot<T>, Rule, Global>;

pub type LockWords<T> = Shared<Option<T>, View<<T as Counted>::Entry>, Snapshot<T>, Rule>;

pub type LockSeat<T> = Seat<Option<T>, View<<T as Counted>::Entry>>;
