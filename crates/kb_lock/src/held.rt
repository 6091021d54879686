//! The lock and its six calls.
ghost use Rattle.std.specs.Prelude.{◌≡◌, IfOk, [], true, false};
ghost use mathlib.Core.List.{IsPrefix};
ghost use Rattle.kb_lock.specs.Passes.{idle, at_turn};
ghost use Rattle.kb_lock.specs.Private.Views.{rests};
ghost use Rattle.kb_lock.specs.Private.Inside.{IsSized};

use crate::counted::Counted;
use crate::pass::{Mark, Pass, Turn};
use crate::steps::{leave, look_at_front, note_other, second_seat, set_front, slot_in, slot_out};
use crate::table::{LockSeat, LockTable};
use crate::waits::{await_turn, next_ticket, wake_next};
use atomic_table::Table;
use kb_base::NoMemory;
use std::alloc::Global;
use std::marker::Model;
use std::snapshot::Snapshot;
use std::sync::Wait;

/// A value under a lock. Contracts see which lock it is.
#[derive(Drop)]
pub struct Held<T: Counted + Drop> {
    table: LockTable<T>,
}

impl<T: Counted + Drop> Model for Held<T> {
    ghost use Rattle.std.specs.Prelude.{◌≡◌};
    ghost use Rattle.kb_lock.specs.Passes.{LockId};
    ghost use Rattle.kb_lock.specs.Private.Inside.{IsSized};

    ghost Value = { LockId };

    ghost view = { λ h. h.table.shared.table_id };

    ghost invariant = { λ h. IsSized h.table.shared.table_id };
}

/// The table of a lock with this value.
fn new_table<T: Counted + Drop>(
    alloc: Global,
    value: T,
) -> Result<(LockTable<T>, LockSeat<T>), NoMemory>
    ensures sized { IfOk result (λ made. IsSized made.0.shared.table_id) }
    ensures here { IfOk result (λ made. made.1.table_id ≡ made.0.shared.table_id) }
    ensures seen { IfOk result (λ made. made.1.me ≡ (rests (T.history value), [])) }
{
    let about = Snapshot::of(&value);
    let count = value.count();
    let mut slots = Vec::new(alloc);
    slots.push(Some(value))?;
    let Ok(made) = Table::new(alloc, &[0, 0, count], slots, &about) else {
        return Err(NoMemory);
    };
    Ok(made)
}

impl<T: Counted + Drop> Held<T> {
    /// A lock with this value, and the first pass. Out of memory, the value is dropped.
    pub fn new(alloc: Global, value: T) -> Result<(Held<T>, Pass<T>), NoMemory>
        ensures seen { IfOk result (λ made. made.1 ≡ idle made.0 (T.history value)) }
    {
        let (table, seat) = new_table(alloc, value)?;
        Ok((Held { table }, Pass { seat }))
    }

    /// Waits for the turn, and takes the value.
    pub fn take<R: Wait>(&self, rt: &R, pass: &mut Pass<T>) -> Turn<T>
        requires this_lock { pass.old.lock ≡ self.now }
        requires no_turn { pass.old.has_turn ≡ false }
        ensures grown { IsPrefix pass.old.seen (T.history result.value) }
        ensures pass { pass.new ≡ at_turn self.now (T.history result.value) }
    {
        let table = &self.table.shared;
        let ticket = next_ticket(rt, table, &mut pass.seat);
        await_turn(rt, table, &mut pass.seat, ticket);
        let value = slot_out(table, &mut pass.seat);
        Turn { value, mark: Mark }
    }

    /// Puts the value back. The next ticket is served.
    pub fn give(&self, pass: &mut Pass<T>, turn: Turn<T>)
        requires this_lock { pass.old.lock ≡ self.now }
        requires turn { pass.old.has_turn ≡ true }
        requires grown { IsPrefix pass.old.seen (T.history turn.value) }
        ensures pass { pass.new ≡ idle self.now (T.history turn.value) }
    {
        let table = &self.table.shared;
        let Turn { value, mark: Mark } = turn;
        let count = value.count();
        slot_in(table, &mut pass.seat, value);
        set_front(table, &mut pass.seat, count);
        let served = leave(table, &mut pass.seat);
        wake_next(table, served);
    }

    /// A second pass, which saw the same.
    pub fn split(&self, pass: &mut Pass<T>) -> Pass<T>
        requires this_lock { pass.old.lock ≡ self.now }
        requires no_turn { pass.old.has_turn ≡ false }
        ensures same { pass.new ≡ pass.old }
        ensures twin { result ≡ pass.old }
    {
        let seat = second_seat(&self.table.shared, &mut pass.seat);
        Pass { seat }
    }

    /// Spends the other pass. What the pass saw then begins with what either saw.
    pub fn join(&self, pass: &mut Pass<T>, other: Pass<T>)
        requires this_lock { (pass.old.lock ≡ self.now) × (other.lock ≡ self.now) }
        requires no_turn { (pass.old.has_turn ≡ false) × (other.has_turn ≡ false) }
        ensures own { IsPrefix pass.old.seen pass.new.seen }
        ensures other { IsPrefix other.seen pass.new.seen }
        ensures pass { pass.new ≡ idle self.now pass.new.seen }
    {
        let table = &self.table.shared;
        note_other(table, &mut pass.seat, other.seat);
        look_at_front(table, &mut pass.seat);
    }

    /// Waits for a last turn, and keeps the value.
    pub fn close<R: Wait>(self, rt: &R, pass: Pass<T>) -> T
        requires this_lock { pass.lock ≡ self }
        requires no_turn { pass.has_turn ≡ false }
        ensures grown { IsPrefix pass.seen (T.history result) }
    {
        let mut pass = pass;
        let Turn { value, mark: Mark } = self.take(rt, &mut pass);
        value
    }
}
