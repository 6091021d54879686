//! What waits: the draw, where no ticket is left, and the turn.
ghost use Rattle.std.specs.Prelude.{◌≡◌, []};
ghost use Rattle.kb_lock.specs.Private.Views.{waits};
ghost use Rattle.kb_lock.specs.Private.Plays.{Got};
ghost use Rattle.kb_lock.specs.Private.Inside.{IsSized, IsIdle};

use crate::counted::Counted;
use crate::steps::{draw_ticket, look_at_serving};
use crate::table::{LockSeat, LockWords};
use std::sync::Wait;

/// How often a thread looks before it sleeps.
const SPINS: u32 = 100;

/// The low half of a word, which a sleeping thread is woken by.
const LOW: u64 = 1 << 32;

/// Draws a ticket. Where none is left in a `u64`, it waits for good.
pub(crate) fn next_ticket<T: Counted, R: Wait>(
    rt: &R,
    table: &LockWords<T>,
    seat: &mut LockSeat<T>,
) -> u64
    requires sized { IsSized table.now.table_id }
    requires here { seat.old.table_id ≡ table.now.table_id }
    requires idle { IsIdle seat.old.me }
    ensures here { seat.new.table_id ≡ seat.old.table_id }
    ensures waits { seat.new.me ≡ (waits result seat.old.me.0.seen, []) }
{
    for _ in rt.forever() {
        let next = table.peek(0);
        if next == u64::MAX {
            table.park(rt, 0, u32::MAX);
        } else if draw_ticket(table, seat, next) == next {
            return next;
        }
    }
    unreachable!()
}

/// Waits until the ticket is served.
pub(crate) fn await_turn<T: Counted, R: Wait>(
    rt: &R,
    table: &LockWords<T>,
    seat: &mut LockSeat<T>,
    ticket: u64,
)
    requires sized { IsSized table.now.table_id }
    requires here { seat.old.table_id ≡ table.now.table_id }
    requires waits { seat.old.me ≡ (waits ticket seat.old.me.0.seen, []) }
    ensures here { seat.new.table_id ≡ seat.old.table_id }
    ensures served { Got T.history seat.old.me seat.new.me }
{
    for _ in rt.forever() {
        spin(table, ticket);
        let serving = look_at_serving(table, seat);
        if serving == ticket {
            return;
        }
        table.park(rt, 1, (serving % LOW) as u32);
    }
    unreachable!()
}

/// Looks for a short while whether the ticket is served.
fn spin<T: Counted>(table: &LockWords<T>, ticket: u64)
    requires sized { IsSized table.now.table_id }
{
    for _ in 0..SPINS {
        if table.peek(1) == ticket {
            return;
        }
        std::hint::spin_loop();
    }
}

/// Wakes those who sleep, where a ticket behind the one that was served is drawn.
pub(crate) fn wake_next<T: Counted>(table: &LockWords<T>, served: u64)
    requires sized { IsSized table.now.table_id }
{
    if table.peek(0) != served.wrapping_add(1) {
        table.wake_all(1);
    }
}
