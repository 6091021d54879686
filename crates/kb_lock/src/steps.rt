//! One function for each kind of atomic step.
ghost use Rattle.std.specs.Prelude.{◌≡◌, ◌≢◌, ◌+◌, ◌^◌, ◌<◌, [], ◌∷◌, Some, None};
ghost use Rattle.kb_lock.specs.Private.Views.{rests, noting, waits};
ghost use Rattle.kb_lock.specs.Private.Plays.{Got, Saw};
ghost use Rattle.kb_lock.specs.Private.Inside.{IsSized, IsIdle, IsBack, IsTold, Tells};

use crate::counted::Counted;
use crate::plays::{Draw, Leave, Look, Note, Show, Tell, Twin};
use crate::table::{LockSeat, LockWords};

/// Draws the ticket `next`, where that is the next one. Gives the next one as it was found.
pub(crate) fn draw_ticket<T: Counted>(
    table: &LockWords<T>,
    seat: &mut LockSeat<T>,
    next: u64,
) -> u64
    requires sized { IsSized table.now.table_id }
    requires here { seat.old.table_id ≡ table.now.table_id }
    requires idle { IsIdle seat.old.me }
    requires more { next + 1 < 2 ^ 64 }
    ensures here { seat.new.table_id ≡ seat.old.table_id }
    ensures drawn { result ≡ next → seat.new.me ≡ (waits next seat.old.me.0.seen, []) }
    ensures missed { result ≢ next → seat.new.me ≡ seat.old.me }
{
    table.compare_exchange::<Draw>(seat, 0, next, next + 1)
}

/// Looks at the ticket served, and has the slot where it is the pass's own.
pub(crate) fn look_at_serving<T: Counted>(table: &LockWords<T>, seat: &mut LockSeat<T>) -> u64
    requires sized { IsSized table.now.table_id }
    requires here { seat.old.table_id ≡ table.now.table_id }
    requires waits { seat.old.me ≡ (waits seat.old.me.0.ticket seat.old.me.0.seen, []) }
    ensures here { seat.new.table_id ≡ seat.old.table_id }
    ensures served { result ≡ seat.old.me.0.ticket → Got T.history seat.old.me seat.new.me }
    ensures waits { result ≢ seat.old.me.0.ticket → seat.new.me ≡ seat.old.me }
{
    table.load::<Look>(seat, 1)
}

/// Takes the value out of the slot.
pub(crate) fn slot_out<T: Counted>(table: &LockWords<T>, seat: &mut LockSeat<T>) -> T
    requires here { seat.old.table_id ≡ table.now.table_id }
    requires full { (value : _) × (seat.old.me.1 ≡ (0, Some value) ∷ []) }
    ensures here { seat.new.table_id ≡ seat.old.table_id }
    ensures value { seat.old.me.1 ≡ (0, Some result) ∷ [] }
    ensures out { seat.new.me ≡ (seat.old.me.0, (0, None) ∷ []) }
{
    let Some(value) = table.exchange(seat, 0, None) else {
        unreachable!()
    };
    value
}

/// Puts the value into the slot.
pub(crate) fn slot_in<T: Counted>(table: &LockWords<T>, seat: &mut LockSeat<T>, value: T)
    requires here { seat.old.table_id ≡ table.now.table_id }
    requires empty { seat.old.me.1 ≡ (0, None) ∷ [] }
    ensures here { seat.new.table_id ≡ seat.old.table_id }
    ensures full { seat.new.me ≡ (seat.old.me.0, (0, Some value) ∷ []) }
{
    let old = table.exchange(seat, 0, Some(value));
    let None = old else { unreachable!() };
}

/// Sets the front to the history of the value in the slot, of which `count` is the length.
pub(crate) fn set_front<T: Counted>(table: &LockWords<T>, seat: &mut LockSeat<T>, count: u64)
    requires sized { IsSized table.now.table_id }
    requires here { seat.old.table_id ≡ table.now.table_id }
    requires grown { IsBack T.history count seat.old.me }
    ensures here { seat.new.table_id ≡ seat.old.table_id }
    ensures told { Tells T.history seat.old.me seat.new.me }
{
    table.store::<Tell>(seat, 2, count);
}

/// Serves the next ticket, and gives the one that was served.
pub(crate) fn leave<T: Counted>(table: &LockWords<T>, seat: &mut LockSeat<T>) -> u64
    requires sized { IsSized table.now.table_id }
    requires here { seat.old.table_id ≡ table.now.table_id }
    requires told { IsTold T.history seat.old.me }
    ensures here { seat.new.table_id ≡ seat.old.table_id }
    ensures idle { seat.new.me ≡ (rests seat.old.me.0.seen, []) }
{
    table.fetch_add::<Leave>(seat, 1, 1)
}

/// Looks at the front.
pub(crate) fn look_at_front<T: Counted>(table: &LockWords<T>, seat: &mut LockSeat<T>) -> u64
    requires sized { IsSized table.now.table_id }
    requires here { seat.old.table_id ≡ table.now.table_id }
    requires noting { seat.old.me ≡ (noting seat.old.me.0.seen seat.old.me.0.note, []) }
    ensures here { seat.new.table_id ≡ seat.old.table_id }
    ensures shown { Saw seat.old.me seat.new.me }
{
    table.load::<Show>(seat, 2)
}

/// A second seat, whose pass rests and saw the same.
pub(crate) fn second_seat<T: Counted>(table: &LockWords<T>, seat: &mut LockSeat<T>) -> LockSeat<T>
    requires sized { IsSized table.now.table_id }
    requires here { seat.old.table_id ≡ table.now.table_id }
    ensures here { (seat.new.table_id ≡ seat.old.table_id) × (result.table_id ≡ seat.old.table_id) }
    ensures same { seat.new.me ≡ seat.old.me }
    ensures twin { result.me ≡ (rests seat.old.me.0.seen, []) }
{
    table.split_seat::<Twin>(seat)
}

/// Spends the other seat, and notes what its pass saw.
pub(crate) fn note_other<T: Counted>(
    table: &LockWords<T>,
    seat: &mut LockSeat<T>,
    other: LockSeat<T>,
)
    requires sized { IsSized table.now.table_id }
    requires here { (seat.old.table_id ≡ table.now.table_id) × (other.table_id ≡ table.now.table_id) }
    requires idle { IsIdle seat.old.me × IsIdle other.me }
    ensures here { seat.new.table_id ≡ seat.old.table_id }
    ensures noted { seat.new.me ≡ (noting seat.old.me.0.seen other.me.0.seen, []) }
{
    table.join_seat::<Note>(seat, other);
}
