//! What a thread keeps of a lock: a pass, and the value while it has the turn.

use crate::counted::Counted;
use crate::table::LockSeat;
use std::marker::Model;

/// What a thread knows of a lock. Contracts see which lock it is, the history that the pass saw last, and
/// whether it has the turn. One that is dropped at its turn leaves the others waiting for good.
#[derive(Drop)]
pub struct Pass<T: Counted> {
    pub(crate) seat: LockSeat<T>,
}

impl<T: Counted> Model for Pass<T> {
    ghost use Rattle.kb_lock.specs.Passes.{Known};
    ghost use Rattle.kb_lock.specs.Private.Inside.{known, IsEither};

    ghost Value = { Known T.Entry };

    ghost view = { λ p. known p.seat.table_id p.seat.me };

    ghost invariant = { λ p. IsEither p.seat.me };
}

/// The value, while a pass has the turn. It must be given back.
pub struct Turn<T> {
    pub value: T,
    pub(crate) mark: Mark,
}

/// A turn can't be made or taken apart outside of this crate.
pub(crate) struct Mark;
