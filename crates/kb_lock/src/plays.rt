//! What each step tells.
ghost use Rattle.kb_lock.specs.Private.Views.{rests, noting};
ghost use Rattle.kb_lock.specs.Private.Plays.{drawn, looked, told_front, gone, shown};

use crate::counted::Counted;
use crate::table::View;
use atomic_table::{Join, Play, Split};

/// A ticket is drawn.
pub(crate) struct Draw;

impl<T: Counted> Play<Option<T>, View<<T as Counted>::Entry>> for Draw {
    ghost then = { drawn };
}

/// A look at the ticket served.
pub(crate) struct Look;

impl<T: Counted> Play<Option<T>, View<<T as Counted>::Entry>> for Look {
    ghost then = { looked T.history };
}

/// The front is set.
pub(crate) struct Tell;

impl<T: Counted> Play<Option<T>, View<<T as Counted>::Entry>> for Tell {
    ghost then = { told_front T.history };
}

/// The next ticket is served.
pub(crate) struct Leave;

impl<T: Counted> Play<Option<T>, View<<T as Counted>::Entry>> for Leave {
    ghost then = { gone };
}

/// A look at the front.
pub(crate) struct Show;

impl<T: Counted> Play<Option<T>, View<<T as Counted>::Entry>> for Show {
    ghost then = { shown };
}

/// A second pass that saw the same.
pub(crate) struct Twin;

impl<E> Split<View<E>> for Twin {
    ghost left = { λ v. v };

    ghost right = { λ v. rests v.seen };
}

/// A pass notes what another saw.
pub(crate) struct Note;

impl<E> Join<View<E>> for Note {
    ghost use Rattle.std.specs.Prelude.{[]};

    ghost both = { λ v w. noting v.seen w.seen };

    ghost spent = { rests [] };
}
