//! First come, first served.
ghost use Rattle.kb_lock.specs.FirstCome.{DrawsInTurn, ServesInTurn};

use crate::counted::Counted;

/// A pass draws the ticket that comes next, and who leaves serves the one after its own: the rule that every
/// step of every thread keeps allows no other. So no ticket is drawn or served twice, and none is skipped.
pub fn first_come_first_served<T: Counted>()
    ensures drawn { DrawsInTurn T.history }
    ensures served { ServesInTurn T.history }
{}
