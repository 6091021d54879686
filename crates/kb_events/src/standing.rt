//! How the billing flag stands on a day: it is asked once on the first day, and turns from then on.
ghost use Rattle.std.specs.Prelude.{◌≡◌, ◌<◌, ◌≤◌, ◌⊎◌, ℕ, List, length, Contains, AllPairs};
ghost use Rattle.std.specs.List.Sorted.{IsPartitionPoint};
ghost use Rattle.kb_days.specs.Calendar.{first_day};
ghost use Rattle.kb_blocking.specs.declared.state.BlockState.{BlockState};
ghost use Rattle.kb_blocking.specs.declared.state.Chain as chains;
ghost use Rattle.kb_blocking.specs.Blocking.{differ};
ghost use Rattle.kb_events.specs.Private.Standing.{AreTurns, IsStanding, KeepsFlag};

use kb_blocking::{Blocks, Chain, Flag};
use kb_days::{Day, FIRST_DAY, Reach};

/// A day, whether billing is blocked on it, and the last day up to it on which that changed, or the first day
/// that may be charged where it hasn't changed since.
#[derive(Clone, Copy, Debug)]
pub(crate) struct Standing {
    pub(crate) day: Reach,
    pub(crate) blocked: bool,
    pub(crate) turn: Reach,
}

/// How the billing flag stands on the first day that may be charged.
pub(crate) fn first_standing(blocks: &Blocks, chain: Chain) -> Standing
    ensures day { result.day ≡ first_day }
    ensures stands { IsStanding blocks.now chain first_day result.blocked result.turn }
{
    let first = first_reach();
    Standing {
        day: first,
        blocked: blocks.blocked(chain, Flag::Billing, first),
        turn: first,
    }
}

/// The first day that may be charged.
pub(crate) fn first_reach() -> Reach
    ensures { result ≡ first_day }
{
    Reach::new(FIRST_DAY).unwrap()
}

/// How the billing flag stands on a later day, if it doesn't turn on a day between.
pub(crate) fn next_standing(standing: &Standing, turns: &[Day], day: Reach) -> Standing
    requires later { standing.now.day < day }
    requires named { first_day ≤ standing.now.day }
    requires rising { AllPairs (λ (earlier later : ℕ). earlier < later) turns.now }
    ensures day { result.day ≡ day }
    ensures stands { (states : List BlockState) (chain : chains.Chain) → AreTurns states chain turns.now
        → KeepsFlag states chain standing.now.day day
        → IsStanding states chain standing.now.day standing.now.blocked standing.now.turn
        → IsStanding states chain day result.blocked result.turn }
{
    let turn = turn_by(turns, day);
    Standing {
        day,
        blocked: flipped(standing.blocked, turn == day),
        turn,
    }
}

/// What a flag is, if it turns or not.
fn flipped(blocked: bool, turned: bool) -> bool
    ensures { result ≡ differ turned blocked }
{
    if turned { !blocked } else { blocked }
}

/// The last of these days up to another, or the first day that may be charged.
fn turn_by(turns: &[Day], day: Reach) -> Reach
    requires named { first_day ≤ day }
    requires rising { AllPairs (λ (earlier later : ℕ). earlier < later) turns.now }
    ensures past { result ≤ day }
    ensures turned { (result ≡ first_day) ⊎ Contains turns.now result }
    ensures last { (other : ℕ) → Contains turns.now other → other ≤ day → other ≤ result }
{
    match count_turned(turns, day).checked_sub(1) {
        None => first_reach(),
        Some(place) => turns[place].reach(),
    }
}

/// How many of these days lie on or before another.
fn count_turned(turns: &[Day], day: Reach) -> usize
    requires rising { AllPairs (λ (earlier later : ℕ). earlier < later) turns.now }
    ensures turned { IsPartitionPoint (λ (turn : ℕ). turn ≤ day) (λ (turn : ℕ). day < turn) turns.now result }
    ensures inside { result ≤ length turns.now }
{
    turns.partition_point(|turn| turn.reach() <= day)
}
