//! A block.
ghost use Rattle.std.specs.Prelude.{◌≡◌, Some, None, Err, is_some, OnOk, IfOk, IfErr, IfSome};
ghost use Rattle.kb_book.specs.Wishes.{asked_day};
ghost use Rattle.kb_book.specs.Rows.{first_refusal, IsUnprepared};
ghost use Rattle.kb_book.specs.BlockCommands.{has_target, block_rows};
ghost use Rattle.kb_book.specs.BlockCommands as told;

use crate::states::with_state;
use crate::words::is_reserved;
use kb_blocking::{BlockState, Blocks, Scope};
use kb_book::{Refusal, Unprepared, asked_day};
use kb_codec::{Block, BlockScope};
use kb_days::{Day, Name};
use kb_timeline::Timeline;
use std::alloc::Global;

/// The blocking states of an account with one more. It is refused, in this order, as `BadName` if the service
/// is the platform's own, as `NoSubscription` if the target isn't there, and by the limit of 4,096 states.
pub fn block(
    alloc: Global,
    account: Name,
    timeline: &Timeline,
    blocks: &Blocks,
    today: Day,
    block: &Block,
) -> Result<Blocks, Unprepared>
    ensures accepted { OnOk result (first_refusal (block_rows account timeline.now blocks.now block.now)
        ≡ None) }
    ensures blocked { IfOk result (λ more. more ≡ told.blocked timeline.now blocks.now block.now
        (asked_day block.now.day today)) }
    ensures refused { IfErr result (IsUnprepared (first_refusal
        (block_rows account timeline.now blocks.now block.now))) }
    ensures without_memory { IfSome (first_refusal (block_rows account timeline.now blocks.now block.now))
        (λ refusal. result ≡ Err (Unprepared.Refused refusal)) }
{
    if is_reserved(block.service) {
        return Err(Unprepared::Refused(Refusal::BadName));
    }
    let Some(scope) = scope_of(account, timeline, block.scope, block.target) else {
        return Err(Unprepared::Refused(Refusal::NoSubscription));
    };
    let state = BlockState {
        scope,
        service: block.service,
        state: block.state,
        day: asked_day(block.day, today),
        flags: block.flags,
    };
    with_state(alloc, blocks, state)
}

/// What a block speaks of, by its place, if it is there.
fn scope_of(account: Name, timeline: &Timeline, scope: BlockScope, target: Name) -> Option<Scope>
    ensures there { has_target account timeline.now scope target ≡ is_some result }
    ensures scope { IfSome result (λ found. told.scope_of timeline.now scope target ≡ Some found) }
{
    match scope {
        BlockScope::Account if target == account => Some(Scope::Account),
        BlockScope::Account => None,
        BlockScope::Bundle => Some(Scope::Bundle(timeline.find_bundle(target)?)),
        BlockScope::Subscription => Some(Scope::Subscription(timeline.find(target)?)),
    }
}
