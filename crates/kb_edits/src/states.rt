//! A blocking state that is accepted.
ghost use Rattle.std.specs.Prelude.{◌≡◌, None, Err, OnOk, IfOk, IfErr, IfSome, option_copied};
ghost use Rattle.kb_book.specs.Rows.{first_refusal, IsUnprepared};
ghost use Rattle.kb_book.specs.BlockCommands.{state_rows};
ghost use Rattle.kb_book.specs.BlockCommands as told;

use crate::words::own_name;
use kb_blocking::{BlockState, Blocks, Flags, MAX_STATES, Scope};
use kb_book::{Refusal, Unprepared};
use kb_days::{Day, Name};
use kb_overdue::OverdueState;
use std::alloc::Global;

/// The blocking states with one more behind them. It is refused by the limit of 4,096 states.
pub(crate) fn with_state(
    alloc: Global,
    blocks: &Blocks,
    state: BlockState,
) -> Result<Blocks, Unprepared>
    ensures accepted { OnOk result (first_refusal (state_rows blocks.now) ≡ None) }
    ensures added { IfOk result (λ more. more ≡ told.with_state blocks.now state) }
    ensures refused { IfErr result (IsUnprepared (first_refusal (state_rows blocks.now))) }
    ensures without_memory { IfSome (first_refusal (state_rows blocks.now))
        (λ refusal. result ≡ Err (Unprepared.Refused refusal)) }
{
    if MAX_STATES <= blocks.states().len() {
        return Err(Unprepared::Refused(Refusal::Limit {
            which: 4,
            limit: MAX_STATES as u32,
        }));
    }
    match blocks.add(alloc, state) {
        Ok(more) => Ok(more),
        Err(_) => Err(Unprepared::NoMemory),
    }
}

/// The blocking states after a transition into an overdue state, or into CLEAR, on a day. It is refused by
/// the limit of 4,096 states.
pub fn enter_state(
    alloc: Global,
    blocks: &Blocks,
    state: Option<&OverdueState>,
    day: Day,
) -> Result<Blocks, Unprepared>
    ensures accepted { OnOk result (first_refusal (state_rows blocks.now) ≡ None) }
    ensures added { IfOk result (λ more. more
        ≡ told.with_state blocks.now (told.transition_state (option_copied state.entry) day)) }
    ensures refused { IfErr result (IsUnprepared (first_refusal (state_rows blocks.now))) }
    ensures without_memory { IfSome (first_refusal (state_rows blocks.now))
        (λ refusal. result ≡ Err (Unprepared.Refused refusal)) }
{
    with_state(alloc, blocks, transition_state(state, day))
}

/// What a transition into a state blocks from a day on.
fn transition_state(state: Option<&OverdueState>, day: Day) -> BlockState
    ensures { result ≡ told.transition_state (option_copied state.entry) day }
{
    BlockState {
        scope: Scope::Account,
        service: own_name(b"overdue-service"),
        state: overdue_name(state),
        day,
        flags: overdue_flags(state),
    }
}

/// The name of an overdue state, as a blocking state has it.
fn overdue_name(state: Option<&OverdueState>) -> Name
    ensures { result ≡ told.overdue_name (option_copied state.entry) }
{
    match state {
        None => own_name(b"CLEAR"),
        Some(state) => state.name,
    }
}

/// The flags of an overdue state. CLEAR has none.
fn overdue_flags(state: Option<&OverdueState>) -> Flags
    ensures { result ≡ told.overdue_flags (option_copied state.entry) }
{
    match state {
        None => Flags {
            change: false,
            entitlement: false,
            billing: false,
        },
        Some(state) => Flags {
            change: state.block_change,
            entitlement: state.block_entitlement,
            billing: state.block_billing,
        },
    }
}
