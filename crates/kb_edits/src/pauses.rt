//! A pause, and its end.
ghost use Rattle.std.specs.Prelude.{◌≡◌, Some, None, Err, OnOk, IfOk, IfErr, IfSome};
ghost use Rattle.kb_book.specs.Wishes.{asked_day};
ghost use Rattle.kb_timeline.specs.TimelineEdits.{bundle_named};
ghost use Rattle.kb_book.specs.Rows.{first_refusal, IsUnprepared};
ghost use Rattle.kb_book.specs.BlockCommands.{pause_rows};
ghost use Rattle.kb_book.specs.BlockCommands as told;

use crate::states::with_state;
use crate::words::own_name;
use kb_blocking::{BlockState, Blocks, Flags, Scope};
use kb_book::{Refusal, Unprepared, asked_day};
use kb_codec::{Pause, Resume};
use kb_days::{Day, Name};
use kb_timeline::Timeline;
use std::alloc::Global;

/// The blocking states with a pause of a bundle, which blocks all. It is refused as `NoSubscription` and by
/// the limit of 4,096 states, in this order.
pub fn pause(
    alloc: Global,
    timeline: &Timeline,
    blocks: &Blocks,
    today: Day,
    pause: &Pause,
) -> Result<Blocks, Unprepared>
    ensures accepted { OnOk result (first_refusal
        (pause_rows timeline.now blocks.now pause.now.bundle) ≡ None) }
    ensures paused { IfOk result (λ more. more ≡ told.paused timeline.now blocks.now pause.now.bundle
        (asked_day pause.now.day today)) }
    ensures refused { IfErr result (IsUnprepared (first_refusal
        (pause_rows timeline.now blocks.now pause.now.bundle))) }
    ensures without_memory { IfSome (first_refusal (pause_rows timeline.now blocks.now pause.now.bundle))
        (λ refusal. result ≡ Err (Unprepared.Refused refusal)) }
{
    let day = asked_day(pause.day, today);
    let flags = Flags {
        change: true,
        entitlement: true,
        billing: true,
    };
    let state = own_name(b"ENT_BLOCKED");
    with_entitlement(alloc, timeline, blocks, pause.bundle, state, day, flags)
}

/// The blocking states with a state of a bundle that blocks nothing, whether or not the bundle is paused. It
/// is refused as a pause is.
pub fn resume(
    alloc: Global,
    timeline: &Timeline,
    blocks: &Blocks,
    today: Day,
    resume: &Resume,
) -> Result<Blocks, Unprepared>
    ensures accepted { OnOk result (first_refusal
        (pause_rows timeline.now blocks.now resume.now.bundle) ≡ None) }
    ensures resumed { IfOk result (λ more. more ≡ told.resumed timeline.now blocks.now resume.now.bundle
        (asked_day resume.now.day today)) }
    ensures refused { IfErr result (IsUnprepared (first_refusal
        (pause_rows timeline.now blocks.now resume.now.bundle))) }
    ensures without_memory { IfSome (first_refusal (pause_rows timeline.now blocks.now resume.now.bundle))
        (λ refusal. result ≡ Err (Unprepared.Refused refusal)) }
{
    let day = asked_day(resume.day, today);
    let flags = Flags {
        change: false,
        entitlement: false,
        billing: false,
    };
    let state = own_name(b"ENT_CLEAR");
    with_entitlement(alloc, timeline, blocks, resume.bundle, state, day, flags)
}

/// The blocking states with a state of the entitlement of a bundle.
fn with_entitlement(
    alloc: Global,
    timeline: &Timeline,
    blocks: &Blocks,
    bundle: Name,
    state: Name,
    day: Day,
    flags: Flags,
) -> Result<Blocks, Unprepared>
    ensures accepted { OnOk result (first_refusal (pause_rows timeline.now blocks.now bundle) ≡ None) }
    ensures added { IfOk result (λ more. more
        ≡ told.with_entitlement blocks.now (bundle_named timeline.now bundle) state day flags) }
    ensures refused { IfErr result (IsUnprepared (first_refusal
        (pause_rows timeline.now blocks.now bundle))) }
    ensures without_memory { IfSome (first_refusal (pause_rows timeline.now blocks.now bundle))
        (λ refusal. result ≡ Err (Unprepared.Refused refusal)) }
{
    let Some(place) = timeline.find_bundle(bundle) else {
        return Err(Unprepared::Refused(Refusal::NoSubscription));
    };
    let state = BlockState {
        scope: Scope::Bundle(place),
        service: own_name(b"entitlement-service"),
        state,
        day,
        flags,
    };
    with_state(alloc, blocks, state)
}
