//! What a reply or a step of a lane tells.
ghost use Rattle.std.specs.Prelude.{◌≡◌};
ghost use Rattle.kb_desk.specs.Places.{is_full_reply, is_full_step, is_taken_text};

use kb_book::{LaneReply, Step};

/// Whether there was no room for a command.
pub fn is_full_reply(reply: LaneReply) -> bool
    ensures { result ≡ is_full_reply reply }
{
    match reply {
        LaneReply::Full { .. } => true,
        _ => false,
    }
}

/// Whether there was no room for what a step was to write down.
pub fn is_full_step(step: Step) -> bool
    ensures { result ≡ is_full_step step }
{
    match step {
        Step::Full { .. } => true,
        _ => false,
    }
}

/// Whether a reply tells that a text is taken, now or before.
pub fn is_taken_text(reply: LaneReply) -> bool
    ensures { result ≡ is_taken_text reply }
{
    match reply {
        LaneReply::Version(_) | LaneReply::States(_) => true,
        _ => false,
    }
}
