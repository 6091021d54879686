//! What can be said.

use crate::fault::RequestFault;
use kb_book::{LaneReply, Refusal, Step, View};

/// What is said to a request.
#[derive(Drop)]
pub enum Said {
    /// What a lane replied to a command.
    Reply(LaneReply),
    /// What is shown.
    View(View),
    /// It is refused.
    Refused(Refusal),
    /// The line is no request.
    Fault(RequestFault),
    /// What came of looking up open payments.
    Janitor(Step),
}
