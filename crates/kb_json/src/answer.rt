//! What is said, as its text.
ghost use Rattle.std.specs.Prelude.{◌≡◌, [], ◌∷◌, IfOk};
ghost use Rattle.serde_json.specs.Read.{read, of_json};
ghost use Rattle.kb_base.specs.Lines.{pieces, line_feed};
ghost use Rattle.kb_json.specs.Answers.{said_json, say};
ghost use Rattle.kb_json.specs.Private.Fields.{IsTextOf};

use crate::reply::{fault_text, refused_text, reply_text, step_text};
use crate::said::Said;
use crate::view::view_text;
use kb_base::NoMemory;
use std::alloc::Global;

/// The text that says that memory ran out, for where there is none to write it.
pub const MEMORY_TEXT: &[u8] = b"{\"status\":\"memory\"}";

/// The text of what is said: one line, without the line feed that ends it.
pub fn answer_text(alloc: Global, answer: &Said) -> Result<Vec<u8>, NoMemory>
    ensures text { IfOk result (λ text. text.items ≡ say answer.now) }
    ensures reads_back { IfOk result (λ text. read text.items ≡ of_json (said_json answer.now)) }
    ensures one_line { IfOk result (λ text. pieces line_feed text.items ≡ text.items ∷ []) }
{
    text_of_said(alloc, answer)
}

/// The text of what is said, with what a reader finds in it.
fn text_of_said(alloc: Global, answer: &Said) -> Result<Vec<u8>, NoMemory>
    ensures { IfOk result (λ text. IsTextOf (said_json answer.now) text.items) }
{
    match answer {
        Said::Reply(reply) => reply_text(alloc, reply),
        Said::View(view) => view_text(alloc, view),
        Said::Refused(refusal) => refused_text(alloc, *refusal),
        Said::Fault(fault) => fault_text(alloc, fault),
        Said::Janitor(step) => step_text(alloc, *step),
    }
}
