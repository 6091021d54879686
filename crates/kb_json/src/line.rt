//! What is said to a line.
ghost use Rattle.std.specs.Prelude.{◌≡◌, ◌++◌, ◌∷◌, [], List, ℕ, OnOk, OnErr};
ghost use Rattle.kb_base.specs.Lines.{line_feed};
ghost use Rattle.kb_json.specs.Telling.{IsPartOf, Says, tells_change};

use crate::answer::{MEMORY_TEXT, answer_text};
use crate::said::Said;
use kb_base::NoMemory;
use kb_book::LaneReply;
use std::alloc::Global;

/// Says something, as a line, and lets it go.
pub fn tell(alloc: Global, spoken: Said, said: &mut Vec<u8>) -> Result<(), NoMemory>
    ensures ok { OnOk result ((text : List ℕ) × (said.new.items ≡ said.old.items ++ text)
        × Says spoken text) }
    ensures err { OnErr result ((part : List ℕ) × (said.new.items ≡ said.old.items ++ part)
        × ((text : List ℕ) × Says spoken text × IsPartOf part text)) }
{
    say(alloc, &spoken, said)
}

/// Says something, as a line. Where there is no memory for its text, the line says that memory ran out,
/// unless it would have told of something that was written down; out of memory for that too, a part of it
/// is said.
fn say(alloc: Global, spoken: &Said, said: &mut Vec<u8>) -> Result<(), NoMemory>
    ensures ok { OnOk result ((text : List ℕ) × (said.new.items ≡ said.old.items ++ text)
        × Says spoken.now text) }
    ensures err { OnErr result ((part : List ℕ) × (said.new.items ≡ said.old.items ++ part)
        × ((text : List ℕ) × Says spoken.now text × IsPartOf part text)) }
{
    match answer_text(alloc, spoken) {
        Ok(text) => say_line(&text, said),
        Err(NoMemory) => say_memory(spoken, said),
    }
}

/// Says that memory ran out, in place of something that tells of nothing written down.
fn say_memory(spoken: &Said, said: &mut Vec<u8>) -> Result<(), NoMemory>
    ensures ok { OnOk result ((text : List ℕ) × (said.new.items ≡ said.old.items ++ text)
        × Says spoken.now text) }
    ensures err { OnErr result ((part : List ℕ) × (said.new.items ≡ said.old.items ++ part)
        × ((text : List ℕ) × Says spoken.now text × IsPartOf part text)) }
{
    if tells_change(spoken) {
        return Err(NoMemory);
    }
    say_line(MEMORY_TEXT, said)
}

/// Whether what is said tells of something that may have been written down.
fn tells_change(spoken: &Said) -> bool
    ensures { result ≡ tells_change spoken.now }
{
    match spoken {
        Said::Reply(LaneReply::Accepted(_)) => true,
        Said::Reply(LaneReply::Version(_)) => true,
        Said::Reply(LaneReply::States(_)) => true,
        Said::Reply(LaneReply::DiskFault) => true,
        Said::Janitor(_) => true,
        _ => false,
    }
}

/// Says a text, and ends its line.
fn say_line(text: &[u8], said: &mut Vec<u8>) -> Result<(), NoMemory>
    ensures ok { OnOk result (said.new.items ≡ said.old.items ++ (text.now ++ line_feed ∷ [])) }
    ensures err { OnErr result ((part : List ℕ) × (said.new.items ≡ said.old.items ++ part)
        × IsPartOf part (text.now ++ line_feed ∷ [])) }
{
    said.reserve(text.len() + 1)?;
    said.extend_from_slice(text)?;
    said.push(b'\n')?;
    Ok(())
}
