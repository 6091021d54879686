//! The last output lines.
ghost use Rattle.std.specs.Prelude.{◌≡◌, ◌++◌, codes, decimal, IfOk, OnErr, OnOk};
ghost use Rattle.kb_runs.specs.declared.stop.Stop.TheVariants.{Journal, NotEmpty, Run, Text};
ghost use Rattle.kb_runs.specs.Endings.{NeedsMemory, last_line, text_words};
ghost use Rattle.kb_runs.specs.Private.Lines.{line_bytes};

use crate::run_stop::RunStop;
use crate::stop::Stop;
use kb_base::{NoMemory, push, push_count};
use kb_catalog_text::TextFault;
use std::alloc::Global;

/// A last output line, with its line feed.
#[derive(Drop)]
pub(crate) enum LastLine {
    /// One that is always the same.
    Fixed(&'static [u8]),
    /// One with numbers or a key.
    Made(Vec<u8>),
}

impl LastLine {
    /// Its bytes.
    pub(crate) fn as_slice(&self) -> &[u8]
        ensures { result.now ≡ line_bytes self.now }
    {
        match self {
            LastLine::Fixed(bytes) => bytes,
            LastLine::Made(bytes) => bytes.as_slice(),
        }
    }
}

/// The last output line of a stop.
pub(crate) fn last_line(alloc: Global, stop: &Stop) -> Result<LastLine, NoMemory>
    ensures ok { IfOk result (λ line. line_bytes line ≡ last_line stop.now) }
    ensures err { OnErr result (NeedsMemory stop.now) }
{
    match stop {
        Stop::Words => Ok(LastLine::Fixed(b"billd: words\n")),
        Stop::Run(stop) => Ok(LastLine::Fixed(run_line(*stop))),
        Stop::Disk => Ok(LastLine::Fixed(b"billd: disk\n")),
        Stop::Journal { lane, at } => Ok(LastLine::Made(journal_line(alloc, *lane, *at)?)),
        Stop::Text(fault) => Ok(LastLine::Made(text_line(alloc, fault)?)),
        Stop::Market => Ok(LastLine::Fixed(b"billd: market\n")),
        Stop::NotEmpty { lane } => Ok(LastLine::Made(not_empty_line(alloc, *lane)?)),
        Stop::Full => Ok(LastLine::Fixed(b"billd: full\n")),
    }
}

/// The last output line of a run over lines; none where the output itself failed.
pub(crate) fn run_line(stop: RunStop) -> &'static [u8]
    ensures { result.now ≡ last_line (Run stop) }
{
    match stop {
        RunStop::Input => b"billd: input\n",
        RunStop::Output => b"",
        RunStop::Memory => b"billd: memory\n",
        RunStop::LineTooLong => b"billd: line too long\n",
        RunStop::InputTooLong => b"billd: input too long\n",
    }
}

/// The line of bytes that are no journal of their lane.
fn journal_line(alloc: Global, lane: u32, at: u64) -> Result<Vec<u8>, NoMemory>
    ensures { IfOk result (λ line. line.items ≡ last_line (Journal lane at)) }
{
    let mut line = Vec::new(alloc);
    push(&mut line, b"billd: journal ")?;
    push_numbers(&mut line, lane.into(), at)?;
    push(&mut line, b"\n")?;
    Ok(line)
}

/// The line of a disk that isn't empty.
fn not_empty_line(alloc: Global, lane: u32) -> Result<Vec<u8>, NoMemory>
    ensures { IfOk result (λ line. line.items ≡ last_line (NotEmpty lane)) }
{
    let mut line = Vec::new(alloc);
    push(&mut line, b"billd: not empty ")?;
    push_count(&mut line, lane.into())?;
    push(&mut line, b"\n")?;
    Ok(line)
}

/// The line of a text that is refused.
fn text_line(alloc: Global, fault: &TextFault) -> Result<Vec<u8>, NoMemory>
    ensures { IfOk result (λ line. line.items ≡ last_line (Text fault.now)) }
{
    let mut line = Vec::new(alloc);
    push(&mut line, b"billd: ")?;
    push_fault(&mut line, fault)?;
    push(&mut line, b"\n")?;
    Ok(line)
}

/// Adds what is said of a text.
fn push_fault(line: &mut Vec<u8>, fault: &TextFault) -> Result<(), NoMemory>
    ensures { OnOk result (line.new.items ≡ line.old.items ++ text_words fault.now) }
{
    match fault {
        TextFault::NotToml => push(line, b"text 1"),
        TextFault::Missing(key) => push_pair(line, b"text 2 ", key.as_slice()),
        TextFault::WrongKind(key) => push_pair(line, b"text 3 ", key.as_slice()),
        TextFault::Unknown(key) => push_pair(line, b"text 4 ", key.as_slice()),
        TextFault::Rule(rule, place) => push_rule(line, *rule, *place),
        TextFault::Memory => push(line, b"memory"),
        TextFault::TooLong(count) => push_length(line, *count),
    }
}

/// Adds what is said of a broken rule.
fn push_rule(line: &mut Vec<u8>, rule: u32, place: u32) -> Result<(), NoMemory>
    ensures { OnOk result (line.new.items
        ≡ line.old.items ++ (codes "text 5 " ++ decimal rule ++ codes " " ++ decimal place)) }
{
    push(line, b"text 5 ")?;
    push_numbers(line, rule.into(), place.into())
}

/// Adds what is said of a text that is too long.
fn push_length(line: &mut Vec<u8>, count: u64) -> Result<(), NoMemory>
    ensures { OnOk result (line.new.items ≡ line.old.items ++ (codes "text 7 " ++ decimal count)) }
{
    push(line, b"text 7 ")?;
    push_count(line, count)
}

/// Adds two numbers with a space between them.
fn push_numbers(line: &mut Vec<u8>, first: u64, second: u64) -> Result<(), NoMemory>
    ensures { OnOk result (line.new.items
        ≡ line.old.items ++ (decimal first ++ codes " " ++ decimal second)) }
{
    push_count(line, first)?;
    push(line, b" ")?;
    push_count(line, second)
}

/// Adds words, and a key behind them.
fn push_pair(line: &mut Vec<u8>, words: &[u8], key: &[u8]) -> Result<(), NoMemory>
    ensures { OnOk result (line.new.items ≡ line.old.items ++ (words.now ++ key.now)) }
{
    push(line, words)?;
    push(line, key)
}
