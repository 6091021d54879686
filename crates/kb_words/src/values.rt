//! The values of options, as `clap`'s matches give them.
ghost use Rattle.std.specs.Prelude.{◌≡◌, option_and_then, option_map, map, string_bytes, IfOk, []};
ghost use Rattle.kb_days.specs.DateText.{read_day};
ghost use Rattle.kb_words.specs.Values.{kind_of};
ghost use Rattle.kb_words.specs.Grammar.{apply_words, bill_words, command_words, init_words};
ghost use Rattle.kb_words.specs.Grammar.{make_words, number, report_words, serve_words};
ghost use Rattle.kb_words.specs.Private.Parsed.{faults_of, matched_value, parsed_value};
ghost use Rattle.kb_words.specs.Private.Reading.{IsRead};

use crate::matches::matches_of;
use crate::number::number_in;
use crate::read::WordsFault;
use crate::report_kind::{ReportKind, kind_of};
use crate::setting::Setting;
use crate::text::Text;
use crate::verb::Verb;
use crate::within::Within;
use crate::words::{Apply, Bill, Init, Make, Report, Serve, Words};
use clap::ArgMatches;
use kb_base::NoMemory;
use kb_days::{Day, parse};
use std::alloc::Global;

/// What a command says with words that `clap` reads.
pub fn parsed_words(alloc: Global, verb: Verb, words: &[String]) -> Result<Words, WordsFault>
    ensures { faults_of verb (map string_bytes words.now) ≡ []
        → IsRead (command_words verb (parsed_value verb (map string_bytes words.now))) result }
{
    match matches_of(alloc, verb, words) {
        Ok(matches) => command_words(alloc, verb, &matches),
        Err(fault) => Err(fault),
    }
}

/// A command with the values of its options.
fn command_words(alloc: Global, verb: Verb, matches: &ArgMatches<'_>) -> Result<Words, WordsFault>
    ensures { IsRead (command_words verb (matched_value matches.now)) result }
{
    match verb {
        Verb::Init => init_words(alloc, matches),
        Verb::Apply => apply_words(alloc, matches),
        Verb::Bill => bill_words(alloc, matches),
        Verb::Serve => serve_words(alloc, matches),
        Verb::Report => report_words(alloc, matches),
        Verb::Make => make_words(matches),
    }
}

#[tactic(auto, unfolding(crate::specs::Grammar::init_words))]
fn init_words(alloc: Global, matches: &ArgMatches<'_>) -> Result<Words, WordsFault>
    ensures { IsRead (init_words (matched_value matches.now)) result }
{
    let dir = text(alloc, matches, Setting::Dir)?;
    let lanes = number(matches, Setting::Lanes)?;
    let catalog = text(alloc, matches, Setting::Catalog)?;
    let overdue = text(alloc, matches, Setting::Overdue)?;
    Ok(Words::Init(Init {
        dir,
        lanes,
        catalog,
        overdue,
    }))
}

#[tactic(auto, unfolding(crate::specs::Grammar::apply_words))]
fn apply_words(alloc: Global, matches: &ArgMatches<'_>) -> Result<Words, WordsFault>
    ensures { IsRead (apply_words (matched_value matches.now)) result }
{
    let dir = text(alloc, matches, Setting::Dir)?;
    let gateway = optional_text(alloc, matches, Setting::Gateway)?;
    Ok(Words::Apply(Apply { dir, gateway }))
}

#[tactic(auto, unfolding(crate::specs::Grammar::bill_words))]
fn bill_words(alloc: Global, matches: &ArgMatches<'_>) -> Result<Words, WordsFault>
    ensures { IsRead (bill_words (matched_value matches.now)) result }
{
    let dir = text(alloc, matches, Setting::Dir)?;
    let day = day(matches, Setting::Day)?;
    let workers = number(matches, Setting::Workers)?;
    let gateway = optional_text(alloc, matches, Setting::Gateway)?;
    Ok(Words::Bill(Bill {
        dir,
        day,
        workers,
        gateway,
    }))
}

#[tactic(auto, unfolding(crate::specs::Grammar::serve_words))]
fn serve_words(alloc: Global, matches: &ArgMatches<'_>) -> Result<Words, WordsFault>
    ensures { IsRead (serve_words (matched_value matches.now)) result }
{
    let dir = text(alloc, matches, Setting::Dir)?;
    let port = number(matches, Setting::Port)?;
    let workers = number(matches, Setting::Workers)?;
    let bus = number(matches, Setting::Bus)?;
    let connections = number(matches, Setting::Connections)?;
    let gateway = optional_text(alloc, matches, Setting::Gateway)?;
    Ok(Words::Serve(Serve {
        dir,
        port,
        workers,
        bus,
        connections,
        gateway,
    }))
}

#[tactic(auto, unfolding(crate::specs::Grammar::report_words))]
fn report_words(alloc: Global, matches: &ArgMatches<'_>) -> Result<Words, WordsFault>
    ensures { IsRead (report_words (matched_value matches.now)) result }
{
    let dir = text(alloc, matches, Setting::Dir)?;
    let kind = kind(matches, Setting::Kind)?;
    let day = day(matches, Setting::Day)?;
    Ok(Words::Report(Report { dir, kind, day }))
}

#[tactic(auto, unfolding(crate::specs::Grammar::make_words))]
fn make_words(matches: &ArgMatches<'_>) -> Result<Words, WordsFault>
    ensures { IsRead (make_words (matched_value matches.now)) result }
{
    let seed = number(matches, Setting::Seed)?;
    let accounts = number(matches, Setting::Accounts)?;
    let months = number(matches, Setting::Months)?;
    Ok(Words::Make(Make {
        seed,
        accounts,
        months,
    }))
}

/// The value of an option, if it has one.
fn value<'a>(matches: &ArgMatches<'a>, setting: Setting) -> Option<&'a str>
    ensures { option_map (λ text. text.now) result ≡ matched_value matches.now setting }
{
    matches.get_str(setting.name())
}

/// The text of an option.
fn text(alloc: Global, matches: &ArgMatches<'_>, setting: Setting) -> Result<Text, WordsFault>
    ensures { IsRead (matched_value matches.now setting) result }
{
    match value(matches, setting) {
        Some(text) => Ok(Text::new(alloc, text)?),
        None => Err(WordsFault::Words),
    }
}

/// The text of an option, if it is there.
fn optional_text(
    alloc: Global,
    matches: &ArgMatches<'_>,
    setting: Setting,
) -> Result<Option<Text>, NoMemory>
    ensures { IfOk result (λ text. text ≡ matched_value matches.now setting) }
{
    match value(matches, setting) {
        Some(text) => Ok(Some(Text::new(alloc, text)?)),
        None => Ok(None),
    }
}

/// The number of an option, in its range.
fn number<const LEAST: u32, const MOST: u32>(
    matches: &ArgMatches<'_>,
    setting: Setting,
) -> Result<Within<LEAST, MOST>, WordsFault>
    ensures { IsRead (number LEAST MOST (matched_value matches.now setting)) result }
{
    match value(matches, setting) {
        Some(text) => number_in(text).ok_or(WordsFault::Words),
        None => Err(WordsFault::Words),
    }
}

/// The day of an option.
fn day(matches: &ArgMatches<'_>, setting: Setting) -> Result<Day, WordsFault>
    ensures { IsRead (option_and_then read_day (matched_value matches.now setting)) result }
{
    match value(matches, setting) {
        Some(text) => parse(text.as_bytes()).ok().ok_or(WordsFault::Words),
        None => Err(WordsFault::Words),
    }
}

/// The kind of report of an option.
fn kind(matches: &ArgMatches<'_>, setting: Setting) -> Result<ReportKind, WordsFault>
    ensures { IsRead (option_and_then kind_of (matched_value matches.now setting)) result }
{
    match value(matches, setting) {
        Some(word) => kind_of(word).ok_or(WordsFault::Words),
        None => Err(WordsFault::Words),
    }
}
