//! Words given to `clap`.
ghost use Rattle.std.specs.Prelude.{◌≡◌, ◌≢◌, [], map, string_bytes, false, Err, IfOk};
ghost use Rattle.clap.specs.Words.{app_of, kind_of, rule_of};
ghost use Rattle.clap.specs.declared.error.kind.ErrorKind.TheVariants.{OutOfMemory};
ghost use Rattle.kb_words.specs.declared.read.WordsFault.TheVariants.{Words};
ghost use Rattle.kb_words.specs.Private.Parsed.{HasValues, app_for, faults_of, rule_for};

use crate::read::WordsFault;
use crate::setting::Setting;
use crate::verb::Verb;
use clap::error::ErrorKind;
use clap::{Arg, ArgMatches, Command, Error};
use kb_base::NoMemory;
use std::alloc::Global;

/// What `clap` makes of the words behind a command, each of which is `--name=VALUE`.
pub fn matches_of<'a>(
    alloc: Global,
    verb: Verb,
    words: &'a [String],
) -> Result<ArgMatches<'a>, WordsFault>
    ensures read { IfOk result (HasValues verb (map string_bytes words.entry.now)) }
    ensures refused { result ≡ Err Words → faults_of verb (map string_bytes words.entry.now) ≢ [] }
{
    let command = command_for(alloc, verb)?;
    match command.try_get_matches_from(words) {
        Ok(matches) => Ok(matches),
        Err(error) => Err(fault_of(&error)),
    }
}

/// Whether `clap` lacked memory, or refused the words.
fn fault_of(error: &Error) -> WordsFault
    ensures { result ≡ Words → kind_of error.now ≢ OutOfMemory }
{
    match error.kind() {
        ErrorKind::OutOfMemory => WordsFault::NoMemory,
        _ => WordsFault::Words,
    }
}

/// The command line of a command.
fn command_for<'a>(alloc: Global, verb: Verb) -> Result<Command<'a>, NoMemory>
    ensures { IfOk result (λ command. app_of command ≡ app_for verb) }
{
    let word: &'a str = verb.word();
    let mut command = Command::new(alloc, word).no_binary_name(true);
    for setting in verb.settings() {
        command = command.arg(option(alloc, *setting))?;
    }
    Ok(command)
}

/// An option.
fn option<'a>(alloc: Global, setting: Setting) -> Arg<'a>
    ensures rule { rule_of result ≡ rule_for setting }
    ensures local { result.global ≡ false }
{
    let name: &'a str = setting.name();
    Arg::new(alloc, name)
        .long(name)
        .required(!setting.may_be_missing())
}
