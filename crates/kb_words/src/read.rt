//! Reading the words of a command line.
ghost use Rattle.std.specs.Prelude.{◌≡◌, ◌↔◌, map, string_bytes, Err, IfOk, None, Some};
ghost use Rattle.kb_words.specs.Options.{word_of};
ghost use Rattle.kb_words.specs.Grammar.{options_words, words_of, words_with};
ghost use Rattle.kb_words.specs.Private.Reading.{IsRead};

use crate::given::{Given, are_options_of};
use crate::options::options_of;
use crate::values::parsed_words;
use crate::verb::{Verb, verb_of};
use crate::words::Words;
use crate::written::written_of;
use kb_base::NoMemory;
use std::alloc::Global;
use std::error::Error;
use std::fmt;

/// Why words aren't read.
#[derive(Clone, Copy, Debug, PartialEq, Eq)]
pub enum WordsFault {
    /// The words aren't in the grammar.
    Words,
    /// Memory ran out.
    NoMemory,
}

impl From<NoMemory> for WordsFault {
    ghost use Rattle.kb_words.specs.declared.read.WordsFault.TheVariants.{NoMemory};

    ghost from_gives = { λ _ fault. fault ≡ NoMemory };

    fn from(_: NoMemory) -> WordsFault {
        WordsFault::NoMemory
    }
}

impl fmt::Display for WordsFault {
    fn fmt<W: fmt::Write>(&self, f: &mut fmt::Formatter<W>) -> fmt::Result {
        f.write_str(match self {
            WordsFault::Words => "the words aren't in the grammar",
            WordsFault::NoMemory => "out of memory",
        })
    }
}

impl Error for WordsFault {}

/// What the words of a command line say, which are those behind the program's name.
#[tactic(auto, unfolding(crate::specs::Grammar::words_of))]
pub fn read_words(alloc: Global, words: &Vec<String>) -> Result<Words, WordsFault>
    ensures read { IfOk result (λ read. words_of (map string_bytes words.now.items) ≡ Some read) }
    ensures refused { (result ≡ Err WordsFault.NoMemory → ⊥)
        → ((result ≡ Err WordsFault.Words) ↔ (words_of (map string_bytes words.now.items) ≡ None)) }
{
    let Some((command, options)) = words.split_first() else {
        return Err(WordsFault::Words);
    };
    let Some(verb) = verb_of(command.as_str()) else {
        return Err(WordsFault::Words);
    };
    read_options(alloc, verb, options)
}

/// What a command says with the words behind it.
fn read_options(alloc: Global, verb: Verb, words: &[String]) -> Result<Words, WordsFault>
    ensures { IsRead (options_words verb (map word_of (map string_bytes words.now))) result }
{
    let options = options_of(alloc, words)?;
    words_with(alloc, verb, options.as_slice())
}

/// What a command says with these options.
fn words_with(alloc: Global, verb: Verb, options: &[Given]) -> Result<Words, WordsFault>
    ensures { IsRead (words_with verb options.now) result }
{
    if !are_options_of(verb, options) {
        return Err(WordsFault::Words);
    }
    let words = written_of(alloc, verb.settings(), options)?;
    parsed_words(alloc, verb, words.as_slice())
}
