//! The options that words give.
ghost use Rattle.std.specs.Prelude.{◌≡◌, ◌∷◌, List, map, string_bytes, Err, IfOk, OnOk, None, Some, ◌++◌, []};
ghost use Rattle.kb_words.specs.Options.{Word, options_of, word_of};
ghost use Rattle.kb_words.specs.Private.Words.{options_with};
ghost use Rattle.kb_words.specs.Tokens.{seen_word};
ghost use Rattle.kb_words.specs.declared.read.WordsFault.TheVariants.{Words};

use crate::given::Given;
use crate::read::WordsFault;
use crate::setting::Setting;
use crate::text::Text;
use crate::word::{Token, word_of};
use kb_base::NoMemory;
use std::alloc::Global;

/// The options that words give, in their order.
pub fn options_of(alloc: Global, words: &[String]) -> Result<Vec<Given>, WordsFault>
    ensures read { IfOk result (λ options.
        options_of (map word_of (map string_bytes words.now)) ≡ Some options.items) }
    ensures refused { result ≡ Err Words
        → options_of (map word_of (map string_bytes words.now)) ≡ None }
{
    let mut options = Vec::new(alloc);
    let mut waiting = None;
    for word in words {
        waiting = take_word(alloc, &mut options, waiting, word_of(word.as_str()))?;
    }
    match waiting {
        None => Ok(options),
        Some(_) => Err(WordsFault::Words),
    }
}

/// Takes one more word, where an option may wait for its value, and gives the option that waits then.
fn take_word(
    alloc: Global,
    options: &mut Vec<Given>,
    waiting: Option<Setting>,
    word: Token<'_>,
) -> Result<Option<Setting>, WordsFault>
    ensures read { IfOk result (λ next. (words : List Word) →
        options_with options.old.items waiting (seen_word word.entry ∷ words)
        ≡ options_with options.new.items next words) }
    ensures refused { result ≡ Err Words → (words : List Word) →
        options_with options.old.items waiting (seen_word word.entry ∷ words) ≡ None }
{
    match waiting {
        None => match word {
            Token::Whole(setting, value) => {
                add(alloc, options, setting, value)?;
                Ok(None)
            }
            Token::Opening(setting) => Ok(Some(setting)),
            Token::Value(_) => Err(WordsFault::Words),
            Token::Other => Err(WordsFault::Words),
        },
        Some(setting) => match word {
            Token::Whole(_, _) => Err(WordsFault::Words),
            Token::Opening(_) => Err(WordsFault::Words),
            Token::Value(value) => {
                add(alloc, options, setting, value)?;
                Ok(None)
            }
            Token::Other => Err(WordsFault::Words),
        },
    }
}

/// Adds an option with its value.
fn add(
    alloc: Global,
    options: &mut Vec<Given>,
    setting: Setting,
    value: &str,
) -> Result<(), NoMemory>
    ensures { OnOk result (options.new.items
        ≡ options.old.items ++ (record { setting = setting; value = value.now }) ∷ []) }
{
    let value = Text::new(alloc, value)?;
    options.push(Given { setting, value })?;
    Ok(())
}
