//! Words one by one.
ghost use Rattle.std.specs.Prelude.{◌≡◌, if◌then◌else◌};
ghost use Rattle.kb_words.specs.Values.{is_value};
ghost use Rattle.kb_words.specs.Options.{option_word, whole_word, opening_word, word_of, value, other};
ghost use Rattle.kb_words.specs.Tokens.{seen_word};

use crate::setting::{Setting, setting_of};

/// What a word behind the command is.
pub enum Token<'a> {
    /// An option with its value, `--name=VALUE`.
    Whole(Setting, &'a str),
    /// An option whose value is the next word, `--name`.
    Opening(Setting),
    /// A value.
    Value(&'a str),
    /// None of these.
    Other,
}

/// What a word is.
#[tactic(auto, unfolding(crate::specs::Options::word_of))]
pub fn word_of(text: &str) -> Token<'_>
    ensures { seen_word result ≡ word_of text.now }
{
    match text.strip_prefix("--") {
        Some(option) => option_word(option),
        None => value_word(text),
    }
}

/// What a word is that doesn't begin with `--`.
fn value_word(text: &str) -> Token<'_>
    ensures { seen_word result ≡ (if is_value text.now then value text.now else other) }
{
    if is_value(text) {
        Token::Value(text)
    } else {
        Token::Other
    }
}

/// What a word is, by what stands behind its `--`.
fn option_word(text: &str) -> Token<'_>
    ensures { seen_word result ≡ option_word text.now }
{
    match text.split_once('=') {
        Some((name, value)) => whole_word(setting_of(name), value),
        None => opening_word(setting_of(text)),
    }
}

/// An option with its value.
fn whole_word(setting: Option<Setting>, value: &str) -> Token<'_>
    ensures { seen_word result ≡ whole_word setting value.now }
{
    match setting {
        Some(setting) if is_value(value) => Token::Whole(setting, value),
        _ => Token::Other,
    }
}

/// An option whose value is the next word.
fn opening_word<'a>(setting: Option<Setting>) -> Token<'a>
    ensures { seen_word result ≡ opening_word setting }
{
    match setting {
        Some(setting) => Token::Opening(setting),
        None => Token::Other,
    }
}

/// Whether a text may be a value.
pub fn is_value(text: &str) -> bool
    ensures { result ≡ is_value text.now }
{
    match text.as_bytes() {
        [] => false,
        [first, ..] => *first != b'-',
    }
}
