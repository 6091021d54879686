//! Words in the fields of a head.
ghost use Rattle.std.specs.Prelude.{◌≡◌, codes, reverse};
ghost use Rattle.std.specs.List.{list_any};
ghost use Rattle.httparse.specs.Grammar.{skip_ows, trim_ows};
ghost use Rattle.kb_http.specs.Words.{is_word, words_of};

use crate::pieces::first_piece;

/// Whether two words are the same but for the case of ASCII letters.
pub fn is_word(word: &[u8], other: &[u8]) -> bool
    ensures { result ≡ is_word word.now other.now }
{
    word.eq_ignore_ascii_case(other)
}

/// Whether the word 'close' is in a list of words.
pub fn lists_close(text: &[u8]) -> bool
    ensures { result ≡ list_any (λ word. is_word word (codes "close")) (words_of text.now) }
{
    let mut text = text;
    loop {
        let (word, rest) = first_piece(text, b',');
        if is_word(trim(word), b"close") {
            return true;
        }
        match rest {
            None => return false,
            Some(rest) => text = rest,
        }
    }
}

/// A text without the spaces and tabs around it.
#[tactic(auto, unfolding(httparse::specs::Grammar::trim_ows))]
fn trim(text: &[u8]) -> &[u8]
    ensures { result.now ≡ trim_ows text.now }
{
    trim_end(trim_start(text))
}

fn trim_start(text: &[u8]) -> &[u8]
    ensures { result.now ≡ skip_ows text.now }
{
    let mut text = text;
    while let [b' ' | b'\t', rest @ ..] = text {
        text = rest;
    }
    text
}

fn trim_end(text: &[u8]) -> &[u8]
    ensures { result.now ≡ reverse (skip_ows (reverse text.now)) }
{
    let mut text = text;
    while let [rest @ .., b' ' | b'\t'] = text {
        text = rest;
    }
    text
}
