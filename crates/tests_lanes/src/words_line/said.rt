//! What is read of words.

use kb_words::read_words;
use std::alloc::{AllocError, Global};

/// Words that stand with one blank between, where `''` is a word without a byte.
pub fn words_of(alloc: Global, line: &str) -> Result<Vec<String>, AllocError> {
    let mut words = Vec::new(alloc);
    for word in line.split(' ') {
        let text = if word == "''" { "" } else { word };
        words.push(String::from_str(alloc, text)?)?;
    }
    Ok(words)
}

/// What is read of such words.
pub fn said(alloc: Global, line: &str) -> Result<String, AllocError> {
    let words = words_of(alloc, line)?;
    let read = read_words(alloc, &words);
    format!(in alloc; "{read:?}")
}
