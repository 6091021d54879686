//! A text, in memory.
ghost use Rattle.std.specs.Prelude.{◌≡◌, take, bytes_eq, option_map, IfOk, string_bytes};
ghost use Rattle.std.specs.List.{find};
ghost use Rattle.kb_disk.specs.VaultMemory.{text_of};

use crate::vault::MAX_FILE;
use std::alloc::{AllocError, Global};
use std::marker::Model;

/// A text, in memory, by its name.
#[derive(Drop)]
pub struct TextFile {
    name: String,
    bytes: Vec<u8>,
}

impl Model for TextFile {
    ghost use Rattle.std.specs.Prelude.{string_bytes};
    ghost use Rattle.kb_disk.specs.VaultMemory.{TextValue};

    ghost Value = { TextValue };

    ghost view = { λ text. record { name = string_bytes text.name; bytes = text.bytes.items } };
}

impl TextFile {
    /// A text of this name.
    pub fn new(name: String, bytes: Vec<u8>) -> TextFile
        ensures { result ≡ record { name = string_bytes name; bytes = bytes.items } }
    {
        TextFile { name, bytes }
    }

    /// Whether it has this name.
    fn is_named(&self, name: &str) -> bool
        ensures { result ≡ bytes_eq self.now.name name.now }
    {
        self.name.as_str() == name
    }

    /// Its first bytes, at most `MAX_FILE`.
    #[tactic(auto, using(std::proofs::lemmas::List::take_min))]
    fn first_bytes(&self, alloc: Global) -> Result<Vec<u8>, AllocError>
        ensures { IfOk result (λ bytes. bytes.items ≡ take MAX_FILE self.now.bytes) }
    {
        self.bytes[..MAX_FILE.min(self.bytes.len())].to_vec(alloc)
    }
}

/// The first bytes of a text of this name, at most `MAX_FILE`.
pub fn first_bytes(alloc: Global, texts: &[TextFile], name: &str) -> Result<Vec<u8>, AllocError>
    ensures { IfOk result (λ bytes. bytes.items ≡ take MAX_FILE (text_of texts.now name.now)) }
{
    match named(texts, name) {
        Some(text) => text.first_bytes(alloc),
        None => Ok(Vec::new(alloc)),
    }
}

/// The text of this name.
fn named<'a>(texts: &'a [TextFile], name: &str) -> Option<&'a TextFile>
    ensures { option_map (λ text. text.now) result
        ≡ find (λ text. bytes_eq text.name name.now) texts.now }
{
    texts.iter().find(|text| text.is_named(name))
}
