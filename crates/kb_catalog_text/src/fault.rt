//! Why a text is refused.
ghost use Rattle.std.specs.Prelude.{◌≡◌};
ghost use Rattle.kb_catalog_text.specs.Texts.{fault_at, fault_number};

use crate::key_fault::KeyFault;
use crate::reading::MAX_BYTES;
use kb_base::Seq;
use thiserror::Error;

/// Why a text is refused: the first fault in the order of its tables and keys. A key is given as its own
/// bytes.
#[derive(Debug, Drop, Error)]
pub enum TextFault {
    /// 1: it isn't TOML.
    #[error("the text isn't TOML: correct what a TOML reader complains of")]
    NotToml,
    /// 2: a key is missing.
    #[error("the key '{}' is missing: add it", in_words(.0))]
    Missing(Seq<u8>),
    /// 3: the value at a key is of another kind, or outside its range.
    #[error("the value at the key '{}' is of another kind or out of range: correct it", in_words(.0))]
    WrongKind(Seq<u8>),
    /// 4: a key isn't known in its table.
    #[error("the key '{}' isn't known in its table: take it out, or spell it otherwise", in_words(.0))]
    Unknown(Seq<u8>),
    /// 5: a rule of what the text says is broken: the number of the rule, and the place of its first
    /// offender.
    #[error("rule {0} is broken, first at place {1} from 0 of what it speaks of: correct what stands there")]
    Rule(u32, u32),
    /// 6: memory ran out.
    #[error("out of memory")]
    Memory,
    /// 7: it has more than `MAX_BYTES` bytes: how many.
    #[error("the text has {} bytes: shorten it to {}", .0, MAX_BYTES)]
    TooLong(u64),
}

impl TextFault {
    /// The number of the fault: 1 to 7.
    pub fn number(&self) -> u32
        ensures { result ≡ fault_number self.now }
    {
        match self {
            TextFault::NotToml => 1,
            TextFault::Missing(_) => 2,
            TextFault::WrongKind(_) => 3,
            TextFault::Unknown(_) => 4,
            TextFault::Rule(_, _) => 5,
            TextFault::Memory => 6,
            TextFault::TooLong(_) => 7,
        }
    }
}

/// A key as it is told.
fn in_words(key: &Seq<u8>) -> &str {
    std::str::from_utf8(key.as_slice()).unwrap_or("?")
}

impl From<KeyFault> for TextFault {
    ghost from_gives = { λ key fault. fault ≡ fault_at key };

    fn from(fault: KeyFault) -> TextFault {
        match fault {
            KeyFault::Missing(key) => TextFault::Missing(key),
            KeyFault::WrongKind(key) => TextFault::WrongKind(key),
            KeyFault::Unknown(key) => TextFault::Unknown(key),
            KeyFault::Memory => TextFault::Memory,
        }
    }
}
