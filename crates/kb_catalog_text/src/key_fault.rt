//! What is wrong at a key.
ghost use Rattle.std.specs.Prelude.{◌≡◌, IfOk};
ghost use Rattle.kb_catalog_text.specs.Reads.{IsTold};

use kb_base::{NoMemory, Seq};
use std::alloc::{AllocError, Global};

/// What is wrong at a key of a table, which is given as its own bytes; or memory ran out.
#[derive(Debug, Drop)]
pub enum KeyFault {
    /// A key is missing.
    Missing(Seq<u8>),
    /// The value at a key is of another kind, or outside its range.
    WrongKind(Seq<u8>),
    /// A key isn't known in its table.
    Unknown(Seq<u8>),
    /// Memory ran out.
    Memory,
}

impl From<AllocError> for KeyFault {
    ghost use Rattle.kb_catalog_text.specs.declared.key_fault.KeyFault.TheVariants.{Memory};

    ghost from_gives = { λ _ fault. fault ≡ Memory };

    fn from(_: AllocError) -> KeyFault {
        KeyFault::Memory
    }
}

impl From<NoMemory> for KeyFault {
    ghost use Rattle.kb_catalog_text.specs.declared.key_fault.KeyFault.TheVariants.{Memory};

    ghost from_gives = { λ _ fault. fault ≡ Memory };

    fn from(_: NoMemory) -> KeyFault {
        KeyFault::Memory
    }
}

impl KeyFault {
    /// The fault that a key is missing, or want of memory.
    pub fn missing(alloc: Global, key: &str) -> KeyFault
        ensures { IsTold result (KeyFault.Missing key.now) }
    {
        match copied(alloc, key) {
            Ok(key) => KeyFault::Missing(key),
            Err(_) => KeyFault::Memory,
        }
    }

    /// The fault that the value at a key is of another kind, or want of memory.
    pub fn wrong_kind(alloc: Global, key: &str) -> KeyFault
        ensures { IsTold result (KeyFault.WrongKind key.now) }
    {
        match copied(alloc, key) {
            Ok(key) => KeyFault::WrongKind(key),
            Err(_) => KeyFault::Memory,
        }
    }

    /// The fault that a key isn't known, or want of memory.
    pub fn unknown(alloc: Global, key: &str) -> KeyFault
        ensures { IsTold result (KeyFault.Unknown key.now) }
    {
        match copied(alloc, key) {
            Ok(key) => KeyFault::Unknown(key),
            Err(_) => KeyFault::Memory,
        }
    }
}

/// A copy of the bytes of a key.
fn copied(alloc: Global, key: &str) -> Result<Seq<u8>, NoMemory>
    ensures { IfOk result (λ copy. copy ≡ key.now) }
{
    Ok(Seq::from_vec(key.as_bytes().to_vec(alloc)?))
}
