//! What lies behind the last full chunk of a list.
ghost use Rattle.std.specs.Prelude.{◌≡◌, ◌<◌, ◌++◌, ◌∷◌, [], length, set, slice_get, option_copied, IfOk};
ghost use Rattle.kb_sharing.specs.Private.Chunks.{chunk_size};

use super::chunk::Chunk;
use kb_base::NoMemory;
use std::alloc::Global;
use std::marker::Model;
use std::sync::Arc;

/// The last members of a list. While there is none, it takes no memory.
#[derive(Drop)]
pub(super) struct Tail<T> {
    chunk: Option<Arc<Chunk<T>>>,
}

impl<T> Model for Tail<T> {
    ghost use Rattle.std.specs.Prelude.{List};
    ghost use Rattle.kb_sharing.specs.Private.Chunks.{tail_members};

    ghost Value = { List T };

    ghost view = { λ tail. tail_members tail.chunk };
}

impl<T> Tail<T> {
    /// The tail without a member.
    pub(super) fn new() -> Tail<T>
        ensures { result ≡ [] }
    {
        Tail { chunk: None }
    }

    /// The tail that has the members of a chunk.
    pub(super) fn of(alloc: Global, chunk: Chunk<T>) -> Result<Tail<T>, NoMemory>
    where
        T: Drop,
        ensures { IfOk result (λ tail. tail ≡ chunk) }
    {
        let chunk = Arc::new(alloc, chunk)?;
        Ok(Tail { chunk: Some(chunk) })
    }

    /// The member at a place.
    pub(super) fn at(&self, place: u64) -> Option<&T>
        ensures { option_copied result ≡ slice_get self.now place }
    {
        match &self.chunk {
            None => None,
            Some(chunk) => chunk.at(place),
        }
    }

    /// The chunk of the members and another one behind them.
    pub(super) fn push(&self, alloc: Global, member: T) -> Result<Chunk<T>, NoMemory>
    where
        T: Copy,
        requires room { length self.now < chunk_size }
        ensures { IfOk result (λ longer. longer ≡ self.now ++ member ∷ []) }
    {
        match &self.chunk {
            None => Chunk::one(alloc, member),
            Some(chunk) => chunk.push(alloc, member),
        }
    }

    /// The tail with another member at a place.
    pub(super) fn replace(&self, alloc: Global, place: u64, member: T) -> Result<Tail<T>, NoMemory>
    where
        T: Copy,
        requires there { place < length self.now }
        ensures { IfOk result (λ changed. changed ≡ set self.now place member) }
    {
        match &self.chunk {
            None => Ok(Tail::new()),
            Some(chunk) => Tail::of(alloc, chunk.replace(alloc, place, member)?),
        }
    }

    /// The same tail.
    pub(super) fn share(&self) -> Result<Tail<T>, NoMemory>
    where
        T: Drop,
        ensures { IfOk result (λ same. same ≡ self.now) }
    {
        match &self.chunk {
            None => Ok(Tail::new()),
            Some(chunk) => Ok(Tail {
                chunk: Some(Arc::try_clone(chunk)?),
            }),
        }
    }
}
