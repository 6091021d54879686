//! Lists that grow at their end and share what stays.
ghost use Rattle.std.specs.Prelude.{◌≡◌, ◌<◌, ◌++◌, ◌∷◌, [], length, set, slice_get, option_copied, IfOk};

mod chunk;
mod spine;
mod tail;
mod tree;

use chunk::{CHUNK, Chunk};
use kb_base::NoMemory;
use spine::Spine;
use std::alloc::Global;
use std::marker::Model;
use tail::Tail;

/// A list that grows at its end and shares what stays.
///
/// Its members lie in chunks of `CHUNK`, which lie in trees, and the last ones in a tail. So a push copies
/// fewer members than a chunk has and takes the same time at any size, and `get` and `replace` take a time
/// that grows with the logarithm of the size.
pub struct SharedList<T> {
    chunks: Spine<Chunk<T>>,
    tail: Tail<T>,
    len: u64,
}

impl<T> Model for SharedList<T> {
    ghost use Rattle.std.specs.Prelude.{List, ◌++◌};
    ghost use Rattle.kb_sharing.specs.Private.Chunks.{chunk_members, chunk_size, IsChunked};
    ghost use Rattle.kb_sharing.specs.Private.Trees.{spine_members, IsSpine};

    ghost Value = { List T };

    ghost view = { λ list. chunk_members (spine_members list.chunks) ++ list.tail };

    ghost invariant = { λ list. IsSpine list.chunks
        × IsChunked chunk_size (spine_members list.chunks) list.tail list.len };
}

impl<T: Drop> Drop for SharedList<T> {
    /// Drops what no other list shares. No crate above has to show again how that is dropped.
    fn drop(self) {
        let SharedList {
            chunks: _chunks,
            tail: _tail,
            len: _len,
        } = self;
    }
}

impl<T> SharedList<T> {
    /// A list without a member. It takes no memory.
    pub fn new() -> SharedList<T>
        ensures { result ≡ [] }
    {
        SharedList {
            chunks: Spine::Empty,
            tail: Tail::new(),
            len: 0,
        }
    }

    /// How many members there are.
    pub fn len(&self) -> u64
        ensures { result ≡ length self.now }
    {
        self.len
    }

    /// The member at a place, from 0.
    pub fn get(&self, place: u64) -> Option<&T>
        ensures { option_copied result ≡ slice_get self.now place }
    {
        let full = self.len - self.len % CHUNK;
        if place < full {
            self.chunks.at(place / CHUNK)?.at(place % CHUNK)
        } else {
            self.tail.at(place - full)
        }
    }

    /// The list with another member behind its last one.
    pub fn push(&self, alloc: Global, member: T) -> Result<SharedList<T>, NoMemory>
    where
        T: Copy,
        ensures { IfOk result (λ longer. longer ≡ self.now ++ member ∷ []) }
    {
        let len = self.len.checked_add(1).ok_or(NoMemory)?;
        let last = self.tail.push(alloc, member)?;
        if last.is_full() {
            let chunks = self.chunks.push(alloc, self.len / CHUNK, last)?;
            let tail = Tail::new();
            return Ok(SharedList { chunks, tail, len });
        }
        let tail = Tail::of(alloc, last)?;
        let chunks = self.chunks.share()?;
        Ok(SharedList { chunks, tail, len })
    }

    /// The list with another member at a place, from 0.
    pub fn replace(&self, alloc: Global, place: u64, member: T) -> Result<SharedList<T>, NoMemory>
    where
        T: Copy,
        requires there { place < length self.now }
        ensures { IfOk result (λ changed. changed ≡ set self.now place member) }
    {
        let full = self.len - self.len % CHUNK;
        let len = self.len;
        if place < full {
            let Some(chunk) = self.chunks.at(place / CHUNK) else {
                unreachable!()
            };
            let changed = chunk.replace(alloc, place % CHUNK, member)?;
            let chunks = self.chunks.replace(alloc, place / CHUNK, changed)?;
            let tail = self.tail.share()?;
            Ok(SharedList { chunks, tail, len })
        } else {
            let tail = self.tail.replace(alloc, place - full, member)?;
            let chunks = self.chunks.share()?;
            Ok(SharedList { chunks, tail, len })
        }
    }

    /// The same list. It shares all members.
    pub fn share(&self) -> Result<SharedList<T>, NoMemory>
    where
        T: Drop,
        ensures { IfOk result (λ same. same ≡ self.now) }
    {
        let chunks = self.chunks.share()?;
        let tail = self.tail.share()?;
        let len = self.len;
        Ok(SharedList { chunks, tail, len })
    }
}
