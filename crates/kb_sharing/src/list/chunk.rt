//! The chunks of a list: members that lie side by side.
ghost use Rattle.std.specs.Prelude.{◌≡◌, ◌<◌, ◌↔◌, ◌++◌, ◌∷◌, [], length, set, IsTrue};
ghost use Rattle.std.specs.Prelude.{slice_get, option_copied, IfOk};
ghost use Rattle.kb_sharing.specs.Private.Chunks.{chunk_size};

use kb_base::NoMemory;
use std::alloc::Global;
use std::marker::Model;

/// How many members a full chunk has.
pub(super) const CHUNK: u64 = 16;

/// Some members, with no more room than they take.
#[derive(Drop)]
pub(super) struct Chunk<T> {
    members: Vec<T>,
}

impl<T> Model for Chunk<T> {
    ghost use Rattle.std.specs.Prelude.{List};

    ghost Value = { List T };

    ghost view = { λ chunk. chunk.members.items };
}

impl<T> Chunk<T> {
    /// The chunk of one member.
    pub(super) fn one(alloc: Global, member: T) -> Result<Chunk<T>, NoMemory>
    where
        T: Copy,
        ensures { IfOk result (λ chunk. chunk ≡ member ∷ []) }
    {
        let mut members = Vec::with_capacity(alloc, 1)?;
        members.push(member)?;
        Ok(Chunk { members })
    }

    /// The member at a place.
    pub(super) fn at(&self, place: u64) -> Option<&T>
        ensures { option_copied result ≡ slice_get self.now place }
    {
        self.members.as_slice().get(place as usize)
    }

    /// Whether it is as long as each chunk in the trees.
    pub(super) fn is_full(&self) -> bool
        ensures { IsTrue result ↔ (length self.now ≡ chunk_size) }
    {
        self.members.len() as u64 == CHUNK
    }

    /// The chunk with another member behind its last one.
    pub(super) fn push(&self, alloc: Global, member: T) -> Result<Chunk<T>, NoMemory>
    where
        T: Copy,
        requires room { length self.now < chunk_size }
        ensures { IfOk result (λ longer. longer ≡ self.now ++ member ∷ []) }
    {
        let mut members = Vec::with_capacity(alloc, self.members.len() + 1)?;
        members.extend_from_slice(self.members.as_slice())?;
        members.push(member)?;
        Ok(Chunk { members })
    }

    /// The chunk with another member at a place.
    pub(super) fn replace(&self, alloc: Global, place: u64, member: T) -> Result<Chunk<T>, NoMemory>
    where
        T: Copy,
        requires there { place < length self.now }
        ensures { IfOk result (λ changed. changed ≡ set self.now place member) }
    {
        let mut members = Vec::from_slice(alloc, self.members.as_slice())?;
        members[place as usize] = member;
        Ok(Chunk { members })
    }
}
