//! The trees of a list, from the last one on.
ghost use Rattle.std.specs.Prelude.{◌≡◌, ◌<◌, ◌+◌, ◌-◌, ◌^◌, ◌*◌, ◌++◌, ◌∷◌, [], length, set};
ghost use Rattle.std.specs.Prelude.{slice_get, option_copied, IfOk};
ghost use Rattle.kb_sharing.specs.Private.Trees.{spine_members, IsSpine};

use super::tree::Tree;
use kb_base::NoMemory;
use std::alloc::Global;
use std::sync::Arc;

/// No tree, or some trees, how many members they have, the size of the last tree, and that tree.
#[derive(Drop)]
pub(super) enum Spine<T> {
    Empty,
    More(Arc<Spine<T>>, u64, u64, Arc<Tree<T>>),
}

impl<T> Spine<T> {
    /// The member at a place.
    pub(super) fn at(&self, place: u64) -> Option<&T>
        requires { IsSpine self.now }
        ensures { option_copied result ≡ slice_get (spine_members self.now) place }
    {
        match self {
            Spine::Empty => None,
            Spine::More(before, start, size, tree) => {
                if place < *start {
                    before.at(place)
                } else {
                    tree.at(*size, place - *start)
                }
            }
        }
    }

    /// The trees, which have so many members, with another member behind them.
    pub(super) fn push(&self, alloc: Global, len: u64, member: T) -> Result<Spine<T>, NoMemory>
    where
        T: Drop,
        requires sound { IsSpine self.now }
        requires counted { len ≡ length (spine_members self.now) }
        requires room { len < 2 ^ 64 - 1 }
        ensures members { IfOk result (λ longer. spine_members longer
            ≡ spine_members self.now ++ member ∷ []) }
        ensures sound { IfOk result (λ longer. IsSpine longer) }
    {
        if let Spine::More(before, _, size, second) = self
            && let Spine::More(earlier, start, other, first) = &**before
            && other == size
        {
            let (first, second) = (Arc::try_clone(first)?, Arc::try_clone(second)?);
            let both = Tree::Two(first, second, Arc::new(alloc, member)?);
            let tree = Arc::new(alloc, both)?;
            return Ok(Spine::More(Arc::try_clone(earlier)?, *start, 2 * *size + 1, tree));
        }
        let before = Arc::new(alloc, self.share()?)?;
        let tree = Arc::new(alloc, Tree::One(member))?;
        Ok(Spine::More(before, len, 1, tree))
    }

    /// The trees with another member at a place.
    pub(super) fn replace(&self, alloc: Global, place: u64, member: T) -> Result<Spine<T>, NoMemory>
    where
        T: Drop,
        requires sound { IsSpine self.now }
        requires there { place < length (spine_members self.now) }
        ensures members { IfOk result (λ changed. spine_members changed
            ≡ set (spine_members self.now) place member) }
        ensures sound { IfOk result (λ changed. IsSpine changed) }
    {
        match self {
            Spine::Empty => Ok(Spine::Empty),
            Spine::More(before, start, size, tree) => {
                if place < *start {
                    let changed = before.replace(alloc, place, member)?;
                    let tree = Arc::try_clone(tree)?;
                    Ok(Spine::More(Arc::new(alloc, changed)?, *start, *size, tree))
                } else {
                    let changed = tree.replace(alloc, *size, place - *start, member)?;
                    let tree = Arc::new(alloc, changed)?;
                    Ok(Spine::More(Arc::try_clone(before)?, *start, *size, tree))
                }
            }
        }
    }

    /// The same trees.
    pub(super) fn share(&self) -> Result<Spine<T>, NoMemory>
    where
        T: Drop,
        ensures members { IfOk result (λ same. spine_members same ≡ spine_members self.now) }
        ensures sound { IfOk result (λ same. IsSpine self.now → IsSpine same) }
    {
        match self {
            Spine::Empty => Ok(Spine::Empty),
            Spine::More(before, start, size, tree) => Ok(Spine::More(
                Arc::try_clone(before)?,
                *start,
                *size,
                Arc::try_clone(tree)?,
            )),
        }
    }
}
