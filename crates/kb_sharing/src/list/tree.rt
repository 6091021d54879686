//! The trees of a list: each has 1, 3, 7 .. members.
ghost use Rattle.std.specs.Prelude.{◌≡◌, ◌<◌, set, slice_get, option_copied, IfOk};
ghost use Rattle.kb_sharing.specs.Private.Trees.{tree_members, IsSized};

use kb_base::NoMemory;
use std::alloc::Global;
use std::sync::Arc;

/// A member, or two trees of one size with a member behind them.
#[derive(Drop)]
pub(super) enum Tree<T> {
    One(T),
    Two(Arc<Tree<T>>, Arc<Tree<T>>, Arc<T>),
}

impl<T> Tree<T> {
    /// The member at a place of a tree of this size.
    pub(super) fn at(&self, size: u64, place: u64) -> Option<&T>
        requires sized { IsSized size self.now }
        ensures { option_copied result ≡ slice_get (tree_members self.now) place }
    {
        match self {
            Tree::One(member) => { if place == 0 { Some(member) } else { None } }
            Tree::Two(first, second, last) => {
                let half = size / 2;
                if place < half {
                    first.at(half, place)
                } else if place - half < half {
                    second.at(half, place - half)
                } else if place - half == half {
                    Some(last)
                } else {
                    None
                }
            }
        }
    }

    /// The tree of this size with another member at a place.
    pub(super) fn replace(
        &self,
        alloc: Global,
        size: u64,
        place: u64,
        member: T,
    ) -> Result<Tree<T>, NoMemory>
    where
        T: Drop,
        requires sized { IsSized size self.now }
        requires there { place < size }
        ensures members { IfOk result (λ tree. tree_members tree ≡ set (tree_members self.now) place member) }
        ensures sized { IfOk result (λ tree. IsSized size tree) }
    {
        match self {
            Tree::One(_) => Ok(Tree::One(member)),
            Tree::Two(first, second, last) => {
                let half = size / 2;
                if place < half {
                    let changed = Arc::new(alloc, first.replace(alloc, half, place, member)?)?;
                    Ok(Tree::Two(changed, Arc::try_clone(second)?, Arc::try_clone(last)?))
                } else if place - half < half {
                    let changed = Arc::new(
                        alloc,
                        second.replace(alloc, half, place - half, member)?,
                    )?;
                    Ok(Tree::Two(Arc::try_clone(first)?, changed, Arc::try_clone(last)?))
                } else {
                    let changed = Arc::new(alloc, member)?;
                    Ok(Tree::Two(Arc::try_clone(first)?, Arc::try_clone(second)?, changed))
                }
            }
        }
    }
}
