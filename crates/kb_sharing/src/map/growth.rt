//! How the tree of a map grows: the way to the new entry is made anew, and all else is shared.
ghost use Rattle.std.specs.Prelude.{◌≡◌, ◌++◌, ◌∷◌, ◌+◌, cond, is_some, IfOk};
ghost use Rattle.std.specs.FinMap.Entries.{put};
ghost use Rattle.std.specs.Arc.{arc_value};
ghost use Rattle.kb_sharing.specs.Private.Nodes.{tree_entries, pair_of, found, grown, grown_one, IsSorted};
ghost use Rattle.kb_sharing.specs.Keys.{by_words};

use super::tree::{Entry, Fork, Tree};
use crate::key::Key;
use kb_base::NoMemory;
use std::alloc::Global;
use std::cmp::Ordering;
use std::sync::Arc;

/// How many entries there are once there is one at a key, if there are so many now.
pub(super) fn len_with<K: Key, V>(tree: &Tree<K, V>, len: u64, key: &K) -> Result<u64, NoMemory>
    ensures { IfOk result (λ longer. longer
        ≡ cond (is_some (found K.word (K.word key.now) tree.now)) len (len + 1)) }
{
    if tree.find(key).is_some() {
        Ok(len)
    } else {
        len.checked_add(1).ok_or(NoMemory)
    }
}

/// The tree with a value at a key, in the place of the one that was there.
pub(super) fn tree_with<K: Key + Drop, V: Drop>(
    tree: &Tree<K, V>,
    alloc: Global,
    key: K,
    value: V,
) -> Result<Tree<K, V>, NoMemory>
    requires { IsSorted (tree_entries K.word tree.now) }
    ensures { IfOk result (λ longer. tree_entries K.word longer
        ≡ put by_words (K.word key) value (tree_entries K.word tree.now)) }
{
    let entry = Arc::new(alloc, Entry { key, value })?;
    let longer = grow(alloc, tree, &entry)?;
    Ok(longer)
}

/// The tree with an entry, in the place of one with its word where there is one.
fn grow<K: Key + Drop, V: Drop>(
    alloc: Global,
    tree: &Tree<K, V>,
    entry: &Arc<Entry<K, V>>,
) -> Result<Tree<K, V>, NoMemory>
    ensures { IfOk result (λ longer. tree_entries K.word longer
        ≡ grown K.word (pair_of K.word (arc_value entry.now)) tree.now) }
{
    match tree {
        Tree::Empty => fork(alloc, tree, entry, tree),
        Tree::One(only) => grow_one(alloc, only, entry),
        Tree::Fork(_, high) => {
            let Fork {
                before,
                entry: here,
                behind,
            } = &**high;
            match entry.key.order(&here.key) {
                Ordering::Less => {
                    let longer = grow(alloc, before, entry)?;
                    balanced(alloc, &longer, here, behind)
                }
                Ordering::Equal => fork(alloc, before, entry, behind),
                Ordering::Greater => {
                    let longer = grow(alloc, behind, entry)?;
                    balanced(alloc, before, here, &longer)
                }
            }
        }
    }
}

/// An entry alone with another one, or the other one in its place where they have one word.
fn grow_one<K: Key + Drop, V: Drop>(
    alloc: Global,
    only: &Arc<Entry<K, V>>,
    entry: &Arc<Entry<K, V>>,
) -> Result<Tree<K, V>, NoMemory>
    ensures { IfOk result (λ longer. tree_entries K.word longer
        ≡ grown_one (pair_of K.word (arc_value entry.now)) (pair_of K.word (arc_value only.now))) }
{
    let nothing = Tree::Empty;
    let other = fork(alloc, &nothing, entry, &nothing)?;
    match entry.key.order(&only.key) {
        Ordering::Less => fork(alloc, &other, only, &nothing),
        Ordering::Equal => Ok(other),
        Ordering::Greater => fork(alloc, &nothing, only, &other),
    }
}

/// An entry between two trees, with their heights made nearly the same.
fn balanced<K: Key + Drop, V: Drop>(
    alloc: Global,
    before: &Tree<K, V>,
    entry: &Arc<Entry<K, V>>,
    behind: &Tree<K, V>,
) -> Result<Tree<K, V>, NoMemory>
    ensures { IfOk result (λ tree. tree_entries K.word tree
        ≡ tree_entries K.word before.now ++ pair_of K.word (arc_value entry.now)
        ∷ tree_entries K.word behind.now) }
{
    let (first, second) = (before.height(), behind.height());
    if first > second.saturating_add(1) {
        lean_first(alloc, before, entry, behind)
    } else if second > first.saturating_add(1) {
        lean_second(alloc, before, entry, behind)
    } else {
        fork(alloc, before, entry, behind)
    }
}

/// An entry between two trees, the first of which is too high.
#[tactic(auto, using(crate::proofs::Turns::turn))]
fn lean_first<K: Key + Drop, V: Drop>(
    alloc: Global,
    before: &Tree<K, V>,
    entry: &Arc<Entry<K, V>>,
    behind: &Tree<K, V>,
) -> Result<Tree<K, V>, NoMemory>
    ensures { IfOk result (λ tree. tree_entries K.word tree
        ≡ tree_entries K.word before.now ++ pair_of K.word (arc_value entry.now)
        ∷ tree_entries K.word behind.now) }
{
    let Tree::Fork(_, high) = before else {
        return fork(alloc, before, entry, behind);
    };
    let Fork {
        before: outer,
        entry: first,
        behind: inner,
    } = &**high;
    if outer.height() >= inner.height() {
        let second = fork(alloc, inner, entry, behind)?;
        return fork(alloc, outer, first, &second);
    }
    raised(alloc, outer, first, inner, entry, behind)
}

/// An entry between two trees, the second of which is too high.
#[tactic(auto, using(crate::proofs::Turns::turn))]
fn lean_second<K: Key + Drop, V: Drop>(
    alloc: Global,
    before: &Tree<K, V>,
    entry: &Arc<Entry<K, V>>,
    behind: &Tree<K, V>,
) -> Result<Tree<K, V>, NoMemory>
    ensures { IfOk result (λ tree. tree_entries K.word tree
        ≡ tree_entries K.word before.now ++ pair_of K.word (arc_value entry.now)
        ∷ tree_entries K.word behind.now) }
{
    let Tree::Fork(_, high) = behind else {
        return fork(alloc, before, entry, behind);
    };
    let Fork {
        before: inner,
        entry: last,
        behind: outer,
    } = &**high;
    if outer.height() >= inner.height() {
        let first = fork(alloc, before, entry, inner)?;
        return fork(alloc, &first, last, outer);
    }
    raised(alloc, before, entry, inner, last, outer)
}

/// Two entries among three trees, with the entry of the middle tree on top.
#[tactic(auto, using(crate::proofs::Turns::turn))]
fn raised<K: Key + Drop, V: Drop>(
    alloc: Global,
    before: &Tree<K, V>,
    first: &Arc<Entry<K, V>>,
    inner: &Tree<K, V>,
    last: &Arc<Entry<K, V>>,
    behind: &Tree<K, V>,
) -> Result<Tree<K, V>, NoMemory>
    ensures { IfOk result (λ tree. tree_entries K.word tree
        ≡ tree_entries K.word before.now ++ pair_of K.word (arc_value first.now)
        ∷ (tree_entries K.word inner.now ++ pair_of K.word (arc_value last.now)
        ∷ tree_entries K.word behind.now)) }
{
    match inner {
        Tree::Empty => {
            let back = fork(alloc, inner, last, behind)?;
            fork(alloc, before, first, &back)
        }
        Tree::One(middle) => {
            let nothing = Tree::Empty;
            let front = fork(alloc, before, first, &nothing)?;
            let back = fork(alloc, &nothing, last, behind)?;
            fork(alloc, &front, middle, &back)
        }
        Tree::Fork(_, high) => {
            let Fork {
                before: left,
                entry: middle,
                behind: right,
            } = &**high;
            let front = fork(alloc, before, first, left)?;
            let back = fork(alloc, right, last, behind)?;
            fork(alloc, &front, middle, &back)
        }
    }
}

/// An entry between two trees. It is alone where they are empty.
fn fork<K: Key + Drop, V: Drop>(
    alloc: Global,
    before: &Tree<K, V>,
    entry: &Arc<Entry<K, V>>,
    behind: &Tree<K, V>,
) -> Result<Tree<K, V>, NoMemory>
    ensures { IfOk result (λ tree. tree_entries K.word tree
        ≡ tree_entries K.word before.now ++ pair_of K.word (arc_value entry.now)
        ∷ tree_entries K.word behind.now) }
{
    let entry = Arc::try_clone(entry)?;
    if let Tree::Empty = before
        && let Tree::Empty = behind
    {
        return Ok(Tree::One(entry));
    }
    let height = before.height().max(behind.height()).saturating_add(1);
    let (before, behind) = (before.share()?, behind.share()?);
    let high = Fork {
        before,
        entry,
        behind,
    };
    Ok(Tree::Fork(height, Arc::new(alloc, high)?))
}
