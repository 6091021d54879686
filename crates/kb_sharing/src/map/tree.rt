//! The trees of a map: nothing, an entry alone, or an entry with a tree before it and one behind it of nearly
//! the same height.
//!
//! That the heights are nearly the same is only tested. What stands in a tree is proved, whatever its height.
ghost use Rattle.std.specs.Prelude.{◌≡◌, ◌++◌, slice_get, IfOk, OnOk, option_copied, option_map, map as each};
ghost use Rattle.kb_sharing.specs.Private.Nodes.{tree_entries, found, tree_behind};

use crate::key::Key;
use kb_base::NoMemory;
use std::alloc::Global;
use std::cmp::Ordering;
use std::sync::Arc;

/// A key and its value.
#[derive(Drop)]
pub(super) struct Entry<K, V> {
    pub(super) key: K,
    pub(super) value: V,
}

/// Nothing, an entry alone, or an entry between two trees, with the height.
#[derive(Drop)]
#[cycle(tree)]
pub(super) enum Tree<K, V> {
    Empty,
    One(Arc<Entry<K, V>>),
    Fork(u8, Arc<Fork<K, V>>),
}

/// What stands before an entry, that entry, and what stands behind it.
#[derive(Drop)]
#[cycle(tree)]
pub(super) struct Fork<K, V> {
    pub(super) before: Tree<K, V>,
    pub(super) entry: Arc<Entry<K, V>>,
    pub(super) behind: Tree<K, V>,
}

impl<K: Key, V> Tree<K, V> {
    /// The value at a key.
    pub(super) fn find(&self, key: &K) -> Option<&V>
        ensures { option_copied result ≡ found K.word (K.word key.now) self.now }
    {
        match self {
            Tree::Empty => None,
            Tree::One(only) => {
                if key.order(&only.key).is_eq() {
                    Some(&only.value)
                } else {
                    None
                }
            }
            Tree::Fork(_, fork) => {
                let Fork {
                    before,
                    entry,
                    behind,
                } = &**fork;
                match key.order(&entry.key) {
                    Ordering::Less => before.find(key),
                    Ordering::Equal => Some(&entry.value),
                    Ordering::Greater => behind.find(key),
                }
            }
        }
    }

    /// The first entry.
    pub(super) fn first(&self) -> Option<(&K, &V)>
        ensures { option_map (λ p. (K.word p.0.now, p.1.now)) result
            ≡ slice_get (tree_entries K.word self.now) 0 }
    {
        match self {
            Tree::Empty => None,
            Tree::One(only) => Some((&only.key, &only.value)),
            Tree::Fork(_, fork) => {
                let Fork { before, entry, .. } = &**fork;
                match before.first() {
                    Some(first) => Some(first),
                    None => Some((&entry.key, &entry.value)),
                }
            }
        }
    }

    /// The first entry behind a key.
    pub(super) fn after(&self, key: &K) -> Option<(&K, &V)>
        ensures { option_map (λ p. (K.word p.0.now, p.1.now)) result
            ≡ tree_behind K.word (K.word key.now) self.now }
    {
        match self {
            Tree::Empty => None,
            Tree::One(only) => {
                if key.order(&only.key).is_lt() {
                    Some((&only.key, &only.value))
                } else {
                    None
                }
            }
            Tree::Fork(_, fork) => {
                let Fork {
                    before,
                    entry,
                    behind,
                } = &**fork;
                if key.order(&entry.key).is_lt() {
                    match before.after(key) {
                        Some(first) => Some(first),
                        None => Some((&entry.key, &entry.value)),
                    }
                } else {
                    behind.after(key)
                }
            }
        }
    }

    /// All entries.
    pub(super) fn entries<'a>(&'a self, alloc: Global) -> Result<Vec<(&'a K, &'a V)>, NoMemory>
        ensures { IfOk result (λ all. each (λ p. (K.word p.0.now, p.1.now)) all.items
            ≡ tree_entries K.word self.now) }
    {
        let mut all = Vec::new(alloc);
        self.collect(&mut all)?;
        Ok(all)
    }

    /// Adds the entries.
    fn collect<'a>(&'a self, all: &mut Vec<(&'a K, &'a V)>) -> Result<(), NoMemory>
        ensures { OnOk result (each (λ p. (K.word p.0.now, p.1.now)) all.new.items
            ≡ each (λ p. (K.word p.0.now, p.1.now)) all.old.items ++ tree_entries K.word self.now) }
    {
        match self {
            Tree::Empty => Ok(()),
            Tree::One(only) => {
                all.push((&only.key, &only.value))?;
                Ok(())
            }
            Tree::Fork(_, fork) => {
                let Fork {
                    before,
                    entry,
                    behind,
                } = &**fork;
                before.collect(all)?;
                all.push((&entry.key, &entry.value))?;
                behind.collect(all)
            }
        }
    }

    /// How high it is.
    pub(super) fn height(&self) -> u8 {
        match self {
            Tree::Empty => 0,
            Tree::One(_) => 1,
            Tree::Fork(height, _) => *height,
        }
    }

    /// The same tree.
    pub(super) fn share(&self) -> Result<Tree<K, V>, NoMemory>
        ensures { IfOk result (λ same. tree_entries K.word same ≡ tree_entries K.word self.now) }
    {
        match self {
            Tree::Empty => Ok(Tree::Empty),
            Tree::One(only) => Ok(Tree::One(Arc::try_clone(only)?)),
            Tree::Fork(height, fork) => Ok(Tree::Fork(*height, Arc::try_clone(fork)?)),
        }
    }
}
