//! Maps that grow and share what stays.
ghost use Rattle.std.specs.Prelude.{◌≡◌, IfOk, option_copied, option_map, slice_get, map as each};
ghost use Rattle.std.specs.FinMap as map;
ghost use Rattle.kb_sharing.specs.Keys.{first_behind};

mod growth;
mod tree;

use crate::key::Key;
use growth::{len_with, tree_with};
use kb_base::NoMemory;
use std::alloc::Global;
use std::marker::Model;
use tree::Tree;

/// A map by key that grows and shares what stays.
///
/// A look-up and a change take a time that grows with the logarithm of the size. Contracts see a map from the
/// words of its keys.
pub struct SharedMap<K: Key, V> {
    root: Tree<K, V>,
    len: u64,
}

impl<K: Key, V> Model for SharedMap<K, V> {
    ghost use Rattle.std.specs.Prelude.{◌≡◌, length};
    ghost use Rattle.std.specs.Coded.{coded_list, coded_ℕ};
    ghost use Rattle.std.specs.FinMap as map;
    ghost use Rattle.kb_sharing.specs.Keys.{by_words};

    ghost Value = { map.FinMap by_words V };

    ghost coded = { map.code (coded_list coded_ℕ) V.code };

    ghost use Rattle.kb_sharing.specs.Private.Nodes.{tree_entries, IsSorted};

    ghost view = { λ kept. map.from_sorted (tree_entries K.word kept.root) };

    ghost invariant = { λ kept. IsSorted (tree_entries K.word kept.root)
        × (kept.len ≡ length (tree_entries K.word kept.root)) };
}

impl<K: Key + Drop, V: Drop> Drop for SharedMap<K, V> {
    /// Drops what no other map shares. No crate above has to show again how that is dropped.
    fn drop(self) {
        let SharedMap {
            root: _root,
            len: _len,
        } = self;
    }
}

impl<K: Key, V> SharedMap<K, V> {
    /// A map without an entry. It takes no memory.
    pub fn new() -> SharedMap<K, V>
        ensures { result ≡ map.empty }
    {
        SharedMap {
            root: Tree::Empty,
            len: 0,
        }
    }

    /// How many entries there are.
    pub fn len(&self) -> u64
        ensures { result ≡ map.len self.now }
    {
        self.len
    }

    /// How high the tree of its entries is: a look-up meets at most so many of them. That it stays low is
    /// only tested.
    pub fn height(&self) -> u8 {
        self.root.height()
    }

    /// The value at a key.
    pub fn get(&self, key: &K) -> Option<&V>
        ensures { option_copied result ≡ map.get self.now (K.word key.now) }
    {
        self.root.find(key)
    }

    /// The first entry.
    pub fn first(&self) -> Option<(&K, &V)>
        ensures { option_map (λ p. (K.word p.0.now, p.1.now)) result ≡ slice_get (map.entries self.now) 0 }
    {
        self.root.first()
    }

    /// The first entry behind a key, whether or not the key is there: so one goes through all entries without
    /// taking memory.
    pub fn after(&self, key: &K) -> Option<(&K, &V)>
        ensures { option_map (λ p. (K.word p.0.now, p.1.now)) result
            ≡ first_behind (K.word key.now) (map.entries self.now) }
    {
        self.root.after(key)
    }

    /// All entries, in the order of their keys.
    pub fn entries<'a>(&'a self, alloc: Global) -> Result<Vec<(&'a K, &'a V)>, NoMemory>
        ensures { IfOk result (λ all. each (λ p. (K.word p.0.now, p.1.now)) all.items
            ≡ map.entries self.now) }
    {
        let all = self.root.entries(alloc)?;
        Ok(all)
    }

    /// The map with a value at a key, in the place of the one that was there.
    pub fn with(&self, alloc: Global, key: K, value: V) -> Result<SharedMap<K, V>, NoMemory>
    where
        K: Drop,
        V: Drop,
        ensures { IfOk result (λ kept. kept ≡ map.insert self.now (K.word key) value) }
    {
        let len = len_with(&self.root, self.len, &key)?;
        let root = tree_with(&self.root, alloc, key, value)?;
        Ok(SharedMap { root, len })
    }

    /// The same map. It shares all entries.
    pub fn share(&self) -> Result<SharedMap<K, V>, NoMemory>
    where
        K: Drop,
        V: Drop,
        ensures { IfOk result (λ same. same ≡ self.now) }
    {
        let root = self.root.share()?;
        let len = self.len;
        Ok(SharedMap { root, len })
    }
}
