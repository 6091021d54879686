//! What a shared map is ordered by.
ghost use Rattle.std.specs.Prelude.{◌≡◌, List, ℕ, [], ◌∷◌};
ghost use Rattle.kb_sharing.specs.Keys.{by_words};

use kb_days::Name;
use std::cmp::Ordering;

/// A key of a shared map. Contracts see it as its word, a list of numbers, and keys are ordered as their
/// words: by the first number, then by the second one, and so on.
pub trait Key {
    ghost word: { Self → List ℕ };

    /// How the key stands to another one.
    fn order(&self, other: &Self) -> Ordering
        ensures { result ≡ by_words (word self.now) (word other.now) };
}

/// The word of a name is its bytes.
impl Key for Name {
    ghost word = { λ name. name };

    fn order(&self, other: &Name) -> Ordering {
        self.cmp(other)
    }
}

/// The word of a number is that number alone.
impl Key for u32 {
    ghost word = { λ number. number ∷ [] };

    fn order(&self, other: &u32) -> Ordering {
        self.cmp(other)
    }
}

/// The word of a number is that number alone.
impl Key for u64 {
    ghost word = { λ number. number ∷ [] };

    fn order(&self, other: &u64) -> Ordering {
        self.cmp(other)
    }
}
