//! Values with a history.
ghost use Rattle.std.specs.Prelude.{◌≡◌, List, length};

/// A value with a history of entries, of which it knows the length.
pub trait Counted {
    /// What the history has.
    type Entry;

    ghost history: { Self → List Self.Entry };

    /// How many entries the history has.
    fn count(&self) -> u64
        ensures { result ≡ length (history self.now) };
}
