//! A history of notes, each of two parts.
ghost use Rattle.std.specs.Prelude.{◌≡◌, [], ◌∷◌, ◌++◌};

use crate::past::Past;
use std::marker::Model;
use std::mem;
use std::snapshot::Snapshot;

/// A history of notes, each of two parts. Contracts see it as the list of them, in order; code sees nothing
/// of it.
#[derive(Drop)]
pub struct History<A, B> {
    past: Snapshot<Past<A, B>>,
}

impl<A, B> Model for History<A, B> {
    ghost use Rattle.std.specs.Prelude.{List};

    ghost Value = { List (A × B) };

    ghost view = { λ history. history.past.value };
}

impl<A, B> History<A, B> {
    /// A history without a note.
    pub fn new() -> History<A, B>
        ensures { result ≡ [] }
    {
        History {
            past: Snapshot::of(&Past::none()),
        }
    }

    /// Adds a note at its end.
    pub fn note(&mut self, first: &A, second: &B)
        ensures { self.new ≡ self.old ++ (first.now, second.now) ∷ [] }
    {
        let before = mem::replace(&mut self.past, Snapshot::of(&Past::none()));
        let past = Past {
            before: Some(before),
            first: Some(Snapshot::of(first)),
            second: Some(Snapshot::of(second)),
        };
        self.past = Snapshot::of(&past);
    }
}
