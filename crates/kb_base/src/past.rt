//! What a history was, and one note more.

ghost use Rattle.std.specs.Prelude.{◌≡◌, []};

use std::marker::Model;
use std::snapshot::Snapshot;

/// What a history was before its last note, and the two parts of that note. Contracts see it as the whole
/// list.
#[derive(Drop)]
pub struct Past<A, B> {
    pub before: Option<Snapshot<Past<A, B>>>,
    pub first: Option<Snapshot<A>>,
    pub second: Option<Snapshot<B>>,
}

impl<A, B> Model for Past<A, B> {
    ghost use Rattle.std.specs.Prelude.{List, IsSome, length, option_map};
    ghost use Rattle.kb_base.specs.Notes.{with_note};

    ghost Value = { List (A × B) };

    ghost view = { λ past. with_note (option_map (λ snapshot. snapshot.value) past.before)
        (option_map (λ snapshot. snapshot.value) past.first)
        (option_map (λ snapshot. snapshot.value) past.second) };

    ghost invariant = { λ past. IsSome past.before → IsSome past.first × IsSome past.second };

    ghost size = { length };
}

impl<A, B> Past<A, B> {
    /// No note yet.
    pub fn none() -> Past<A, B>
        ensures { result ≡ [] }
    {
        Past {
            before: None,
            first: None,
            second: None,
        }
    }
}
