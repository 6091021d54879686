//! What `matchit` and the service's own reading of paths agree on.
ghost use Rattle.kb_http.specs.Agreements.{TextsAreShapes, KindsAreShapes, PlacesAreKinds};

/// For each path, `matchit` finds the route whose shape the path has, by the words between its slashes; and
/// the path leads to the place of that route, with the names that its words give.
pub fn readings_agree()
    ensures texts { TextsAreShapes }
    ensures kinds { KindsAreShapes }
    ensures places { PlacesAreKinds }
{}
