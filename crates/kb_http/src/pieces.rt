//! Bytes between separators.
ghost use Rattle.std.specs.Prelude.{◌≡◌, ◌∷◌, [], ◌<◌, length, IfSome, MatchOption};
ghost use Rattle.kb_base.specs.Lines.{pieces};

/// What stands before the first separator, and what stands behind it, if there is one.
pub fn first_piece(bytes: &[u8], separator: u8) -> (&[u8], Option<&[u8]>)
    ensures split { MatchOption result.1 (pieces separator bytes.now ≡ result.0.now ∷ [])
        (λ rest. pieces separator bytes.now ≡ result.0.now ∷ pieces separator rest.now) }
    ensures shorter { IfSome result.1 (λ rest. length rest.now < length bytes.now) }
{
    for (at, byte) in bytes.iter().enumerate() {
        if *byte == separator {
            return (&bytes[..at], Some(&bytes[at + 1..]));
        }
    }
    (bytes, None)
}
