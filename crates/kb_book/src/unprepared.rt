//! Why a command isn't prepared.
ghost use Rattle.std.specs.Prelude.{◌≡◌};

use crate::refusal::Refusal;
use kb_base::NoMemory;

/// Why a command isn't prepared. Neither changes anything.
#[derive(Clone, Copy)]
pub enum Unprepared {
    /// It is refused.
    Refused(Refusal),
    /// Memory ran out.
    NoMemory,
}

impl From<NoMemory> for Unprepared {
    ghost use Rattle.kb_book.specs.declared.unprepared.Unprepared.TheVariants as fault;

    ghost from_gives = { λ _ given. given ≡ fault.NoMemory };

    fn from(_: NoMemory) -> Unprepared {
        Unprepared::NoMemory
    }
}
