//! What tells today's day.
ghost use Rattle.std.specs.Prelude.{◌≡◌, ℕ, Option, IfSome};

use kb_days::Day;

/// A clock. Workers that share one ask moreover that it be `Sync`.
pub trait Clock {
    /// The day that every call gives, where the object tells it.
    ghost day: { Self → Option ℕ };

    /// Today's day.
    fn today(&self) -> Day
        ensures { IfSome (day self.now) (λ day. result ≡ day) };
}
