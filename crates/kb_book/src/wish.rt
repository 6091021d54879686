//! What is asked for.
ghost use Rattle.std.specs.Prelude.{◌≡◌};
ghost use Rattle.kb_book.specs.Wishes.{asked_day};

use kb_days::{Day, Name, Period};

/// A plan as a start or a change asks for it: its product, its billing period, and the list that sells it.
#[derive(Clone, Copy, Debug)]
pub struct Wish {
    pub product: Name,
    pub period: Period,
    pub list: Name,
}

/// The day asked for: the one that is named, or else today.
pub fn asked_day(day: Option<Day>, today: Day) -> Day
    ensures { result ≡ asked_day day today }
{
    day.unwrap_or(today)
}
