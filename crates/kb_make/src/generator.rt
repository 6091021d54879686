//! The commands of a seed, one after another.
ghost use Rattle.std.specs.Prelude.{◌≡◌, ◌<◌, ◌^◌, ◌≤◌, ◌*◌, ◌∷◌, [], true, length, IsNone, IfSome};
ghost use Rattle.kb_make.specs.SeedCommands.{is_seeded};
ghost use Rattle.kb_make.specs.Seeds.{commands_of};

use crate::names::key_name;
use crate::place::Place;
use kb_codec::Command;
use kb_days::Day;
use std::marker::Model;

/// What is still to come of the commands of a seed, each with the day on which it comes.
#[derive(Drop)]
pub struct Generator {
    place: Place,
    /// The number of the next command.
    number: u32,
}

impl Model for Generator {
    ghost use Rattle.std.specs.Prelude.{ℕ, List, ◌+◌, ◌<◌, ◌^◌, length};
    ghost use Rattle.kb_codec.specs.declared.command.Command.{Command as AnyCommand};
    ghost use Rattle.kb_make.specs.Seeds.{with_keys};
    ghost use Rattle.kb_make.specs.Private.Places.{unsent, IsPlace};

    ghost Value = { List (ℕ × AnyCommand) };

    ghost view = { λ generator. with_keys generator.number (unsent generator.place) };

    ghost invariant = { λ generator. IsPlace generator.place
        × (generator.number + length (unsent generator.place) < 2 ^ 32) };
}

impl Generator {
    /// All commands of a seed, for so many accounts and months.
    #[tactic(auto, using(crate::proofs::Counts::few_of_accounts))]
    pub fn new(seed: u32, accounts: u32, months: u32) -> Generator
        requires seed { seed < 2 ^ 31 }
        requires accounts { accounts ≤ 10000 }
        requires months { months ≤ 120 }
        ensures commands { result ≡ commands_of seed accounts months }
        ensures few { length result ≤ 242 * accounts }
    {
        Generator {
            place: Place::first(seed, accounts, months),
            number: 1,
        }
    }

    /// The next command, with the day on which it comes; none after the last.
    pub fn next(&mut self) -> Option<(Day, Command)>
        ensures given { IfSome result (λ sent. self.old ≡ sent ∷ self.new) }
        ensures over { IsNone result → (self.old ≡ []) × (self.new ≡ []) }
        ensures kind { IfSome result (λ sent. is_seeded sent.1 ≡ true) }
    {
        let sent = self.place.next(key_name(self.number))?;
        self.number += 1;
        Some(sent)
    }
}
