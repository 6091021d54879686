//! The draws of a seed.
ghost use Rattle.std.specs.Prelude.{◌≡◌, ◌<◌, ◌^◌, ℕ};
ghost use Rattle.kb_make.specs.Draws.{next_state, drawn};

use std::marker::Model;

/// The state of the draws, which begins as the seed.
#[derive(Clone, Copy)]
pub(crate) struct Draws {
    state: u32,
}

impl Model for Draws {
    ghost Value = { ℕ };

    ghost view = { λ draws. draws.state };

    ghost invariant = { λ draws. draws.state < 2 ^ 31 };

    ghost inverse = { λ state. record { state = state } };
}

impl Draws {
    /// The draws of a seed.
    pub(crate) fn of_seed(seed: u32) -> Draws
        requires seed { seed < 2 ^ 31 }
        ensures { result ≡ seed }
    {
        Draws { state: seed }
    }

    /// The next draw: 0 to 32767.
    #[tactic(auto, unfolding(crate::specs::Draws::next_state, crate::specs::Draws::drawn))]
    pub(crate) fn draw(&mut self) -> u32
        ensures value { result ≡ drawn self.old }
        ensures next { self.new ≡ next_state self.old }
    {
        self.state = next_state(self.state);
        self.state / 65_536 % 32_768
    }
}

/// The state that a draw leaves.
#[tactic(auto, unfolding(crate::specs::Draws::next_state))]
fn next_state(state: u32) -> u32
    requires { state < 2 ^ 31 }
    ensures value { result ≡ next_state state }
    ensures below { result < 2 ^ 31 }
{
    ((u64::from(state) * 1_103_515_245 + 12_345) % 2_147_483_648) as u32
}
