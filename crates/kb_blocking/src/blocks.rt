//! The blocking states of an account. Beside them stands how long each counts, so that a day is asked by one
//! walk.
ghost use Rattle.std.specs.Prelude.{◌≡◌, ◌<◌, ◌≤◌, ◌↔◌, ◌++◌, ◌∷◌, [], ℕ, true, length, Contains, AllPairs};
ghost use Rattle.std.specs.Prelude.{Err, IfOk};
ghost use Rattle.kb_blocking.specs.Blocking.{max_states, is_on, turns};

use crate::state::{BlockState, Chain, Flag};
use crate::stay::{Stay, is_any_on, with_stay};
use crate::turning::turning_days;
use kb_base::{NoMemory, Seq};
use kb_days::{Day, Reach};
use std::alloc::Global;
use std::marker::Model;
use thiserror::Error;

/// The most states that there may be.
pub const MAX_STATES: usize = 4096;

/// The blocking states of an account, in the order in which they were accepted: at most `MAX_STATES`.
#[derive(Debug, Drop)]
pub struct Blocks {
    states: Seq<BlockState>,
    stays: Seq<Stay>,
}

impl Model for Blocks {
    ghost use Rattle.std.specs.Prelude.{◌≤◌, List, length};
    ghost use Rattle.kb_blocking.specs.declared.state.BlockState.{BlockState};
    ghost use Rattle.kb_blocking.specs.Blocking.{max_states};
    ghost use Rattle.kb_blocking.specs.Private.Stays.{AreStays};

    ghost Value = { List BlockState };

    ghost view = { λ blocks. blocks.states };

    ghost invariant = { λ blocks. (length blocks.states ≤ max_states) × AreStays blocks.states blocks.stays };
}

/// Why a state isn't added.
#[derive(Clone, Copy, Debug, PartialEq, Eq, Error)]
pub enum AddFault {
    /// There are `MAX_STATES` states.
    #[error("the account has 4,096 blocking states and can take no more")]
    Limit,
    /// Memory ran out.
    #[error("out of memory")]
    NoMemory,
}

impl From<NoMemory> for AddFault {
    ghost use Rattle.kb_blocking.specs.declared.blocks.AddFault.TheVariants as fault;

    ghost from_gives = { λ _ given. given ≡ fault.NoMemory };

    fn from(_: NoMemory) -> AddFault {
        AddFault::NoMemory
    }
}

impl Blocks {
    /// No states.
    pub fn new(alloc: Global) -> Blocks
        ensures { result ≡ [] }
    {
        Blocks {
            states: Seq::new(alloc),
            stays: Seq::new(alloc),
        }
    }

    /// The states, in the order in which they were accepted.
    pub fn states(&self) -> &[BlockState]
        ensures same { result.now ≡ self.now }
        ensures few { length result.now ≤ max_states }
    {
        self.states.as_slice()
    }

    /// The states with one more behind them.
    pub fn add(&self, alloc: Global, state: BlockState) -> Result<Blocks, AddFault>
        ensures added { IfOk result (λ blocks. blocks ≡ self.now ++ state ∷ []) }
        ensures limit { (result ≡ Err AddFault.Limit) ↔ (length self.now ≡ max_states) }
    {
        if self.states.len() == MAX_STATES {
            return Err(AddFault::Limit);
        }
        let stays = with_stay(alloc, self.stays.as_slice(), &state)?;
        let states = with_state(alloc, self.states.as_slice(), state)?;
        Ok(Blocks { states, stays })
    }

    /// Whether a flag is on for a chain on a day. It takes no memory.
    pub fn blocked(&self, chain: Chain, flag: Flag, day: Reach) -> bool
        ensures { result ≡ is_on self.now chain flag day }
    {
        is_any_on(self.stays.as_slice(), chain, flag, day.number())
    }

    /// The days on which a flag differs from the day before, rising.
    pub fn transitions(&self, alloc: Global, chain: Chain, flag: Flag) -> Result<Vec<Day>, NoMemory>
        ensures exactly { IfOk result (λ days. (day : ℕ)
            → (Contains days.items day ↔ (turns self.now chain flag day ≡ true))) }
        ensures rising { IfOk result (λ days. AllPairs (λ earlier later. earlier < later) days.items) }
    {
        turning_days(alloc, self.stays.as_slice(), chain, flag)
    }
}

/// The same states, and another one behind them.
fn with_state(
    alloc: Global,
    states: &[BlockState],
    state: BlockState,
) -> Result<Seq<BlockState>, NoMemory>
    ensures { IfOk result (λ longer. longer ≡ states.now ++ state ∷ []) }
{
    // The check has to see a day in a state that is pushed.
    let _day = state.day;
    let mut longer = Vec::with_capacity(alloc, states.len() + 1)?;
    longer.extend_from_slice(states)?;
    longer.push(state)?;
    Ok(Seq::from_vec(longer))
}
