//! What is kept of an accepted command.
ghost use Rattle.std.specs.Prelude.{◌≡◌, IfOk};
ghost use Rattle.kb_codec.specs.CommandBytes.{spelling};

use crate::kept_answer::KeptAnswer;
use kb_base::{NoMemory, Seq};
use kb_book::Answer;
use kb_codec::{Command, encode};
use std::alloc::Global;
use std::marker::Model;

/// What is kept of an accepted command for good: its spelling, and its answer.
#[derive(Drop)]
pub(crate) struct Kept {
    pub spelling: Seq<u8>,
    pub answer: KeptAnswer,
}

impl Model for Kept {
    ghost use Rattle.kb_book.specs.Books.{Kept as KeptValue};

    ghost Value = { KeptValue };

    ghost view = { λ kept. record { spelling = kept.spelling; answer = kept.answer } };
}

impl Kept {
    /// A command and its answer. The spelling has no more room than it takes.
    pub fn new(alloc: Global, command: &Command, answer: Answer) -> Result<Kept, NoMemory>
        ensures { IfOk result (λ kept. kept ≡ record { spelling = spelling command.now; answer = answer }) }
    {
        let mut bytes = encode(alloc, command)?;
        bytes.shrink_to_fit();
        let spelling = Seq::from_vec(bytes);
        let answer = KeptAnswer::new(alloc, answer)?;
        Ok(Kept { spelling, answer })
    }
}
