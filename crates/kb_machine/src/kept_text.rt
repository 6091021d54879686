//! What is kept of an accepted text.

use kb_base::Seq;
use std::marker::Model;

/// What is kept of an accepted text for good: its spelling, and the number that was told.
#[derive(Drop)]
pub struct KeptText {
    pub spelling: Seq<u8>,
    pub number: u32,
}

impl Model for KeptText {
    ghost use Rattle.kb_machine.specs.Texts.{KeptText as KeptTextValue};

    ghost Value = { KeptTextValue };

    ghost view = { λ kept. record { spelling = kept.spelling; number = kept.number } };
}
