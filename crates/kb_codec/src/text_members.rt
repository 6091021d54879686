//! The texts that a command hands in, read from the front of some bytes.
ghost use Rattle.std.specs.Prelude.{◌≡◌, IfOk};
ghost use Rattle.kb_codec.specs.Reading.{Reads};
ghost use Rattle.kb_codec.specs.TextReading.{catalog_in, catalog_of, overdue_in, overdue_of};

use crate::rest::Rest;
use kb_base::NoMemory;
use kb_catalog_text::{Checked, CheckedOverdue, TextFault, read, read_overdue};
use std::alloc::Global;

impl<'a> Rest<'a> {
    /// A catalog text, with the version that it says; none if what stands there is none, or is refused. An
    /// `Err` comes only if memory runs out.
    #[tactic(auto, unfolding(crate::specs::TextReading::catalog_in))]
    pub fn catalog_text(&mut self, alloc: Global) -> Result<Option<Checked>, NoMemory>
        ensures { IfOk result (λ found. Reads catalog_in self.old found self.new) }
    {
        match self.text() {
            Some(text) => catalog_of(alloc, text),
            None => Ok(None),
        }
    }

    /// An overdue text, with the states that it says; none if what stands there is none, or is refused. An
    /// `Err` comes only if memory runs out.
    #[tactic(auto, unfolding(crate::specs::TextReading::overdue_in))]
    pub fn overdue_text(&mut self, alloc: Global) -> Result<Option<CheckedOverdue>, NoMemory>
        ensures { IfOk result (λ found. Reads overdue_in self.old found self.new) }
    {
        match self.text() {
            Some(text) => overdue_of(alloc, text),
            None => Ok(None),
        }
    }
}

/// The catalog text of these bytes, unless it is refused.
fn catalog_of(alloc: Global, text: &[u8]) -> Result<Option<Checked>, NoMemory>
    ensures { IfOk result (λ found. found ≡ catalog_of text.now) }
{
    match read(alloc, text.to_vec(alloc)?) {
        Ok(checked) => Ok(Some(checked)),
        Err(TextFault::Memory) => Err(NoMemory),
        Err(_) => Ok(None),
    }
}

/// The overdue text of these bytes, unless it is refused.
fn overdue_of(alloc: Global, text: &[u8]) -> Result<Option<CheckedOverdue>, NoMemory>
    ensures { IfOk result (λ found. found ≡ overdue_of text.now) }
{
    match read_overdue(alloc, text.to_vec(alloc)?) {
        Ok(checked) => Ok(Some(checked)),
        Err(TextFault::Memory) => Err(NoMemory),
        Err(_) => Ok(None),
    }
}
