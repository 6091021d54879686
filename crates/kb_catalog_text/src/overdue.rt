//! The whole document of an overdue text.
ghost use Rattle.toml.specs.View.{table_view};
ghost use Rattle.kb_catalog_text.specs.Reads.{IsRead};
ghost use Rattle.kb_catalog_text.specs.OverdueText.{states_in};

use crate::entries::entries_or_empty;
use crate::key_fault::KeyFault;
use crate::keys::{Among, known_keys};
use kb_base::Seq;
use kb_overdue::OverdueState;
use std::alloc::Global;
use toml::Table;

/// The overdue states that a document says.
pub(crate) fn read_states(alloc: Global, table: &Table) -> Result<Seq<OverdueState>, KeyFault>
    ensures { IsRead result (states_in (table_view table.now)) }
{
    let keys = Among { keys: &["state"] };
    known_keys(alloc, table, &keys)?;
    entries_or_empty(alloc, table, "state")
}
