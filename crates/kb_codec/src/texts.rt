//! The kinds of commands with a text, read from what is left of some bytes.
ghost use Rattle.std.specs.Prelude.{IfOk};
ghost use Rattle.kb_codec.specs.Reading.{Reads, into};
ghost use Rattle.kb_codec.specs.Private.Parts.{catalog_text, catalog_text_of, overdue_rules};
ghost use Rattle.kb_codec.specs.Private.Parts.{overdue_rules_of};

use crate::command::{Catalog, Command, OverdueRules};
use crate::rest::Rest;
use kb_base::NoMemory;
use std::alloc::Global;

pub(crate) fn read_catalog_text(
    alloc: Global,
    rest: &mut Rest<'_>,
) -> Result<Option<Command>, NoMemory>
    ensures { IfOk result (λ found. Reads (into catalog_text_of catalog_text.read) rest.old found rest.new) }
{
    let Some(key) = rest.name() else {
        return Ok(None);
    };
    let Some(text) = rest.catalog_text(alloc)? else {
        return Ok(None);
    };
    Ok(Some(Command::Catalog(Catalog { key, text })))
}

pub(crate) fn read_overdue_rules(
    alloc: Global,
    rest: &mut Rest<'_>,
) -> Result<Option<Command>, NoMemory>
    ensures { IfOk result (λ found. Reads (into overdue_rules_of overdue_rules.read) rest.old
        found rest.new) }
{
    let Some(key) = rest.name() else {
        return Ok(None);
    };
    let Some(text) = rest.overdue_text(alloc)? else {
        return Ok(None);
    };
    Ok(Some(Command::OverdueRules(OverdueRules { key, text })))
}
