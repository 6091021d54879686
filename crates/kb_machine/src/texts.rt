//! What is planned for a text.
ghost use Rattle.std.specs.Prelude.{◌≡◌, ℕ, [], ◌∷◌, ◌++◌, IfOk, IfErr, IfSome, IfNone, OnOk, Some, None};
ghost use Rattle.std.specs.FinMap.{entries, find, put};
ghost use Rattle.kb_sharing.specs.Keys.{by_words};
ghost use Rattle.kb_codec.specs.declared.command.Command.TheVariants as kinds;
ghost use Rattle.kb_book.specs.Rows.{IsUnprepared, first_refusal};
ghost use Rattle.kb_book.specs.declared.reply.LaneReply.TheVariants as replies;
ghost use Rattle.kb_machine.specs.Judged.{Judged, Again, refusal_in, lifted};
ghost use Rattle.kb_machine.specs.Texts.{TextsValue, by_key, catalog_rows, catalog_judged, overdue_judged};
ghost use Rattle.kb_machine.specs.Machines.{with_texts};
ghost use Rattle.kb_machine.specs.Plans.{plan_judged, Fits};

use crate::change::{Change, Planned};
use crate::kept_text::KeptText;
use crate::machine::Machine;
use kb_account::World;
use kb_base::{NoMemory, Seq};
use kb_book::{LaneReply, Refusal, Unprepared};
use kb_catalog::{AddFault, Catalog, Valid};
use kb_catalog_text::{Checked, CheckedOverdue, read, read_overdue};
use kb_codec::{Catalog as CatalogText, Command, OverdueRules, encode};
use kb_days::Name;
use kb_overdue::Config;
use kb_sharing::SharedMap;
use std::alloc::Global;

impl Machine {
    /// What is planned for a catalog text.
    pub(crate) fn plan_catalog(
        &self,
        alloc: Global,
        command: &Command,
        text: &CatalogText,
    ) -> Result<Planned, Unprepared>
        requires text { command.now ≡ kinds.Catalog text.now }
        ensures judged { IfOk result (λ planned. lifted replies.Version (with_texts self.now)
            (catalog_judged self.now.texts text.now) ≡ plan_judged self.now planned) }
        ensures fits { IfOk result (Fits self.now) }
        ensures refused { IfErr result (IsUnprepared (refusal_in (catalog_judged self.now.texts text.now))) }
    {
        let spelling = encode(alloc, command)?;
        let told = match told_number(&self.catalogs, &text.key, &spelling) {
            Ok(told) => told,
            Err(fault) => return Err(fault),
        };
        if let Some(number) = told {
            return Ok(Planned::Again(LaneReply::Version(number)));
        }
        let catalog = match with_version(alloc, &self.world, &text.text) {
            Ok(catalog) => catalog,
            Err(fault) => return Err(fault),
        };
        let number = catalog.len();
        let keys = with_text(alloc, &self.catalogs, text.key, spelling, number)?;
        Ok(Planned::Change(Change::Catalog {
            catalog,
            keys,
            number,
        }))
    }

    /// What is planned for an overdue text.
    pub(crate) fn plan_overdue(
        &self,
        alloc: Global,
        command: &Command,
        text: &OverdueRules,
    ) -> Result<Planned, Unprepared>
        requires text { command.now ≡ kinds.OverdueRules text.now }
        ensures judged { IfOk result (λ planned. lifted replies.States (with_texts self.now)
            (overdue_judged self.now.texts text.now) ≡ plan_judged self.now planned) }
        ensures fits { IfOk result (Fits self.now) }
        ensures refused { IfErr result (IsUnprepared (refusal_in (overdue_judged self.now.texts text.now))) }
    {
        let spelling = encode(alloc, command)?;
        let told = match told_number(&self.overdues, &text.key, &spelling) {
            Ok(told) => told,
            Err(fault) => return Err(fault),
        };
        if let Some(number) = told {
            return Ok(Planned::Again(LaneReply::States(number)));
        }
        let config = states_of(alloc, &text.text)?;
        let number = config.states().len() as u32;
        let keys = with_text(alloc, &self.overdues, text.key, spelling, number)?;
        Ok(Planned::Change(Change::Overdue {
            config,
            keys,
            number,
        }))
    }
}

/// The number that was told of a text under its key, if it is the same text; none if the key is new.
#[tactic(auto, using(crate::proofs::KeptTexts::text_found))]
fn told_number(
    keys: &SharedMap<Name, KeptText>,
    key: &Name,
    spelling: &[u8],
) -> Result<Option<u32>, Unprepared>
    ensures again { IfOk result (λ told. IfSome told (λ number. (new : Judged ℕ TextsValue)
        → by_key (find by_words key.now (entries keys.now)) spelling.now new ≡ Again number)) }
    ensures fresh { IfOk result (λ told. IfNone told (find by_words key.now (entries keys.now) ≡ None)) }
    ensures refused { IfErr result (λ fault. (new : Judged ℕ TextsValue)
        → IsUnprepared (refusal_in (by_key (find by_words key.now (entries keys.now)) spelling.now new))
        fault) }
{
    match keys.get(key) {
        Some(kept) => match kept_number(kept, spelling) {
            Ok(number) => Ok(Some(number)),
            Err(fault) => Err(fault),
        },
        None => Ok(None),
    }
}

/// The number that was told of a text, if it is the same text.
fn kept_number(kept: &KeptText, spelling: &[u8]) -> Result<u32, Unprepared>
    ensures same { IfOk result (λ number. (new : Judged ℕ TextsValue)
        → by_key (Some kept.now) spelling.now new ≡ Again number) }
    ensures refused { IfErr result (λ fault. (new : Judged ℕ TextsValue)
        → IsUnprepared (refusal_in (by_key (Some kept.now) spelling.now new)) fault) }
{
    if kept.spelling.as_slice() == spelling {
        Ok(kept.number)
    } else {
        Err(Unprepared::Refused(Refusal::KeyReused))
    }
}

/// The keys with one more.
#[tactic(auto, using(crate::proofs::KeptTexts::text_kept))]
fn with_text(
    alloc: Global,
    keys: &SharedMap<Name, KeptText>,
    key: Name,
    spelling: Vec<u8>,
    number: u32,
) -> Result<SharedMap<Name, KeptText>, NoMemory>
    ensures { IfOk result (λ after. entries after
        ≡ put by_words key (record { spelling = spelling.items; number = number }) (entries keys.now)) }
{
    let spelling = Seq::from_vec(spelling);
    keys.with(alloc, key, KeptText { spelling, number })
}

/// The catalog of a world with the version of a text more.
#[tactic(auto, using(crate::proofs::CatalogRows::early_rows, crate::proofs::CatalogRows::full_rows, crate::proofs::CatalogRows::other_rows))]
fn with_version(alloc: Global, world: &World, text: &Checked) -> Result<Catalog, Unprepared>
    ensures added { IfOk result (λ after. after ≡ world.now.versions ++ text.now.version ∷ []) }
    ensures allowed { OnOk result (first_refusal (catalog_rows world.now.versions text.now.version) ≡ None) }
    ensures refused { IfErr result (IsUnprepared (first_refusal
        (catalog_rows world.now.versions text.now.version))) }
{
    let version = version_of(alloc, text)?;
    match world.catalog.add(alloc, version) {
        Ok(after) => Ok(after),
        Err(AddFault::VersionOrder) => Err(Unprepared::Refused(Refusal::VersionOrder)),
        Err(AddFault::Limit) => Err(Unprepared::Refused(Refusal::Limit {
            which: 7,
            limit: 64,
        })),
        Err(AddFault::NoMemory) => Err(Unprepared::NoMemory),
    }
}

/// The version of a text, once more.
fn version_of(alloc: Global, text: &Checked) -> Result<Valid, NoMemory>
    ensures { IfOk result (λ version. version ≡ text.now.version) }
{
    let _version = text.version();
    let copy = text.text().to_vec(alloc)?;
    match read(alloc, copy) {
        Ok(checked) => Ok(checked.into_parts().1),
        Err(_) => Err(NoMemory),
    }
}

/// The states of a text, once more.
fn states_of(alloc: Global, text: &CheckedOverdue) -> Result<Config, NoMemory>
    ensures { IfOk result (λ states. states ≡ text.now.states) }
{
    let _config = text.config();
    let copy = text.text().to_vec(alloc)?;
    match read_overdue(alloc, copy) {
        Ok(checked) => Ok(checked.into_parts().1),
        Err(_) => Err(NoMemory),
    }
}
