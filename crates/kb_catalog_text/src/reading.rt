//! Texts, read from their bytes.
ghost use Rattle.std.specs.Prelude.{ℕ, ◌≡◌, ◌<◌, ◌≤◌, ◌↔◌, length, Ok, Err, Some, None, IfOk, IfErr};
ghost use Rattle.toml.specs.View.{table_view};
ghost use Rattle.kb_catalog_text.specs.CatalogText.{version_in};
ghost use Rattle.kb_catalog_text.specs.OverdueText.{states_in};
ghost use Rattle.kb_catalog_text.specs.Texts.{max_bytes, document_of, catalog_read, overdue_read};
ghost use Rattle.kb_catalog_text.specs.Texts.{version_judged, states_judged, judged, IsFaultOf, IsNoDocument};

use crate::fault::TextFault;
use crate::overdue::read_states;
use crate::version::read_version;
use kb_base::Seq;
use kb_catalog::Valid;
use kb_overdue::Config;
use std::alloc::Global;
use std::marker::Model;
use toml::Table;

/// The most bytes that a text has.
pub const MAX_BYTES: usize = 60_000;

/// A catalog text, kept as it came, and the valid version that it says.
#[derive(Debug, Drop)]
pub struct Checked {
    text: Seq<u8>,
    version: Valid,
}

impl Model for Checked {
    ghost use Rattle.std.specs.Prelude.{◌≡◌, Ok};
    ghost use Rattle.kb_catalog_text.specs.Texts.{CatalogText, catalog_read};

    ghost Value = { CatalogText };

    ghost view = { λ checked. record { text = checked.text; version = checked.version } };

    ghost invariant = { λ checked. catalog_read checked.text ≡ Ok checked.version };
}

/// An overdue text, kept as it came, and the overdue states that it says.
#[derive(Debug, Drop)]
pub struct CheckedOverdue {
    text: Seq<u8>,
    config: Config,
}

impl Model for CheckedOverdue {
    ghost use Rattle.std.specs.Prelude.{◌≡◌, Ok};
    ghost use Rattle.kb_catalog_text.specs.Texts.{OverdueText, overdue_read};

    ghost Value = { OverdueText };

    ghost view = { λ checked. record { text = checked.text; states = checked.config } };

    ghost invariant = { λ checked. overdue_read checked.text ≡ Ok checked.config };
}

/// Reads a catalog text of at most `MAX_BYTES`: gives it back unchanged, with the valid version that it says,
/// or the first fault. Keys are read in the order of the format, and what a key holds in full before the next
/// one; the rules of a version are tried last. `Memory` may come at any point of a text that isn't too long.
#[tactic(auto, using(crate::proofs::FaultCauses::causes))]
pub fn read(alloc: Global, text: Vec<u8>) -> Result<Checked, TextFault>
    ensures text { IfOk result (λ checked. checked.text ≡ text.items) }
    ensures version { IfOk result (λ checked. catalog_read text.items ≡ Ok checked.version) }
    ensures fault { IfErr result (IsFaultOf (catalog_read text.items)) }
    ensures too_long { (count : ℕ) → (result ≡ Err (TextFault.TooLong count))
        ↔ ((max_bytes < length text.items) × (count ≡ length text.items)) }
    ensures not_toml { result ≡ Err TextFault.NotToml → (length text.items ≤ max_bytes)
        × (document_of text.items ≡ None) }
{
    match version_of(alloc, &text) {
        Ok(version) => Ok(Checked {
            text: Seq::from_vec(text),
            version,
        }),
        Err(fault) => Err(fault),
    }
}

/// Reads an overdue text of at most `MAX_BYTES`: gives it back unchanged, with the overdue states that it
/// says, or the first fault, in the same order. `Memory` may come at any point of a text that isn't too long.
#[tactic(auto, using(crate::proofs::FaultCauses::causes))]
pub fn read_overdue(alloc: Global, text: Vec<u8>) -> Result<CheckedOverdue, TextFault>
    ensures text { IfOk result (λ checked. checked.text ≡ text.items) }
    ensures states { IfOk result (λ checked. overdue_read text.items ≡ Ok checked.states) }
    ensures fault { IfErr result (IsFaultOf (overdue_read text.items)) }
    ensures too_long { (count : ℕ) → (result ≡ Err (TextFault.TooLong count))
        ↔ ((max_bytes < length text.items) × (count ≡ length text.items)) }
    ensures not_toml { result ≡ Err TextFault.NotToml → (length text.items ≤ max_bytes)
        × (document_of text.items ≡ None) }
{
    match config_of(alloc, &text) {
        Ok(config) => Ok(CheckedOverdue {
            text: Seq::from_vec(text),
            config,
        }),
        Err(fault) => Err(fault),
    }
}

impl Checked {
    /// The text, as it came.
    pub fn text(&self) -> &[u8]
        ensures { result.now ≡ self.now.text }
    {
        self.text.as_slice()
    }

    /// The version that the text says.
    pub fn version(&self) -> &Valid
        ensures version { result.now ≡ self.now.version }
        ensures read { catalog_read self.now.text ≡ Ok self.now.version }
    {
        &self.version
    }

    /// The text, as it came, and the version that it says.
    pub fn into_parts(self) -> (Seq<u8>, Valid)
        ensures text { result.0 ≡ self.text }
        ensures version { result.1 ≡ self.version }
    {
        (self.text, self.version)
    }
}

impl CheckedOverdue {
    /// The text, as it came.
    pub fn text(&self) -> &[u8]
        ensures { result.now ≡ self.now.text }
    {
        self.text.as_slice()
    }

    /// The states that the text says, from the most severe.
    pub fn config(&self) -> &Config
        ensures states { result.now ≡ self.now.states }
        ensures read { overdue_read self.now.text ≡ Ok self.now.states }
    {
        &self.config
    }

    /// The text, as it came, and the states that it says.
    pub fn into_parts(self) -> (Seq<u8>, Config)
        ensures text { result.0 ≡ self.text }
        ensures states { result.1 ≡ self.states }
    {
        (self.text, self.config)
    }
}

/// The version that a catalog text says.
#[tactic(auto, using(crate::proofs::TextSteps::texts))]
fn version_of(alloc: Global, text: &[u8]) -> Result<Valid, TextFault>
    ensures version { IfOk result (λ version. catalog_read text.now ≡ Ok version) }
    ensures fault { IfErr result (IsFaultOf (catalog_read text.now)) }
    ensures long { max_bytes < length text.now → result ≡ Err (TextFault.TooLong (length text.now)) }
{
    match document(alloc, text) {
        Ok(table) => judged_version(alloc, &table),
        Err(fault) => Err(fault),
    }
}

/// The version that a document says, if its rules hold.
fn judged_version(alloc: Global, table: &Table) -> Result<Valid, TextFault>
    ensures version { IfOk result (λ version. judged version_judged (version_in (table_view table.now))
        ≡ Ok version) }
    ensures fault { IfErr result (IsFaultOf (judged version_judged (version_in (table_view table.now)))) }
{
    let version = read_version(alloc, table)?;
    if !version.has_counts() {
        return Err(TextFault::Memory);
    }
    match version.check() {
        Ok(valid) => Ok(valid),
        Err(fault) => Err(TextFault::Rule(fault.rule.number(), fault.index)),
    }
}

/// The states that an overdue text says.
#[tactic(auto, using(crate::proofs::TextSteps::texts))]
fn config_of(alloc: Global, text: &[u8]) -> Result<Config, TextFault>
    ensures states { IfOk result (λ states. overdue_read text.now ≡ Ok states) }
    ensures fault { IfErr result (IsFaultOf (overdue_read text.now)) }
    ensures long { max_bytes < length text.now → result ≡ Err (TextFault.TooLong (length text.now)) }
{
    match document(alloc, text) {
        Ok(table) => judged_states(alloc, &table),
        Err(fault) => Err(fault),
    }
}

/// The states that a document says, if their rules hold.
fn judged_states(alloc: Global, table: &Table) -> Result<Config, TextFault>
    ensures states { IfOk result (λ states. judged states_judged (states_in (table_view table.now))
        ≡ Ok states) }
    ensures fault { IfErr result (IsFaultOf (judged states_judged (states_in (table_view table.now)))) }
{
    let states = read_states(alloc, table)?;
    match Config::check(states.into_vec()) {
        Ok(config) => Ok(config),
        Err(fault) => Err(TextFault::Rule(fault.rule.number(), fault.index)),
    }
}

/// The document that a text is.
#[tactic(auto, using(crate::proofs::TextSteps::documents))]
fn document(alloc: Global, text: &[u8]) -> Result<Table, TextFault>
    ensures short { IfOk result (λ _. length text.now ≤ max_bytes) }
    ensures document { IfOk result (λ table. document_of text.now ≡ Some (table_view table)) }
    ensures fault { IfErr result (IsNoDocument text.now) }
    ensures long { max_bytes < length text.now → result ≡ Err (TextFault.TooLong (length text.now)) }
{
    if text.len() > MAX_BYTES {
        return Err(TextFault::TooLong(text.len() as u64));
    }
    match toml::table_from_slice(alloc, text) {
        Ok(table) => Ok(table),
        Err(error) => {
            if error.is_memory() {
                return Err(TextFault::Memory);
            }
            Err(TextFault::NotToml)
        }
    }
}
