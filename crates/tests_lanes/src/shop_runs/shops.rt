//! Vaults in memory, with the texts of a shop, and markets.
ghost use Rattle.std.specs.Prelude.{◌≡◌, Some, IfOk};
ghost use Rattle.tests_lanes.specs.Insides.{AllInside};

use crate::shop_runs::script::Script;
use kb_catalog_text::{OVERDUE, SHOP};
use kb_disk::{LaneFile, MemoryVault, TextFile, Vault};
use kb_gateway::{ListGateway, ListMarket};
use std::alloc::{AllocError, Global};
use std::test::Fail;

/// A vault without a lane.
pub fn empty_vault(alloc: Global) -> Result<MemoryVault, AllocError>
    ensures inside { IfOk result AllInside }
{
    laneless(alloc, "", &[])
}

/// A vault without a lane, with another text, `t`. The calls of these numbers fail.
pub fn laneless(alloc: Global, text: &str, failing: &[u64]) -> Result<MemoryVault, AllocError>
    ensures inside { IfOk result AllInside }
{
    vault_of(alloc, Vec::new(alloc), text, failing)
}

/// A vault of one lane, on whose disk the calls of these numbers fail.
#[tactic(auto, using(crate::proofs::Files::one_inside))]
pub fn vault_on(alloc: Global, bytes: Vec<u8>, failing: &[u64]) -> Result<MemoryVault, AllocError>
    ensures inside { IfOk result AllInside }
{
    let file = lane_file(alloc, 0, bytes, failing)?;
    vault_of(alloc, vec![in alloc; file]?, "", &[])
}

/// A vault of two lanes of these bytes.
#[tactic(auto, using(crate::proofs::Files::two_inside))]
pub fn vault_of_two(alloc: Global, first: &[u8], second: &[u8]) -> Result<MemoryVault, AllocError>
    ensures inside { IfOk result AllInside }
{
    let first = lane_file(alloc, 0, first.to_vec(alloc)?, &[])?;
    let second = lane_file(alloc, 1, second.to_vec(alloc)?, &[])?;
    vault_of(alloc, vec![in alloc; first, second]?, "", &[])
}

/// A vault of these lanes and the shop's texts: the catalog `c`, the overdue text `o`, one without a state,
/// `none`, and another one, `t`. The calls of these numbers fail.
fn vault_of(
    alloc: Global,
    lanes: Vec<LaneFile>,
    text: &str,
    failing: &[u64],
) -> Result<MemoryVault, AllocError>
    ensures lanes { IfOk result (λ vault. vault.lanes ≡ lanes.items) }
{
    let catalog = text_file(alloc, "c", SHOP)?;
    let overdue = text_file(alloc, "o", OVERDUE)?;
    let stateless = text_file(alloc, "none", "state = []")?;
    let other = text_file(alloc, "t", text)?;
    let texts = vec![in alloc; catalog, overdue, stateless, other]?;
    Ok(MemoryVault::new(lanes, texts, failing.to_vec(alloc)?))
}

fn text_file(alloc: Global, name: &str, text: &str) -> Result<TextFile, AllocError> {
    let bytes = text.as_bytes().to_vec(alloc)?;
    Ok(TextFile::new(name.to_string(alloc)?, bytes))
}

/// The file of a lane of the shop.
fn lane_file(
    alloc: Global,
    lane: u32,
    bytes: Vec<u8>,
    failing: &[u64],
) -> Result<LaneFile, AllocError>
    ensures bytes { IfOk result (λ file. file.bytes ≡ Some bytes.items) }
{
    let folder = "shop".to_string(alloc)?;
    Ok(LaneFile::new(folder, lane, bytes, failing.to_vec(alloc)?))
}

/// The bytes of the shop's first lane.
pub fn bytes_in(alloc: Global, vault: &mut MemoryVault) -> Result<Vec<u8>, Fail>
    requires inside { AllInside vault.old }
{
    let disk = vault.lane(alloc, "shop", 0)?;
    Ok(disk.into_bytes())
}

/// A market with gateways for so many lanes, each of which does the same.
pub fn market_of(alloc: Global, lanes: u32, script: &Script) -> Result<ListMarket, AllocError> {
    failing_market(alloc, lanes, script, &[])
}

/// A market of which the calls of these numbers fail.
pub fn failing_market(
    alloc: Global,
    lanes: u32,
    script: &Script,
    failing: &[u64],
) -> Result<ListMarket, AllocError> {
    let mut gateways = Vec::new(alloc);
    for _ in 0..lanes {
        gateways.push(gateway_of(alloc, script, script.failing)?)?;
    }
    Ok(ListMarket::new(gateways, failing.to_vec(alloc)?))
}

/// A market for one lane, of whose gateway the calls of these numbers fail.
pub fn market_behind(
    alloc: Global,
    script: &Script,
    failing: &[u64],
) -> Result<ListMarket, AllocError> {
    let mut gateways = Vec::new(alloc);
    gateways.push(gateway_of(alloc, script, failing)?)?;
    Ok(ListMarket::new(gateways, Vec::new(alloc)))
}

/// A gateway that does this, of which the calls of these numbers fail.
fn gateway_of(alloc: Global, script: &Script, failing: &[u64]) -> Result<ListGateway, AllocError> {
    let told = script.told.to_vec(alloc)?;
    let seen = script.seen.to_vec(alloc)?;
    Ok(ListGateway::new(alloc, told, seen, failing.to_vec(alloc)?))
}
