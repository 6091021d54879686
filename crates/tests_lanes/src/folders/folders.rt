//! Folders of lanes, and why they can't be opened.
ghost use Rattle.std.specs.Prelude.{◌≡◌, ℕ, false, codes, is_none, IfOk};
ghost use Rattle.kb_disk.specs.VaultMemory as memory;

use crate::folders::passing::passed;
use kb_disk::{FileFault, LaneFile, MemoryVault, Vault};
use kb_folder::Unopened;
use kb_gateway::{ListGateway, ListMarket};
use std::alloc::{AllocError, Global};
use std::test::Fail;

/// Lanes 0 and 1 of two, lane 0 of one, lane 1 of three, and a lane of none.
const FIRST: &str = "KBJRNL01\0\x02\0\0\0\0\0\0\0";

const SECOND: &str = "KBJRNL01\0\x02\0\x01\0\0\0\0\0";

const ALONE: &str = "KBJRNL01\0\x01\0\0\0\0\0\0\0";

const OF_THREE: &str = "KBJRNL01\0\x03\0\x01\0\0\0\0\0";

const OF_NONE: &str = "KBJRNL01\0\0\0\0\0\0\0\0\0";

/// The bytes of lanes 0 and 1; the numbers of the calls of the vault, of the disk of lane 0, of that of
/// lane 1 and of the market that fail; the number of lanes (`DISK`, `NO_MEMORY` or `MARKET` for a fault,
/// 100 and the place for a fault of lane 0, 200 and the place for one of lane 1); and how many faults the
/// vault and the market count.
const ROWS: [(&str, &str, [u64; 4], i64, (u64, u64)); 18] = [
    (FIRST, SECOND, [0, 0, 0, 0], 2, (0, 0)),
    (ALONE, "", [0, 0, 0, 0], 1, (0, 0)),
    ("", SECOND, [0, 0, 0, 0], 100, (0, 0)),
    (OF_NONE, SECOND, [0, 0, 0, 0], 108, (0, 0)),
    (SECOND, SECOND, [0, 0, 0, 0], 110, (0, 0)),
    (FIRST, "", [0, 0, 0, 0], 200, (0, 0)),
    (FIRST, OF_THREE, [0, 0, 0, 0], 208, (0, 0)),
    (FIRST, FIRST, [0, 0, 0, 0], 210, (0, 0)),
    (FIRST, SECOND, [1, 0, 0, 0], DISK, (1, 0)),
    (FIRST, SECOND, [2, 0, 0, 0], DISK, (1, 0)),
    (FIRST, SECOND, [0, 1, 0, 0], DISK, (1, 0)),
    (FIRST, SECOND, [0, 2, 0, 0], DISK, (1, 0)),
    (FIRST, SECOND, [0, 3, 0, 0], DISK, (1, 0)),
    (FIRST, SECOND, [0, 0, 1, 0], DISK, (1, 0)),
    (FIRST, SECOND, [0, 0, 2, 0], DISK, (1, 0)),
    (FIRST, SECOND, [0, 0, 3, 0], DISK, (1, 0)),
    (FIRST, SECOND, [0, 0, 0, 1], MARKET, (0, 1)),
    (FIRST, SECOND, [0, 0, 0, 2], MARKET, (0, 1)),
];

const DISK: i64 = -1;

const NO_MEMORY: i64 = -2;

const MARKET: i64 = -3;

#[test]
fn folders_that_are_opened_or_not(rt: HostRuntime) -> Result<(), Fail> {
    let alloc = rt.alloc();
    for (first, second, failing, answer, faults) in ROWS {
        let found = opened(alloc, first, second, failing)?;
        assert_eq!(rt; found, (answer, faults, (true, true)), "{answer}");
    }
    Ok(())
}

/// What a folder of two lanes answers, how many faults are counted, and whether the lanes have their bytes.
fn opened(
    alloc: Global,
    first: &str,
    second: &str,
    failing: [u64; 4],
) -> Result<(i64, (u64, u64), (bool, bool)), Fail> {
    let vault = folder(alloc, first, second, failing)?;
    let market = market(alloc, failing[3])?;
    opened_in(alloc, vault, market, first, second)
}

fn opened_in(
    alloc: Global,
    vault: MemoryVault,
    market: ListMarket,
    first: &str,
    second: &str,
) -> Result<(i64, (u64, u64), (bool, bool)), Fail>
    requires inside { (lane : ℕ) → memory.is_out vault.lanes (codes "shop") lane ≡ false }
{
    let mut vault = vault;
    let mut market = market;
    let answer = number_of(passed(alloc, &mut vault, &mut market));
    let faults = (vault.faults(), market.faults());
    let same = keeps(alloc, vault, first, second)?;
    Ok((answer, faults, same))
}

/// A vault with lanes 0 and 1 of the folder shop.
#[tactic(auto, using(crate::proofs::FolderInsides::two_inside))]
fn folder(
    alloc: Global,
    first: &str,
    second: &str,
    failing: [u64; 4],
) -> Result<MemoryVault, AllocError>
    ensures inside { IfOk result (λ vault. (lane : ℕ) → memory.is_out vault.lanes (codes "shop")
        lane ≡ false) }
{
    let first = file(alloc, 0, first, failing[1])?;
    let second = file(alloc, 1, second, failing[2])?;
    let lanes = vec![in alloc; first, second]?;
    Ok(MemoryVault::new(lanes, Vec::new(alloc), [failing[0]].to_vec(alloc)?))
}

/// A lane of the folder shop.
fn file(alloc: Global, lane: u32, bytes: &str, failing: u64) -> Result<LaneFile, AllocError>
    ensures inside { IfOk result (λ file. is_none file.bytes ≡ false) }
{
    Ok(LaneFile::new(
        "shop".to_string(alloc)?,
        lane,
        bytes.as_bytes().to_vec(alloc)?,
        [failing].to_vec(alloc)?,
    ))
}

/// A market with two gateways.
fn market(alloc: Global, failing: u64) -> Result<ListMarket, AllocError> {
    let gateways = vec![in alloc; silent(alloc), silent(alloc)]?;
    Ok(ListMarket::new(gateways, [failing].to_vec(alloc)?))
}

/// A gateway that has nothing to say.
fn silent(alloc: Global) -> ListGateway {
    ListGateway::new(alloc, Vec::new(alloc), Vec::new(alloc), Vec::new(alloc))
}

/// Whether lanes 0 and 1 have these bytes.
fn keeps(
    alloc: Global,
    vault: MemoryVault,
    first: &str,
    second: &str,
) -> Result<(bool, bool), FileFault>
    requires inside { (lane : ℕ) → memory.is_out vault.lanes (codes "shop") lane ≡ false }
{
    let mut vault = vault;
    let one = vault.lane(alloc, "shop", 0)?;
    let other = vault.lane(alloc, "shop", 1)?;
    Ok((
        one.bytes() == first.as_bytes(),
        other.bytes() == second.as_bytes(),
    ))
}

fn number_of(answer: Result<usize, Unopened>) -> i64 {
    match answer {
        Ok(count) => count.min(100) as i64,
        Err(Unopened::Disk) => DISK,
        Err(Unopened::NoMemory) => NO_MEMORY,
        Err(Unopened::Journal { lane, at }) => (lane.min(1) as i64 + 1) * 100 + at.min(99) as i64,
        Err(Unopened::Market) => MARKET,
    }
}
