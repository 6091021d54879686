//! Folders in memory, before any lane is made, and what the making of lanes comes to.
ghost use Rattle.std.specs.Prelude.{◌≡◌, false, ℕ, codes, IfOk};
ghost use Rattle.kb_disk.specs.VaultMemory.{is_out};

use kb_disk::{LaneFile, MemoryVault, TextFile, Vault};
use kb_folder::{Unfounded, found_lanes};
use kb_samples::day;
use std::alloc::{AllocError, Global};
use std::test::Fail;

/// A vault with these two texts, of which the calls of the number `failing` fail; and of the disk of lane 1
/// of the folder shop, which has these bytes, those of the number `of_disk`.
pub(crate) fn shop(
    alloc: Global,
    texts: (&str, &str),
    bytes: &[u8],
    failing: u64,
    of_disk: u64,
) -> Result<MemoryVault, AllocError>
    ensures inside { IfOk result (λ vault. (lane : ℕ) → is_out vault.lanes (codes "shop") lane ≡ false) }
{
    let file = LaneFile::new(
        "shop".to_string(alloc)?,
        1,
        bytes.to_vec(alloc)?,
        [of_disk].to_vec(alloc)?,
    );
    let (catalog, overdue) = texts;
    Ok(MemoryVault::new(
        vec![in alloc; file]?,
        vec![in alloc;
            text(alloc, "catalog", catalog)?,
            text(alloc, "overdue", overdue)?,
        ]?,
        [failing].to_vec(alloc)?,
    ))
}

fn text(alloc: Global, name: &str, text: &str) -> Result<TextFile, AllocError> {
    Ok(TextFile::new(name.to_string(alloc)?, text.as_bytes().to_vec(alloc)?))
}

/// What the making of three lanes comes to, in words.
pub(crate) fn founded(alloc: Global, vault: &mut MemoryVault) -> Result<String, Fail>
    requires inside { (lane : ℕ) → is_out vault.old.lanes (codes "shop") lane ≡ false }
    ensures inside { (lane : ℕ) → is_out vault.new.lanes (codes "shop") lane ≡ false }
{
    let today = day("2024-03-01")?;
    said(
        alloc,
        found_lanes(alloc, vault, today, "shop", 3, "catalog", "overdue"),
    )
}

/// Whether a lane has bytes.
pub(crate) fn has_bytes(alloc: Global, vault: &mut MemoryVault, lane: u32) -> Result<bool, Fail>
    requires inside { (lane : ℕ) → is_out vault.old.lanes (codes "shop") lane ≡ false }
    ensures inside { (lane : ℕ) → is_out vault.new.lanes (codes "shop") lane ≡ false }
{
    let disk = vault.lane(alloc, "shop", lane)?;
    let some = !disk.bytes().is_empty();
    vault.back("shop", lane, disk);
    Ok(some)
}

fn said(alloc: Global, outcome: Result<(), Unfounded>) -> Result<String, Fail> {
    match outcome {
        Ok(()) => Ok("made".to_string(alloc)?),
        Err(Unfounded::Disk) => Ok("disk".to_string(alloc)?),
        Err(Unfounded::NoMemory) => Ok("memory".to_string(alloc)?),
        Err(Unfounded::Text(fault)) => Ok(format!(in alloc; "text {}", fault.number())?),
        Err(Unfounded::NotEmpty { lane }) => Ok(format!(in alloc; "not empty {lane}")?),
    }
}
