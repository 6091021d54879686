//! What any vault keeps.
ghost use Rattle.std.specs.Prelude.{◌≡◌, false, codes};

use kb_disk::{Disk, Vault};
use std::alloc::Global;
use std::test::Fail;

/// Writes 7 and 8 into lane 3 of the folder shop, gives it back and takes it out again: how many of three
/// bytes are read then, and the bytes.
pub fn kept_by<V: Vault>(vault: &mut V, alloc: Global) -> Result<(usize, [u8; 3]), Fail>
    requires { (V.told vault.old).is_out (codes "shop") 3 ≡ false }
{
    let mut disk = vault.lane(alloc, "shop", 3)?;
    disk.write_at(0, &[7, 8])?;
    vault.back("shop", 3, disk);
    let mut disk = vault.lane(alloc, "shop", 3)?;
    let mut bytes = [0; 3];
    let count = disk.read(0, &mut bytes)?;
    vault.back("shop", 3, disk);
    Ok((count, bytes))
}
