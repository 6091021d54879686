//! Lanes of any vault, made, opened and given back.
ghost use Rattle.std.specs.Prelude.{◌≡◌, ◌<◌, ℕ, false, codes};

use kb_disk::Vault;
use kb_folder::{Unopened, open_lanes, put_back};
use kb_gateway::{Market, NoGateway};
use kb_lane::Lane;
use std::alloc::Global;
use std::test::Fail;

/// Opens the lanes of the folder shop and gives them back: how many there are.
pub fn passed<V: Vault, M: Market>(
    alloc: Global,
    vault: &mut V,
    market: &mut M,
) -> Result<usize, Unopened>
    requires inside { (lane : ℕ) → (V.told vault.old).is_out (codes "shop") lane ≡ false }
    ensures inside { (lane : ℕ) → (V.told vault.new).is_out (codes "shop") lane ≡ false }
{
    match open_lanes(alloc, vault, market, "shop", "gate") {
        Ok(lanes) => {
            let count = lanes.len();
            put_back(vault, market, "shop", lanes);
            Ok(count)
        }
        Err(fault) => Err(fault),
    }
}

/// Makes this lane of two in the folder shop.
pub fn make<V: Vault>(alloc: Global, vault: &mut V, lane: u16) -> Result<(), Fail>
    requires one_of_them { lane < 2 }
    requires inside { (lane : ℕ) → (V.told vault.old).is_out (codes "shop") lane ≡ false }
    ensures inside { (lane : ℕ) → (V.told vault.new).is_out (codes "shop") lane ≡ false }
{
    match vault.lane(alloc, "shop", lane as u32) {
        Ok(disk) => {
            let made = Lane::create(alloc, disk, NoGateway, lane, 2);
            let (disk, done) = match made {
                Ok(made) => (made.into_parts().0, true),
                Err((_, disk, _)) => (disk, false),
            };
            vault.back("shop", lane as u32, disk);
            if done { Ok(()) } else { Err("a lane".into()) }
        }
        Err(_) => Err("a disk".into()),
    }
}
