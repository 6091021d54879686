//! Lanes given back.
ghost use Rattle.std.specs.Prelude.{◌≡◌, ◌≤◌, ◌<◌, ℕ, true, length};
ghost use Rattle.kb_gateway.specs.Told.{payments_asked};
ghost use Rattle.kb_folder.specs.Openings.{AreBack, AskedOnceEach, GatewaysAreBack, HaveAttemptsEach};

use crate::returning::give_back;
use kb_disk::Vault;
use kb_gateway::Market;
use kb_lane::Lane;

/// Gives the disks of lanes back to their folder and their gateways to the market, in order: the lane at each
/// place has its number.
pub fn put_back<V: Vault, M: Market>(
    vault: &mut V,
    market: &mut M,
    folder: &str,
    lanes: Vec<Lane<V::Disk, M::Gateway>>,
)
    requires few { length lanes.items ≤ 64 }
    requires outside { (place : ℕ) → place < length lanes.items
        → (V.told vault.old).is_out folder.now place ≡ true }
    ensures back { AreBack V.Disk.told folder.now
        (V.told vault.old)
        (V.told vault.new) lanes.items }
    ensures gateways { GatewaysAreBack (M.told market.old) (M.told market.new) lanes.items }
    ensures once { AskedOnceEach (payments_asked M.Gateway.told) lanes.items }
    ensures attempts { HaveAttemptsEach lanes.items }
{
    let mut number = 0;
    for lane in lanes {
        give_back(vault, market, folder, number, lane);
        number += 1;
    }
}
