//! One lane among those of a folder.
ghost use Rattle.std.specs.Prelude.{◌≡◌, ◌≤◌, ◌≢◌, ℕ, IfOk, IfErr, OnOk, OnErr, true, false};
ghost use Rattle.kb_gateway.specs.Told.{IsUnasked};
ghost use Rattle.kb_folder.specs.declared.unopened.Unopened.TheVariants as faults;
ghost use Rattle.kb_folder.specs.OneLane.{GatewayIsBack, GatewayIsLeft, IsRefused, TakesBack, TakesOut};

use crate::loading::open_lane;
use crate::returning::give_back;
use crate::unopened::Unopened;
use kb_disk::Vault;
use kb_gateway::Market;
use kb_lane::Lane;
use std::alloc::Global;

/// Opens the lane of this number with a gateway of this name, if its header tells so many lanes. A fault
/// leaves it in the vault.
pub fn open_one_of<V: Vault, M: Market>(
    alloc: Global,
    vault: &mut V,
    market: &mut M,
    folder: &str,
    gateway: &str,
    number: u16,
    count: u16,
) -> Result<Lane<V::Disk, M::Gateway>, Unopened>
    requires inside { (V.told vault.old).is_out folder.now number ≡ false }
    ensures opened { IfOk result (TakesOut
        V.Disk.told
        folder.now count number
        (V.told vault.old)
        (V.told vault.new)) }
    ensures served { IfOk result (λ lane. M.serves lane.gateway gateway.now number) }
    ensures unasked { IfOk result (λ lane. IsUnasked M.Gateway.told lane.gateway) }
    ensures same_gateways { OnOk result ((other : ℕ)
        → (M.told market.new).came_back other ≡ (M.told market.old).came_back other) }
    ensures gateway_left { OnErr result (GatewayIsLeft M.Gateway.told number (M.told market.old)
        (M.told market.new)) }
    ensures calm { OnOk result ((M.told market.new).faults ≡ (M.told market.old).faults) }
    ensures rising { (M.told market.old).faults ≤ (M.told market.new).faults }
    ensures refused { IfErr result (IsRefused V.Disk.told folder.now count number
        (V.told vault.old)
        (V.told vault.new)
        (M.told market.old).faults (M.told market.new).faults) }
{
    match open_lane(alloc, vault, market, folder, gateway, number) {
        Ok(lane) => if_one_of(vault, market, folder, number, count, lane),
        Err(fault) => Err(fault),
    }
}

/// The lane of this number, if its header tells so many lanes. If it tells another number, it is given back.
fn if_one_of<V: Vault, M: Market>(
    vault: &mut V,
    market: &mut M,
    folder: &str,
    number: u16,
    count: u16,
    lane: Lane<V::Disk, M::Gateway>,
) -> Result<Lane<V::Disk, M::Gateway>, Unopened>
    requires outside { (V.told vault.old).is_out folder.now number ≡ true }
    ensures same { IfOk result (λ kept. kept ≡ lane) }
    ensures kept { OnOk result (vault.new ≡ vault.old) }
    ensures market_kept { OnOk result (market.new ≡ market.old) }
    ensures gateway { OnErr result (GatewayIsBack number (M.told market.old) (M.told market.new)
        lane.gateway) }
    ensures one_of_them { OnOk result (lane.log.journal.lanes ≡ count) }
    ensures fault { IfErr result (λ fault. fault ≡ faults.Journal number 8) }
    ensures of_others { OnErr result (lane.log.journal.lanes ≢ count) }
    ensures back { OnErr result (TakesBack
        V.Disk.told
        folder.now number
        (V.told vault.old)
        (V.told vault.new) lane.log.journal.disk) }
{
    if lane.lanes() == count {
        return Ok(lane);
    }
    give_back(vault, market, folder, number as u32, lane);
    Err(Unopened::Journal {
        lane: number as u32,
        at: 8,
    })
}
