//! All lanes of a folder, opened.
ghost use Rattle.std.specs.Prelude.{◌≡◌, ◌≤◌, ℕ, [], ◌∷◌, ◌++◌, IfOk, IfErr, OnOk, OnErr, true, false};
ghost use Rattle.std.specs.Prelude.{length};
ghost use Rattle.kb_folder.specs.declared.unopened.Unopened.TheVariants as faults;
ghost use Rattle.kb_folder.specs.Openings.{AreOpened, AreServed, AreUnasked, IsAsBefore, IsCause, IsFirstOfThem};
ghost use Rattle.kb_folder.specs.Private.AllLanes.{AddsLane, HasStopped};
ghost use Rattle.kb_folder.specs.OneLane.{ComesBackUnasked, GatewayIsBack, GatewayIsLeft, IsRefused, TakesBack};

use crate::among::open_one_of;
use crate::lanes_returning::put_back;
use crate::loading::open_lane;
use crate::returning::give_back;
use crate::unopened::Unopened;
use kb_disk::Vault;
use kb_gateway::Market;
use kb_lane::Lane;
use std::alloc::Global;

/// Opens all lanes of a folder, of whose number the header of lane 0 tells, in order: each with a gateway
/// of this name. Their disks are only synced and read. A fault leaves no lane out.
pub fn open_lanes<V: Vault, M: Market>(
    alloc: Global,
    vault: &mut V,
    market: &mut M,
    folder: &str,
    gateway: &str,
) -> Result<Vec<Lane<V::Disk, M::Gateway>>, Unopened>
    requires inside { (lane : ℕ) → (V.told vault.old).is_out folder.now lane ≡ false }
    ensures opened { IfOk result (λ lanes. AreOpened
        V.Disk.told
        folder.now (length lanes.items)
        (V.told vault.old)
        (V.told vault.new) lanes.items) }
    ensures some { IfOk result (λ lanes. 1 ≤ length lanes.items) }
    ensures few { IfOk result (λ lanes. length lanes.items ≤ 64) }
    ensures served { IfOk result (λ lanes. AreServed
        (λ made place. M.serves made gateway.now place) lanes.items) }
    ensures unasked { IfOk result (λ lanes. AreUnasked M.Gateway.told lanes.items) }
    ensures same_gateways { OnOk result ((number : ℕ)
        → (M.told market.new).came_back number ≡ (M.told market.old).came_back number) }
    ensures gateways_left { OnErr result ((number : ℕ) → ComesBackUnasked M.Gateway.told
        ((M.told market.old).came_back number) ((M.told market.new).came_back number)) }
    ensures calm { OnOk result ((M.told market.new).faults ≡ (M.told market.old).faults) }
    ensures rising { (M.told market.old).faults ≤ (M.told market.new).faults }
    ensures left { OnErr result (IsAsBefore V.Disk.told folder.now
        (V.told vault.old)
        (V.told vault.new)) }
    ensures cause { IfErr result (IsCause folder.now
        (V.told vault.old)
        (V.told vault.new)
        (M.told market.old).faults (M.told market.new).faults) }
    ensures in_order { IfErr result (IsFirstOfThem folder.now
        (V.told vault.old)) }
{
    let mut lanes = Vec::new(alloc);
    match open_all(alloc, vault, market, folder, gateway, &mut lanes) {
        Ok(()) => Ok(lanes),
        Err(fault) => {
            put_back(vault, market, folder, lanes);
            Err(fault)
        }
    }
}

/// Opens all lanes of a folder. A fault leaves those open that were opened before it.
fn open_all<V: Vault, M: Market>(
    alloc: Global,
    vault: &mut V,
    market: &mut M,
    folder: &str,
    gateway: &str,
    lanes: &mut Vec<Lane<V::Disk, M::Gateway>>,
) -> Result<(), Unopened>
    requires none { lanes.old.items ≡ [] }
    requires inside { (lane : ℕ) → (V.told vault.old).is_out folder.now lane ≡ false }
    ensures opened { OnOk result (AreOpened
        V.Disk.told
        folder.now (length lanes.new.items)
        (V.told vault.old)
        (V.told vault.new) lanes.new.items) }
    ensures some { OnOk result (1 ≤ length lanes.new.items) }
    ensures few { OnOk result (length lanes.new.items ≤ 64) }
    ensures served { OnOk result (AreServed
        (λ made place. M.serves made gateway.now place) lanes.new.items) }
    ensures unasked { OnOk result (AreUnasked M.Gateway.told lanes.new.items) }
    ensures same_gateways { OnOk result ((number : ℕ)
        → (M.told market.new).came_back number ≡ (M.told market.old).came_back number) }
    ensures gateway_left { OnErr result (GatewayIsLeft M.Gateway.told (length lanes.new.items)
        (M.told market.old) (M.told market.new)) }
    ensures unasked_so_far { OnErr result (AreUnasked M.Gateway.told lanes.new.items) }
    ensures calm { OnOk result ((M.told market.new).faults ≡ (M.told market.old).faults) }
    ensures rising { (M.told market.old).faults ≤ (M.told market.new).faults }
    ensures stopped { OnErr result (HasStopped
        V.Disk.told
        folder.now
        (V.told vault.old)
        (V.told vault.new) lanes.new.items) }
    ensures cause { IfErr result (IsCause folder.now
        (V.told vault.old)
        (V.told vault.new)
        (M.told market.old).faults (M.told market.new).faults) }
    ensures in_order { IfErr result (IsFirstOfThem folder.now
        (V.told vault.old)) }
{
    let count = match open_first(alloc, vault, market, folder, gateway, lanes) {
        Ok(count) => count,
        Err(fault) => return Err(fault),
    };
    for number in 1..count {
        if let Err(fault) = open_next(alloc, vault, market, folder, gateway, lanes, number, count) {
            return Err(fault);
        }
    }
    Ok(())
}

/// Opens lane 0, and gives the number of lanes.
fn open_first<V: Vault, M: Market>(
    alloc: Global,
    vault: &mut V,
    market: &mut M,
    folder: &str,
    gateway: &str,
    lanes: &mut Vec<Lane<V::Disk, M::Gateway>>,
) -> Result<u16, Unopened>
    requires none { lanes.old.items ≡ [] }
    requires inside { (V.told vault.old).is_out folder.now 0 ≡ false }
    ensures added { IfOk result (λ count. AddsLane
        V.Disk.told
        folder.now count
        (V.told vault.old)
        (V.told vault.new) lanes.old.items lanes.new.items) }
    ensures some { IfOk result (λ count. 1 ≤ count) }
    ensures few { IfOk result (λ count. count ≤ 64) }
    ensures served { OnOk result (AreServed
        (λ made place. M.serves made gateway.now place) lanes.new.items) }
    ensures unasked { AreUnasked M.Gateway.told lanes.new.items }
    ensures same_gateways { OnOk result ((number : ℕ)
        → (M.told market.new).came_back number ≡ (M.told market.old).came_back number) }
    ensures gateway_left { OnErr result (GatewayIsLeft M.Gateway.told 0 (M.told market.old)
        (M.told market.new)) }
    ensures calm { OnOk result ((M.told market.new).faults ≡ (M.told market.old).faults) }
    ensures rising { (M.told market.old).faults ≤ (M.told market.new).faults }
    ensures same { OnErr result (lanes.new.items ≡ lanes.old.items) }
    ensures refused { (count : ℕ) → IfErr result (IsRefused V.Disk.told folder.now count 0
        (V.told vault.old)
        (V.told vault.new)
        (M.told market.old).faults (M.told market.new).faults) }
{
    match open_lane(alloc, vault, market, folder, gateway, 0) {
        Ok(lane) => {
            let count = lane.lanes();
            match add(vault, market, folder, lanes, 0, lane) {
                Ok(()) => Ok(count),
                Err(fault) => Err(fault),
            }
        }
        Err(fault) => Err(fault),
    }
}

/// Opens the lane of this number, which is the next of so many.
fn open_next<V: Vault, M: Market>(
    alloc: Global,
    vault: &mut V,
    market: &mut M,
    folder: &str,
    gateway: &str,
    lanes: &mut Vec<Lane<V::Disk, M::Gateway>>,
    number: u16,
    count: u16,
) -> Result<(), Unopened>
    requires next { length lanes.old.items ≡ number }
    requires inside { (V.told vault.old).is_out folder.now number ≡ false }
    ensures added { OnOk result (AddsLane
        V.Disk.told
        folder.now count
        (V.told vault.old)
        (V.told vault.new) lanes.old.items lanes.new.items) }
    ensures served { AreServed (λ made place. M.serves made gateway.now place) lanes.old.items
        → OnOk result (AreServed (λ made place. M.serves made gateway.now place) lanes.new.items) }
    ensures unasked { AreUnasked M.Gateway.told lanes.old.items
        → AreUnasked M.Gateway.told lanes.new.items }
    ensures same_gateways { OnOk result ((other : ℕ)
        → (M.told market.new).came_back other ≡ (M.told market.old).came_back other) }
    ensures gateway_left { OnErr result (GatewayIsLeft M.Gateway.told number (M.told market.old)
        (M.told market.new)) }
    ensures calm { OnOk result ((M.told market.new).faults ≡ (M.told market.old).faults) }
    ensures rising { (M.told market.old).faults ≤ (M.told market.new).faults }
    ensures same { OnErr result (lanes.new.items ≡ lanes.old.items) }
    ensures refused { IfErr result (IsRefused V.Disk.told folder.now count number
        (V.told vault.old)
        (V.told vault.new)
        (M.told market.old).faults (M.told market.new).faults) }
{
    match open_one_of(alloc, vault, market, folder, gateway, number, count) {
        Ok(lane) => add(vault, market, folder, lanes, number, lane),
        Err(fault) => Err(fault),
    }
}

/// Adds a lane of this number to others. Out of memory, it is given back.
fn add<V: Vault, M: Market>(
    vault: &mut V,
    market: &mut M,
    folder: &str,
    lanes: &mut Vec<Lane<V::Disk, M::Gateway>>,
    number: u16,
    lane: Lane<V::Disk, M::Gateway>,
) -> Result<(), Unopened>
    requires outside { (V.told vault.old).is_out folder.now number ≡ true }
    ensures added { OnOk result (lanes.new.items ≡ lanes.old.items ++ lane ∷ []) }
    ensures kept { OnOk result (vault.new ≡ vault.old) }
    ensures market_kept { OnOk result (market.new ≡ market.old) }
    ensures gateway { OnErr result (GatewayIsBack number (M.told market.old) (M.told market.new)
        lane.gateway) }
    ensures fault { IfErr result (λ fault. fault ≡ faults.NoMemory) }
    ensures same { OnErr result (lanes.new.items ≡ lanes.old.items) }
    ensures back { OnErr result (TakesBack
        V.Disk.told
        folder.now number
        (V.told vault.old)
        (V.told vault.new) lane.log.journal.disk) }
{
    match lanes.push(lane) {
        Ok(()) => Ok(()),
        Err(failed) => {
            give_back(vault, market, folder, number as u32, failed.value);
            Err(Unopened::NoMemory)
        }
    }
}
