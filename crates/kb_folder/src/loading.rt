//! One lane of a folder, opened.
ghost use Rattle.std.specs.Prelude.{◌≡◌, ◌≤◌, ℕ, List, Option, IfSome, IfOk, IfErr, OnOk, OnErr, true, false};
ghost use Rattle.kb_disk.specs.Vaults.{Opens};
ghost use Rattle.kb_gateway.specs.Told.{IsUnasked};
ghost use Rattle.kb_folder.specs.OneLane.{GatewayIsBack, GatewayIsLeft, IsOpened, IsRefused, KeepsBytes, TakesOut};
ghost use Rattle.kb_folder.specs.Private.Unmade.{IsUnloaded, IsUnmade, StaysOut};

use crate::unopened::{Unopened, unloaded_by, unopened_by};
use kb_disk::{Disk, Vault};
use kb_gateway::{Gateway, Market};
use kb_lane::Lane;
use std::alloc::Global;

/// Opens the lane of this number, with a gateway of this name. Its disk is only synced and read. A fault
/// leaves it in the vault.
pub fn open_lane<V: Vault, M: Market>(
    alloc: Global,
    vault: &mut V,
    market: &mut M,
    folder: &str,
    gateway: &str,
    number: u16,
) -> Result<Lane<V::Disk, M::Gateway>, Unopened>
    requires inside { (V.told vault.old).is_out folder.now number ≡ false }
    ensures opened { IfOk result (λ lane. TakesOut
        V.Disk.told
        folder.now lane.log.journal.lanes number
        (V.told vault.old)
        (V.told vault.new) lane) }
    ensures some_lanes { IfOk result (λ lane. 1 ≤ lane.log.journal.lanes) }
    ensures few_lanes { IfOk result (λ lane. lane.log.journal.lanes ≤ 64) }
    ensures served { IfOk result (λ lane. M.serves lane.gateway gateway.now number) }
    ensures unasked { IfOk result (λ lane. IsUnasked M.Gateway.told lane.gateway) }
    ensures same_gateways { OnOk result ((other : ℕ)
        → (M.told market.new).came_back other ≡ (M.told market.old).came_back other) }
    ensures gateway_left { OnErr result (GatewayIsLeft M.Gateway.told number (M.told market.old)
        (M.told market.new)) }
    ensures calm { OnOk result ((M.told market.new).faults ≡ (M.told market.old).faults) }
    ensures rising { (M.told market.old).faults ≤ (M.told market.new).faults }
    ensures refused { (count : ℕ) → IfErr result (IsRefused V.Disk.told folder.now count number
        (V.told vault.old)
        (V.told vault.new)
        (M.told market.old).faults (M.told market.new).faults) }
{
    match vault.lane(alloc, folder, number as u32) {
        Ok(disk) => make_lane(alloc, vault, market, folder, gateway, number, disk),
        Err(fault) => Err(unopened_by(fault)),
    }
}

/// Loads a lane from its disk, with a gateway of the market. A fault gives the disk back.
fn make_lane<V: Vault, M: Market>(
    alloc: Global,
    vault: &mut V,
    market: &mut M,
    folder: &str,
    gateway: &str,
    number: u16,
    disk: V::Disk,
) -> Result<Lane<V::Disk, M::Gateway>, Unopened>
    requires outside { (V.told vault.old).is_out folder.now number ≡ true }
    requires fresh { V.Disk.told.fault_count disk ≡ 0 }
    requires unmoved { V.Disk.told.moment disk ≡ 0 }
    ensures opened { (told : Option (List ℕ)) → IfSome told
        (Opens V.Disk.told.honest V.Disk.told.seen V.Disk.told.images disk) → IfOk result (λ lane. StaysOut
        V.Disk.told
        lane.log.journal.lanes number told
        (V.told vault.old)
        (V.told vault.new) lane) }
    ensures some_lanes { IfOk result (λ lane. 1 ≤ lane.log.journal.lanes) }
    ensures few_lanes { IfOk result (λ lane. lane.log.journal.lanes ≤ 64) }
    ensures served { IfOk result (λ lane. M.serves lane.gateway gateway.now number) }
    ensures unasked { IfOk result (λ lane. IsUnasked M.Gateway.told lane.gateway) }
    ensures same_gateways { OnOk result ((other : ℕ)
        → (M.told market.new).came_back other ≡ (M.told market.old).came_back other) }
    ensures gateway_left { OnErr result (GatewayIsLeft M.Gateway.told number (M.told market.old)
        (M.told market.new)) }
    ensures calm { OnOk result ((M.told market.new).faults ≡ (M.told market.old).faults) }
    ensures rising { (M.told market.old).faults ≤ (M.told market.new).faults }
    ensures refused { (count : ℕ) (told : Option (List ℕ)) → IfSome told
        (Opens V.Disk.told.honest V.Disk.told.seen V.Disk.told.images disk)
        → IfErr result (IsUnmade V.Disk.told folder.now count number told
        (V.told vault.old)
        (V.told vault.new)
        (M.told market.old).faults (M.told market.new).faults) }
{
    match market.gateway(gateway, number as u32) {
        Ok(made) => load_lane(alloc, vault, market, folder, number, disk, made),
        Err(_) => {
            vault.back(folder, number as u32, untouched(disk));
            Err(Unopened::Market)
        }
    }
}

/// A disk that has had no call, as it is: a crash since it was taken out leaves the bytes over which it is
/// open.
fn untouched<D: Disk>(disk: D) -> D
    requires unmoved { D.told.moment disk ≡ 0 }
    ensures same { result ≡ disk }
    ensures keeps { (told : Option (List ℕ)) → IfSome told
        (Opens D.told.honest D.told.seen D.told.images disk)
        → KeepsBytes D.told told disk }
{
    disk
}

/// Loads a lane from its disk. A fault gives the disk and the gateway back.
fn load_lane<V: Vault, M: Market>(
    alloc: Global,
    vault: &mut V,
    market: &mut M,
    folder: &str,
    number: u16,
    disk: V::Disk,
    gateway: M::Gateway,
) -> Result<Lane<V::Disk, M::Gateway>, Unopened>
    requires outside { (V.told vault.old).is_out folder.now number ≡ true }
    requires fresh { V.Disk.told.fault_count disk ≡ 0 }
    requires unmoved { V.Disk.told.moment disk ≡ 0 }
    ensures opened { (told : Option (List ℕ)) → IfSome told
        (Opens V.Disk.told.honest V.Disk.told.seen V.Disk.told.images disk) → IfOk result (λ lane. StaysOut
        V.Disk.told
        lane.log.journal.lanes number told
        (V.told vault.old)
        (V.told vault.new) lane) }
    ensures some_lanes { IfOk result (λ lane. 1 ≤ lane.log.journal.lanes) }
    ensures few_lanes { IfOk result (λ lane. lane.log.journal.lanes ≤ 64) }
    ensures gateway { IfOk result (λ lane. lane.gateway ≡ gateway) }
    ensures market_kept { OnOk result (market.new ≡ market.old) }
    ensures gateway_back { OnErr result
        (GatewayIsBack number (M.told market.old) (M.told market.new) gateway) }
    ensures refused { (count : ℕ) (told : Option (List ℕ)) (market : ℕ) → IfSome told
        (Opens V.Disk.told.honest V.Disk.told.seen V.Disk.told.images disk)
        → IfErr result (IsUnmade V.Disk.told folder.now count number told
        (V.told vault.old)
        (V.told vault.new) market market) }
{
    match load_on(alloc, disk, gateway, number) {
        Ok(lane) => Ok(lane),
        Err((fault, disk, gateway)) => {
            vault.back(folder, number as u32, disk);
            market.back(number as u32, gateway);
            Err(fault)
        }
    }
}

/// Loads a lane from its disk, which has had no call.
#[tactic(auto, using(crate::proofs::Unloaded::unharmed_by))]
fn load_on<D: Disk, G: Gateway + Drop>(
    alloc: Global,
    disk: D,
    gateway: G,
    number: u16,
) -> Result<Lane<D, G>, (Unopened, D, G)>
    requires fresh { D.told.fault_count disk ≡ 0 }
    requires unmoved { D.told.moment disk ≡ 0 }
    ensures opened { (told : Option (List ℕ)) → IfSome told
        (Opens D.told.honest D.told.seen D.told.images disk)
        → IfOk result (λ lane. IsOpened D.told
        lane.log.journal.lanes number told lane) }
    ensures some_lanes { IfOk result (λ lane. 1 ≤ lane.log.journal.lanes) }
    ensures few_lanes { IfOk result (λ lane. lane.log.journal.lanes ≤ 64) }
    ensures gateway { IfOk result (λ lane. lane.gateway ≡ gateway) }
    ensures same_gateway { IfErr result (λ refused. refused.2 ≡ gateway) }
    ensures refused { (told : Option (List ℕ)) → IfSome told
        (Opens D.told.honest D.told.seen D.told.images disk)
        → IfErr result (λ refused. IsUnloaded D.told
        number told refused.0 refused.1) }
{
    match Lane::load(alloc, disk, gateway, number) {
        Ok(lane) => Ok(lane),
        Err((fault, disk, gateway)) => Err((unloaded_by(number, fault), disk, gateway)),
    }
}
