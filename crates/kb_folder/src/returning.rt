//! A lane given back.
ghost use Rattle.std.specs.Prelude.{◌≡◌, ◌<◌, true, false, IsTrue};
ghost use Rattle.kb_gateway.specs.Told.{payments_asked};
ghost use Rattle.kb_lane.specs.Logs.{KeepsAll, StandsForLog};
ghost use Rattle.kb_lane.specs.Asking.{HaveAttempts, WasAskedOnce};
ghost use Rattle.kb_lane.specs.Lanes.{machine_of, opened_of};
ghost use Rattle.kb_folder.specs.OneLane.{GatewayIsBack, TakesBack};

use kb_disk::Vault;
use kb_gateway::Market;
use kb_lane::Lane;

/// Gives a lane's disk back to its folder and its gateway to the market, as those of this number.
pub fn give_back<V: Vault, M: Market>(
    vault: &mut V,
    market: &mut M,
    folder: &str,
    number: u32,
    lane: Lane<V::Disk, M::Gateway>,
)
    requires outside { (V.told vault.old).is_out folder.now number ≡ true }
    ensures back { TakesBack V.Disk.told
        folder.now number
        (V.told vault.old)
        (V.told vault.new) lane.log.journal.disk }
    ensures gateway { GatewayIsBack number (M.told market.old) (M.told market.new) lane.gateway }
    ensures stands { IsTrue (V.Disk.told.honest lane.log.journal.disk)
        → StandsForLog lane.log (V.Disk.told.seen lane.log.journal.disk) }
    ensures durable { IsTrue (V.Disk.told.honest lane.log.journal.disk) → lane.log.journal.stopped ≡ false
        → KeepsAll V.Disk.told.images lane.log }
    ensures caused { lane.log.journal.stopped ≡ true → 0 < V.Disk.told.fault_count lane.log.journal.disk }
    ensures quiet { lane.log.journal.stopped ≡ false
        → V.Disk.told.fault_count lane.log.journal.disk ≡ lane.log.faults }
    ensures once { WasAskedOnce (opened_of lane) (payments_asked M.Gateway.told lane.gateway) lane.own }
    ensures attempts { HaveAttempts (machine_of lane) lane.own }
{
    let (disk, gateway) = lane.into_parts();
    vault.back(folder, number, disk);
    market.back(number, gateway);
}
