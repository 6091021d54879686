//! `apply`: the lines of the input, answered by the lanes of a folder.
ghost use Rattle.std.specs.Prelude.{◌≡◌, ◌≤◌, ◌<◌, ℕ, Err, true, false, length};
ghost use Rattle.kb_base.specs.Faults.{Rose};
ghost use Rattle.kb_runs.specs.declared.run_stop.RunStop.TheVariants.{Input, Output};
ghost use Rattle.kb_apply.specs.LaneRuns.{outside_of};
ghost use Rattle.kb_runs.specs.declared.stop.Stop.TheVariants as stops;
ghost use Rattle.kb_billd.specs.Runs.{AppliesFolder, stop_of_unopened};
ghost use Rattle.kb_billd.specs.Private.OpenRuns.{RunsOpen};

use kb_apply::{Lanes, apply_lanes};
use kb_disk::Vault;
use kb_folder::{Unopened, open_lanes, put_back};
use kb_gateway::Market;
use kb_lane::Lane;
use kb_ports::{Clock, Sink, Source};
use kb_runs::{RunStop, Stop};
use std::alloc::Global;

/// Answers the lines of the input by the lanes of a folder, each with a gateway of this name.
pub fn apply_folder<I: Source, O: Sink, V: Vault, M: Market, C: Clock + Drop>(
    alloc: Global,
    folder: &str,
    gateway: &str,
    input: &mut I,
    output: &mut O,
    vault: &mut V,
    market: &mut M,
    clock: C,
) -> Result<(), Stop>
    requires inside { (lane : ℕ) → (V.told vault.old).is_out folder.now lane ≡ false }
    ensures applied { AppliesFolder (outside_of V.Disk.told M.Gateway.told C.day)
        (λ made place. M.serves made gateway.now place) folder.now clock
        (V.told vault.old)
        (V.told vault.new) (M.told market.old) (M.told market.new)
        (I.left input.old) (I.left input.new) (O.written output.old) (O.written output.new) result }
    ensures input_fault { result ≡ Err (stops.Run Input) → Rose (I.faults input.old) (I.faults input.new) }
    ensures output_fault { result ≡ Err (stops.Run Output)
        → Rose (O.faults output.old) (O.faults output.new) }
    ensures output_rising { O.faults output.old ≤ O.faults output.new }
{
    match open_lanes(alloc, vault, market, folder, gateway) {
        Ok(lanes) => run_open(alloc, folder, lanes, input, output, vault, market, clock),
        Err(fault) => Err(stop_of_unopened(fault)),
    }
}

/// Answers the lines of the input by lanes that are open, and gives their disks and gateways back.
fn run_open<I: Source, O: Sink, V: Vault, M: Market, C: Clock + Drop>(
    alloc: Global,
    folder: &str,
    lanes: Vec<Lane<V::Disk, M::Gateway>>,
    input: &mut I,
    output: &mut O,
    vault: &mut V,
    market: &mut M,
    clock: C,
) -> Result<(), Stop>
    requires some { 1 ≤ length lanes.items }
    requires few { length lanes.items ≤ 64 }
    requires outside { (place : ℕ) → place < length lanes.items → (V.told vault.old).is_out folder.now place
        ≡ true }
    ensures ran { RunsOpen (outside_of V.Disk.told M.Gateway.told C.day)
        folder.now lanes.items clock
        (V.told vault.old)
        (V.told vault.new) (M.told market.old) (M.told market.new)
        (I.left input.old) (I.left input.new) (O.written output.old) (O.written output.new) result }
    ensures input_fault { result ≡ Err (stops.Run Input) → Rose (I.faults input.old) (I.faults input.new) }
    ensures output_fault { result ≡ Err (stops.Run Output) → Rose (O.faults output.old) (O.faults output.new) }
    ensures output_rising { O.faults output.old ≤ O.faults output.new }
{
    let mut lanes = Lanes::new(lanes, clock);
    let outcome = apply_lanes(alloc, &mut lanes, input, output);
    put_back(vault, market, folder, lanes.into_lanes());
    outcome
}

/// What stops the program where lanes aren't opened.
pub(crate) fn stop_of_unopened(fault: Unopened) -> Stop
    ensures { result ≡ stop_of_unopened fault }
{
    match fault {
        Unopened::Disk => Stop::Disk,
        Unopened::NoMemory => Stop::Run(RunStop::Memory),
        Unopened::Journal { lane, at } => Stop::Journal { lane, at },
        Unopened::Market => Stop::Market,
    }
}
