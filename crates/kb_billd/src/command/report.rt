//! `report`: what the accounts of a folder's lanes come to.
ghost use Rattle.std.specs.Prelude.{◌≡◌, ◌≤◌, ◌<◌, ℕ, Err, true, false, length, map};
ghost use Rattle.kb_base.specs.Faults.{Rose};
ghost use Rattle.kb_lane.specs.Lanes.{machine_of};
ghost use Rattle.kb_runs.specs.declared.run_stop.RunStop.TheVariants.{Input, Output};
ghost use Rattle.kb_folder.specs.Openings.{AreBack};
ghost use Rattle.kb_runs.specs.declared.stop.Stop.TheVariants as stops;
ghost use Rattle.kb_reports.specs.declared.printing.Unprinted.TheVariants as unprinted;
ghost use Rattle.kb_billd.specs.Reports.{PrintsBy, ReportsFolder, outcome_of_printing, said_by};

use crate::command::apply::stop_of_unopened;
use crate::top::NO_GATEWAY;
use kb_days::Day;
use kb_disk::{Disk, Vault};
use kb_folder::{open_lanes, put_back};
use kb_gateway::{Gateway, NoGateway, NoMarket};
use kb_lane::Lane;
use kb_ports::Sink;
use kb_reports::{Arrears, Balances, States, Unprinted, print};
use kb_runs::{RunStop, Stop};
use kb_words::ReportKind;
use std::alloc::Global;

/// Prints a report of all accounts of a folder's lanes, which stay as they are. No gateway is asked anything.
pub fn report_folder<O: Sink, V: Vault>(
    alloc: Global,
    folder: &str,
    kind: ReportKind,
    day: Day,
    output: &mut O,
    vault: &mut V,
) -> Result<(), Stop>
    requires inside { (lane : ℕ) → (V.told vault.old).is_out folder.now lane ≡ false }
    ensures reported { ReportsFolder V.Disk.told
        folder.now
        (said_by kind day)
        (V.told vault.old)
        (V.told vault.new)
        (O.written output.old) (O.written output.new) result }
    ensures read_no_input { result ≡ Err (stops.Run Input) → ⊥ }
    ensures output { result ≡ Err (stops.Run Output) → Rose (O.faults output.old) (O.faults output.new) }
    ensures output_rising { O.faults output.old ≤ O.faults output.new }
{
    match open_lanes(alloc, vault, &mut NoMarket, folder, NO_GATEWAY) {
        Ok(lanes) => outcome_of(report_open(alloc, folder, kind, day, lanes, output, vault)),
        Err(fault) => Err(stop_of_unopened(fault)),
    }
}

/// Prints a report of all accounts of lanes that are open, and gives their disks back.
fn report_open<O: Sink, V: Vault>(
    alloc: Global,
    folder: &str,
    kind: ReportKind,
    day: Day,
    lanes: Vec<Lane<V::Disk, NoGateway>>,
    output: &mut O,
    vault: &mut V,
) -> Result<(), Unprinted>
    requires few { length lanes.items ≤ 64 }
    requires outside { (place : ℕ) → place < length lanes.items → (V.told vault.old).is_out folder.now place
        ≡ true }
    ensures prints { PrintsBy (said_by kind day) (map machine_of lanes.items)
        (O.written output.old) (O.written output.new) result }
    ensures back { AreBack V.Disk.told folder.now
        (V.told vault.old)
        (V.told vault.new) lanes.items }
    ensures output { result ≡ Err unprinted.Output → Rose (O.faults output.old) (O.faults output.new) }
    ensures output_rising { O.faults output.old ≤ O.faults output.new }
{
    let printed = print_by(alloc, kind, day, &lanes, output);
    put_back(vault, &mut NoMarket, folder, lanes);
    printed
}

/// Prints the report of a kind.
fn print_by<D: Disk, G: Gateway + Drop, O: Sink>(
    alloc: Global,
    kind: ReportKind,
    day: Day,
    lanes: &[Lane<D, G>],
    output: &mut O,
) -> Result<(), Unprinted>
    requires few { length lanes.now ≤ 64 }
    ensures prints { PrintsBy (said_by kind day) (map machine_of lanes.now)
        (O.written output.old) (O.written output.new) result }
    ensures output { result ≡ Err unprinted.Output → Rose (O.faults output.old) (O.faults output.new) }
    ensures output_rising { O.faults output.old ≤ O.faults output.new }
{
    match kind {
        ReportKind::Balances => print(alloc, &Balances, lanes, output),
        ReportKind::Arrears => print(alloc, &Arrears, lanes, output),
        ReportKind::States => print(alloc, &States { day }, lanes, output),
    }
}

/// How the program ends after a report.
fn outcome_of(printed: Result<(), Unprinted>) -> Result<(), Stop>
    ensures { result ≡ outcome_of_printing printed }
{
    match printed {
        Ok(()) => Ok(()),
        Err(Unprinted::Output) => Err(Stop::Run(RunStop::Output)),
        Err(Unprinted::NoMemory) => Err(Stop::Run(RunStop::Memory)),
    }
}
