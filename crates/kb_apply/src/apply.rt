//! Runs of lanes over the lines of a source.
ghost use Rattle.std.specs.Prelude.{◌≡◌, ◌≤◌, Err};
ghost use Rattle.kb_base.specs.Faults.{Rose};
ghost use Rattle.kb_runs.specs.declared.run_stop.RunStop.TheVariants.{Input, Output};
ghost use Rattle.kb_runs.specs.declared.stop.Stop.TheVariants.{Run};
ghost use Rattle.kb_apply.specs.Applying.{Applies, IsOutcome};
ghost use Rattle.kb_apply.specs.LaneRuns.{lanes_machine, outside_of};

use crate::lanes::Lanes;
use kb_desk::any_stopped;
use kb_disk::Disk;
use kb_gateway::Gateway;
use kb_ports::{Clock, Sink, Source};
use kb_runs::{Stop, run_lines};
use std::alloc::Global;

/// Answers the lines of a source by the lanes, one after another, until the input ends. A lane whose append
/// failed, or that is full, doesn't end the run: what it can't do is answered so, and told at the end
/// (`Disk`,
/// or else `Full`). What stops the run before its input is read to the end is a `Run`.
pub fn apply_lanes<D: Disk, G: Gateway + Drop, C: Clock + Drop, I: Source, O: Sink>(
    alloc: Global,
    lanes: &mut Lanes<D, G, C>,
    input: &mut I,
    output: &mut O,
) -> Result<(), Stop>
    ensures applied { Applies (lanes_machine (outside_of D.told
        G.told C.day)) lanes.old (I.left input.old) (I.left input.new) (O.written output.old)
        (O.written output.new) lanes.new result }
    ensures input_fault { result ≡ Err (Run Input) → Rose (I.faults input.old) (I.faults input.new) }
    ensures output_fault { result ≡ Err (Run Output) → Rose (O.faults output.old) (O.faults output.new) }
    ensures input_calm { (result ≡ Err (Run Input) → ⊥) → I.faults input.new ≡ I.faults input.old }
    ensures output_calm { (result ≡ Err (Run Output) → ⊥) → O.faults output.new ≡ O.faults output.old }
    ensures input_rising { I.faults input.old ≤ I.faults input.new }
    ensures output_rising { O.faults output.old ≤ O.faults output.new }
{
    match run_lines(alloc, lanes, input, output) {
        Ok(()) => lanes.outcome(),
        Err(stop) => Err(Stop::Run(stop)),
    }
}

impl<D: Disk, G: Gateway + Drop, C: Clock + Drop> Lanes<D, G, C> {
    /// How the lanes are left.
    fn outcome(&self) -> Result<(), Stop>
        ensures { IsOutcome self.now result }
    {
        if any_stopped(self.lanes.as_slice()) {
            return Err(Stop::Disk);
        }
        if self.full {
            return Err(Stop::Full);
        }
        Ok(())
    }
}
