//! The last call of a run: its last output line, and its exit status.
ghost use Rattle.std.specs.Prelude.{◌≡◌, ◌⊎◌, ◌≤◌, Err, IsOk};
ghost use Rattle.kb_base.specs.Faults.{Rose};
ghost use Rattle.kb_runs.specs.declared.run_stop.RunStop.TheVariants.{Output};
ghost use Rattle.kb_runs.specs.declared.stop.Stop.TheVariants.{Run};
ghost use Rattle.kb_runs.specs.Endings.{Closes, EndsBy, stop_status};
ghost use Rattle.kb_runs.specs.Statuses.{IsStatus, Tells};

use crate::last_lines::{last_line, run_line};
use crate::run_stop::RunStop;
use crate::stop::Stop;
use kb_base::{Failed, NoMemory};
use kb_ports::{Sink, write_all};
use std::alloc::Global;

/// Writes the last output line, and gives the exit status. Nothing is written behind a run that wasn't
/// stopped, or that its output stopped.
pub fn close<O: Sink>(alloc: Global, output: &mut O, run: Result<(), Stop>) -> u8
    ensures closes { Closes run result (O.written output.old) (O.written output.new) }
    ensures status { IsStatus result }
    ensures tells { Tells result run }
    ensures done { IsOk run → output.new ≡ output.old }
    ensures output_failed { run ≡ Err (Run Output) → output.new ≡ output.old }
    ensures cause { result ≡ 4 → (run ≡ Err (Run Output)) ⊎ Rose (O.faults output.old) (O.faults output.new) }
    ensures calm { (result ≡ 4 → ⊥) → O.faults output.new ≡ O.faults output.old }
    ensures rising { O.faults output.old ≤ O.faults output.new }
{
    match run {
        Ok(()) => 0,
        Err(Stop::Run(RunStop::Output)) => 4,
        Err(stop) => tell(alloc, output, stop),
    }
}

/// Writes the last output line of a stop, and gives the exit status.
fn tell<O: Sink>(alloc: Global, output: &mut O, stop: Stop) -> u8
    ensures closes { Closes (Err stop) result (O.written output.old) (O.written output.new) }
    ensures cause { result ≡ 4 → (stop_status stop ≡ 4) ⊎ Rose (O.faults output.old) (O.faults output.new) }
    ensures calm { (result ≡ 4 → ⊥) → O.faults output.new ≡ O.faults output.old }
    ensures rising { O.faults output.old ≤ O.faults output.new }
{
    match last_line(alloc, &stop) {
        Ok(line) => write_line(output, line.as_slice(), stop.status()),
        Err(NoMemory) => write_line(output, run_line(RunStop::Memory), 7),
    }
}

/// Writes a line and gives this status, or 4 where the output fails.
fn write_line<O: Sink>(output: &mut O, line: &[u8], status: u8) -> u8
    ensures ends { EndsBy line.now status result (O.written output.old) (O.written output.new) }
    ensures cause { result ≡ 4 → (status ≡ 4) ⊎ Rose (O.faults output.old) (O.faults output.new) }
    ensures calm { (result ≡ 4 → ⊥) → O.faults output.new ≡ O.faults output.old }
    ensures rising { O.faults output.old ≤ O.faults output.new }
{
    match write_all(output, line) {
        Ok(()) => status,
        Err(Failed) => 4,
    }
}
