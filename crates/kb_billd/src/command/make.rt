//! `make`: accounts made from a seed, in memory.
ghost use Rattle.std.specs.Prelude.{◌≡◌, ◌≤◌, ◌<◌, Err};
ghost use Rattle.kb_base.specs.Faults.{Rose};
ghost use Rattle.kb_runs.specs.declared.run_stop.RunStop.TheVariants.{Input, Output};
ghost use Rattle.kb_runs.specs.declared.stop.Stop.TheVariants as stops;
ghost use Rattle.kb_billd.specs.Summaries.{MakesBy};

use kb_make::make;
use kb_ports::{Sink, write_all};
use kb_runs::{RunStop, Stop};
use kb_words::Make;
use std::alloc::Global;

/// Prints the summary of what a seed makes, for so many accounts and months.
pub fn make_accounts<O: Sink>(alloc: Global, words: &Make, output: &mut O) -> Result<(), Stop>
    ensures made { MakesBy words.now (O.written output.old) (O.written output.new) result }
    ensures read_no_input { result ≡ Err (stops.Run Input) → ⊥ }
    ensures output { result ≡ Err (stops.Run Output) → Rose (O.faults output.old) (O.faults output.new) }
    ensures output_rising { O.faults output.old ≤ O.faults output.new }
{
    match make(
        alloc,
        words.seed.get(),
        words.accounts.get(),
        words.months.get(),
    ) {
        Ok(text) => match write_all(output, &text) {
            Ok(()) => Ok(()),
            Err(_) => Err(Stop::Run(RunStop::Output)),
        },
        Err(_) => Err(Stop::Run(RunStop::Memory)),
    }
}
