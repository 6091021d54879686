//! `init`: the lanes of a folder, made with a catalog text and an overdue text.
ghost use Rattle.std.specs.Prelude.{◌≡◌, ℕ, false};
ghost use Rattle.kb_billd.specs.Foundings.{FoundsFolder, outcome_of_founding, stop_of_unfounded};

use kb_days::Day;
use kb_disk::Vault;
use kb_folder::{Unfounded, found_lanes};
use kb_runs::{RunStop, Stop};
use kb_words::Init;
use std::alloc::Global;

/// Makes the lanes of a folder, on this day.
pub fn init_folder<V: Vault>(
    alloc: Global,
    vault: &mut V,
    today: Day,
    init: &Init,
) -> Result<(), Stop>
    requires inside { (lane : ℕ) → (V.told vault.old).is_out init.now.dir lane ≡ false }
    ensures { FoundsFolder V.Disk.told today init.now
        (V.told vault.old)
        (V.told vault.new) result }
{
    outcome_of(found_lanes(
        alloc,
        vault,
        today,
        init.dir.as_str(),
        init.lanes.get(),
        init.catalog.as_str(),
        init.overdue.as_str(),
    ))
}

/// How the program ends after lanes are founded.
fn outcome_of(founded: Result<(), Unfounded>) -> Result<(), Stop>
    ensures { result ≡ outcome_of_founding founded }
{
    match founded {
        Ok(()) => Ok(()),
        Err(fault) => Err(stop_of_unfounded(fault)),
    }
}

/// What stops the program where lanes aren't founded.
fn stop_of_unfounded(fault: Unfounded) -> Stop
    ensures { result ≡ stop_of_unfounded fault }
{
    match fault {
        Unfounded::Disk => Stop::Disk,
        Unfounded::NoMemory => Stop::Run(RunStop::Memory),
        Unfounded::Text(fault) => Stop::Text(fault),
        Unfounded::NotEmpty { lane } => Stop::NotEmpty { lane },
    }
}
