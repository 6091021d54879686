//! Whether lanes take commands still.
ghost use Rattle.std.specs.Prelude.{◌≡◌};
ghost use Rattle.kb_desk.specs.Stops.{any_stopped};

use kb_disk::Disk;
use kb_gateway::Gateway;
use kb_lane::Lane;

/// Whether an append failed on one of some lanes.
pub fn any_stopped<D: Disk, G: Gateway + Drop>(lanes: &[Lane<D, G>]) -> bool
    ensures { result ≡ any_stopped lanes.now }
{
    lanes.iter().any(|lane| lane.is_stopped())
}
