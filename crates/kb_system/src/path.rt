//! Where a lane's file is.
ghost use Rattle.std.specs.Prelude.{◌≡◌, IfOk, string_bytes};
ghost use Rattle.kb_system.specs.Folders.{zero_before, lane_path};

use std::alloc::{AllocError, Global};

/// The path of a lane's file in a folder, such as `shop/lane-03.kbj`.
pub fn lane_path(alloc: Global, folder: &str, lane: u32) -> Result<String, AllocError>
    ensures { IfOk result (λ path. string_bytes path ≡ lane_path folder.now lane) }
{
    let zero = zero_before(lane);
    format!(in alloc; "{folder}/lane-{zero}{lane}.kbj")
}

/// What makes two digits of the number of a lane.
fn zero_before(lane: u32) -> &'static str
    ensures { result.now ≡ zero_before lane }
{
    if lane < 10 { "0" } else { "" }
}
