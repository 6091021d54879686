//! The commands of a seed, performed on a lane in memory, and what comes of them.
ghost use Rattle.std.specs.Prelude.{◌≤◌, ◌<◌, ◌^◌, IfOk};
ghost use Rattle.kb_make.specs.Summaries.{IsSummary};

use crate::generator::Generator;
use crate::opening::shop_lane;
use crate::sending::send_all;
use crate::summary::summary_text;
use crate::totals::Totals;
use kb_base::NoMemory;
use std::alloc::Global;

/// The summary of what the commands of a seed make, for so many accounts and months, with its line feed. A
/// disk that fails, which one in memory does for want of it alone, is told as that.
pub fn make(alloc: Global, seed: u32, accounts: u32, months: u32) -> Result<Vec<u8>, NoMemory>
    requires seed { seed < 2 ^ 31 }
    requires accounts { accounts ≤ 10000 }
    requires months { months ≤ 120 }
    ensures { IfOk result (λ text. IsSummary seed accounts months text.items) }
{
    let mut lane = shop_lane(alloc)?;
    let commands = Generator::new(seed, accounts, months);
    let refused = send_all(&mut lane, alloc, commands)?;
    let lanes = [lane];
    let totals = Totals::of(alloc, &lanes)?;
    summary_text(alloc, &totals, refused)
}
