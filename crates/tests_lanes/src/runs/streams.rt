//! Sources and sinks that fail.
ghost use Rattle.tests_lanes.specs.Insides.{AllInside};

use crate::runs::shop::{ACCEPTS, ANSWERS, LINES};
use crate::shop_runs::holding::{hold_end, hold_run};
use crate::shop_runs::runs::{APPLY, make_lanes, run_between};
use crate::shop_runs::script::Script;
use crate::shop_runs::shops::{empty_vault, market_of};
use kb_disk::MemoryVault;
use kb_gateway::Told;
use kb_ports::{BytesSink, BytesSource};
use std::alloc::Global;
use std::test::Fail;

/// A gateway that would refuse the payment.
static REFUSES: Script = Script {
    told: &[Told::Error],
    seen: &[],
    failing: &[],
};

/// Which call of the source and which of the sink fails, the status, whether the answers are written, and
/// the last output line.
type Stream = (u64, u64, u8, bool, &'static str);

static STREAMS: [Stream; 5] = [
    (0, 0, 0, true, ""),
    (1, 0, 3, false, "billd: input\n"),
    (2, 0, 3, true, "billd: input\n"),
    (0, 1, 4, false, ""),
    (2, 2, 4, true, ""),
];

#[test]
fn streams_that_fail(rt: HostRuntime) -> Result<(), Fail> {
    for row in &STREAMS {
        let mut vault = empty_vault(rt.alloc())?;
        hold_stream(rt.alloc(), &mut vault, row)?;
    }
    Ok(())
}

/// Lines that are sent again after a run that a stream ended get the answers of a whole run, and no payment
/// is asked for again.
fn hold_stream(alloc: Global, vault: &mut MemoryVault, row: &Stream) -> Result<(), Fail>
    requires inside { AllInside vault.old }
    ensures inside { AllInside vault.new }
{
    make_lanes(alloc, vault, 1, "o")?;
    hold_broken(alloc, vault, row)?;
    let again = if row.0 == 1 { &ACCEPTS } else { &REFUSES };
    hold_run(alloc, vault, 1, again, LINES, ANSWERS, "again")
}

fn hold_broken(alloc: Global, vault: &mut MemoryVault, row: &Stream) -> Result<(), Fail>
    requires inside { AllInside vault.old }
    ensures inside { AllInside vault.new }
{
    let (reads, writes, status, answered, last) = *row;
    let input = BytesSource::new(LINES.as_bytes().to_vec(alloc)?, [reads].to_vec(alloc)?);
    let output = BytesSink::new(Vec::new(alloc), [writes].to_vec(alloc)?);
    let mut market = market_of(alloc, 1, &ACCEPTS)?;
    let answers = if answered { ANSWERS } else { "" };
    let wanted = format!(in alloc; "{answers}{last}")?;
    let found = run_between(alloc, vault, &mut market, APPLY, input, output)?;
    hold_end(alloc, found, (status, wanted.as_str()), "a stream")
}
