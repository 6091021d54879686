//! Reports on a shop's accounts.
ghost use Rattle.tests_lanes.specs.Insides.{AllInside};

use crate::shop_runs::holding::{hold_end, hold_run, hold_words};
use crate::shop_runs::runs::{make_lanes, run_between};
use crate::shop_runs::script::{SILENT, Script};
use crate::shop_runs::shops::{empty_vault, market_of};
use kb_disk::MemoryVault;
use kb_gateway::Told;
use kb_ports::{BytesSink, BytesSource};
use std::alloc::Global;
use std::test::Fail;

/// Three accounts: one has paid for a month that it cancelled on the 20th, one owes since the 10th, and one
/// has nothing.
const LINES: &str =
    r#"{"do":"open","account":"a2","key":"k1","currency":"USD","bcd":1,"today":"2024-03-10"}
{"do":"create","account":"a2","key":"k2","bundle":"b1","subscription":"s1","product":"Basic","period":"MONTHLY","day":"2024-03-10","today":"2024-03-10"}
{"do":"open","account":"a10","key":"k1","currency":"USD","bcd":1,"today":"2024-03-10"}
{"do":"open","account":"a1","key":"k1","currency":"USD","bcd":1,"today":"2024-03-01"}
{"do":"create","account":"a1","key":"k2","bundle":"b1","subscription":"s1","product":"Basic","period":"MONTHLY","day":"2024-03-01","today":"2024-03-01"}
{"do":"pay","account":"a1","key":"k3","payment":"p1","invoice":1,"today":"2024-03-01"}
{"do":"cancel","account":"a1","key":"k4","subscription":"s1","day":"2024-03-20","today":"2024-03-25"}
{"do":"bill","account":"a2","key":"k3","day":"2024-03-18","today":"2024-03-18"}
"#;

const ANSWERS: &str = r#"{"status":"ok","command":1,"invoice":null,"total":0,"credit":0,"unpaid":0}
{"status":"ok","command":2,"invoice":1,"total":710,"credit":0,"unpaid":710}
{"status":"ok","command":1,"invoice":null,"total":0,"credit":0,"unpaid":0}
{"status":"ok","command":1,"invoice":null,"total":0,"credit":0,"unpaid":0}
{"status":"ok","command":2,"invoice":1,"total":1000,"credit":0,"unpaid":1000}
{"status":"ok","command":3,"invoice":null,"total":0,"credit":0,"unpaid":1000}
{"status":"ok","command":5,"invoice":2,"total":-387,"credit":387,"unpaid":0}
{"status":"ok","command":3,"invoice":null,"total":0,"credit":0,"unpaid":710}
"#;

/// A gateway that accepts one payment.
static ACCEPTS: Script = Script {
    told: &[Told::Processed],
    seen: &[],
    failing: &[],
};

/// The words of a report, and what it prints.
static REPORTS: [(&str, &str); 5] = [
    (
        "report --dir shop --kind balances --day 2024-03-01",
        "a1\t613\t1000\t387\t0\na10\t0\t0\t0\t0\na2\t710\t0\t0\t710\n",
    ),
    (
        "report --kind=arrears --day=2024-03-01 --dir=shop",
        "a2\tWARNING\t1\t710\t2024-03-10\n",
    ),
    (
        "report --dir shop --kind states --day 2024-03-05",
        "a1\tb1\ts1\tACTIVE\na2\tb1\ts1\tPENDING\n",
    ),
    (
        "report --dir shop --kind states --day 2024-03-19",
        "a1\tb1\ts1\tACTIVE\na2\tb1\ts1\tACTIVE\n",
    ),
    (
        "report --dir shop --kind states --day 2024-03-20",
        "a1\tb1\ts1\tCANCELLED\na2\tb1\ts1\tACTIVE\n",
    ),
];

#[test]
fn reports(rt: HostRuntime) -> Result<(), Fail> {
    for lanes in [1, 3] {
        let mut vault = empty_vault(rt.alloc())?;
        hold_reports(rt.alloc(), &mut vault, lanes)?;
    }
    Ok(())
}

/// Each report is printed; and behind all of them, lines that are sent again get the answers that they got
/// before.
fn hold_reports(alloc: Global, vault: &mut MemoryVault, lanes: u32) -> Result<(), Fail>
    requires inside { AllInside vault.old }
    ensures inside { AllInside vault.new }
{
    make_lanes(alloc, vault, lanes, "o")?;
    hold_run(alloc, vault, lanes, &ACCEPTS, LINES, ANSWERS, "reports")?;
    hold_each(alloc, vault, &REPORTS)?;
    hold_cut(alloc, vault)?;
    hold_run(alloc, vault, lanes, &SILENT, LINES, ANSWERS, "reports")
}

/// Runs of these words read no input, and print the reports.
fn hold_each(alloc: Global, vault: &mut MemoryVault, reports: &[(&str, &str)]) -> Result<(), Fail>
    requires inside { AllInside vault.old }
    ensures inside { AllInside vault.new }
{
    for row in reports {
        let (words, wanted) = *row;
        hold_words(alloc, vault, 0, words, "not read\n", (0, wanted))?;
    }
    Ok(())
}

/// The output fails behind the first account.
fn hold_cut(alloc: Global, vault: &mut MemoryVault) -> Result<(), Fail>
    requires inside { AllInside vault.old }
    ensures inside { AllInside vault.new }
{
    let input = BytesSource::new(Vec::new(alloc), Vec::new(alloc));
    let output = BytesSink::new(Vec::new(alloc), [2].to_vec(alloc)?);
    let mut market = market_of(alloc, 0, &SILENT)?;
    let (words, wanted) = REPORTS[0];
    let found = run_between(alloc, vault, &mut market, words, input, output)?;
    let first = wanted.split_inclusive('\n').next().unwrap_or("");
    hold_end(alloc, found, (4, first), words)
}
