//! Disks that fail while lines are answered.
ghost use Rattle.tests_lanes.specs.Insides.{AllInside};

use crate::runs::failing_lanes::{founded_bytes, hold_stopped};
use crate::shop_runs::holding::{hold_account, hold_run};
use crate::shop_runs::script::SILENT;
use crate::shop_runs::shops::{bytes_in, vault_on};
use kb_disk::MemoryVault;
use std::alloc::Global;
use std::test::Fail;

/// Each command is written down by four calls of the disk: the record is written and synced, and then its
/// gate.
const LINES: &str =
    r#"{"do":"open","account":"a1","key":"k1","currency":"USD","bcd":1,"today":"2024-03-01"}
{"do":"create","account":"a1","key":"k2","bundle":"b1","subscription":"s1","product":"Basic","period":"MONTHLY","day":"2024-03-01","today":"2024-03-01"}
{"do":"charge","account":"a1","key":"k3","amount":500,"today":"2024-03-01"}
{"do":"account","account":"a1"}
{"do":"open","account":"a1","key":"k1","currency":"USD","bcd":1,"today":"2024-03-01"}
"#;

const ANSWERS: &str = r#"{"status":"ok","command":1,"invoice":null,"total":0,"credit":0,"unpaid":0}
{"status":"ok","command":2,"invoice":1,"total":1000,"credit":0,"unpaid":1000}
{"status":"ok","command":3,"invoice":2,"total":500,"credit":0,"unpaid":1500}
{"status":"ok","account":"a1","currency":"USD","billed":"2024-03-01","charged":1500,"paid":0,"credit":0,"unpaid":1500,"overdue":"CLEAR"}
{"status":"ok","command":1,"invoice":null,"total":0,"credit":0,"unpaid":0}
"#;

/// The first and the last of the disk's calls of which one fails, the answers of the run, and how the
/// account stands on a disk of the same bytes that doesn't fail.
type Fault = (u64, u64, &'static str, &'static str);

/// The lane is loaded by three calls. A command is there as soon as its gate is written, though the sync
/// behind that fails and the answer is `disk`.
static FAULTS: [Fault; 7] = [
    (
        1,
        3,
        r#""#,
        r#"{"status":"refused","number":3,"name":"NoAccount"}"#,
    ),
    (
        4,
        6,
        r#"{"status":"disk"}
{"status":"refused","number":3,"name":"NoAccount"}
{"status":"refused","number":3,"name":"NoAccount"}
{"status":"refused","number":3,"name":"NoAccount"}
{"status":"stopped","count":2}
"#,
        r#"{"status":"refused","number":3,"name":"NoAccount"}"#,
    ),
    (
        7,
        7,
        r#"{"status":"disk"}
{"status":"refused","number":3,"name":"NoAccount"}
{"status":"refused","number":3,"name":"NoAccount"}
{"status":"refused","number":3,"name":"NoAccount"}
{"status":"stopped","count":2}
"#,
        r#"{"status":"ok","account":"a1","currency":"USD","billed":null,"charged":0,"paid":0,"credit":0,"unpaid":0,"overdue":"CLEAR"}"#,
    ),
    (
        8,
        10,
        r#"{"status":"ok","command":1,"invoice":null,"total":0,"credit":0,"unpaid":0}
{"status":"disk"}
{"status":"stopped","count":3}
{"status":"ok","account":"a1","currency":"USD","billed":null,"charged":0,"paid":0,"credit":0,"unpaid":0,"overdue":"CLEAR"}
{"status":"ok","command":1,"invoice":null,"total":0,"credit":0,"unpaid":0}
"#,
        r#"{"status":"ok","account":"a1","currency":"USD","billed":null,"charged":0,"paid":0,"credit":0,"unpaid":0,"overdue":"CLEAR"}"#,
    ),
    (
        11,
        11,
        r#"{"status":"ok","command":1,"invoice":null,"total":0,"credit":0,"unpaid":0}
{"status":"disk"}
{"status":"stopped","count":3}
{"status":"ok","account":"a1","currency":"USD","billed":null,"charged":0,"paid":0,"credit":0,"unpaid":0,"overdue":"CLEAR"}
{"status":"ok","command":1,"invoice":null,"total":0,"credit":0,"unpaid":0}
"#,
        r#"{"status":"ok","account":"a1","currency":"USD","billed":"2024-03-01","charged":1000,"paid":0,"credit":0,"unpaid":1000,"overdue":"CLEAR"}"#,
    ),
    (
        12,
        14,
        r#"{"status":"ok","command":1,"invoice":null,"total":0,"credit":0,"unpaid":0}
{"status":"ok","command":2,"invoice":1,"total":1000,"credit":0,"unpaid":1000}
{"status":"disk"}
{"status":"ok","account":"a1","currency":"USD","billed":"2024-03-01","charged":1000,"paid":0,"credit":0,"unpaid":1000,"overdue":"CLEAR"}
{"status":"ok","command":1,"invoice":null,"total":0,"credit":0,"unpaid":0}
"#,
        r#"{"status":"ok","account":"a1","currency":"USD","billed":"2024-03-01","charged":1000,"paid":0,"credit":0,"unpaid":1000,"overdue":"CLEAR"}"#,
    ),
    (
        15,
        15,
        r#"{"status":"ok","command":1,"invoice":null,"total":0,"credit":0,"unpaid":0}
{"status":"ok","command":2,"invoice":1,"total":1000,"credit":0,"unpaid":1000}
{"status":"disk"}
{"status":"ok","account":"a1","currency":"USD","billed":"2024-03-01","charged":1000,"paid":0,"credit":0,"unpaid":1000,"overdue":"CLEAR"}
{"status":"ok","command":1,"invoice":null,"total":0,"credit":0,"unpaid":0}
"#,
        r#"{"status":"ok","account":"a1","currency":"USD","billed":"2024-03-01","charged":1500,"paid":0,"credit":0,"unpaid":1500,"overdue":"CLEAR"}"#,
    ),
];

#[test]
fn disks_that_fail(rt: HostRuntime) -> Result<(), Fail> {
    let alloc = rt.alloc();
    let bytes = founded_bytes(alloc)?;
    for row in &FAULTS {
        for call in row.0..row.1 {
            hold_fault(alloc, &bytes, call, row)?;
        }
        hold_fault(alloc, &bytes, row.1, row)?;
    }
    Ok(())
}

fn hold_fault(alloc: Global, bytes: &[u8], call: u64, row: &Fault) -> Result<(), Fail> {
    let mut failing = vault_on(alloc, bytes.to_vec(alloc)?, &[call])?;
    hold_stopped(alloc, &mut failing, &SILENT, LINES, row.2)?;
    let mut whole = vault_on(alloc, bytes_in(alloc, &mut failing)?, &[])?;
    hold_again(alloc, &mut whole, row.3)
}

/// Each command that was answered is there, and lines that are sent again get the answers of a whole run.
fn hold_again(alloc: Global, vault: &mut MemoryVault, account: &str) -> Result<(), Fail>
    requires inside { AllInside vault.old }
    ensures inside { AllInside vault.new }
{
    hold_account(alloc, vault, 1, account, "disks")?;
    hold_run(alloc, vault, 1, &SILENT, LINES, ANSWERS, "disks")
}
