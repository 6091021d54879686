//! Disks that fail around a payment: it is never asked for twice, and a look-up settles it.
ghost use Rattle.tests_lanes.specs.Insides.{AllInside};

use crate::runs::failing_lanes::{founded_bytes, hold_stopped};
use crate::shop_runs::holding::hold_run;
use crate::shop_runs::script::Script;
use crate::shop_runs::shops::{bytes_in, vault_on};
use kb_disk::MemoryVault;
use kb_gateway::{Seen, Told};
use std::alloc::Global;
use std::test::Fail;

/// The payment is written down by the calls 12 to 15 of the disk, then asked for, and what was told is
/// written down by the calls 16 to 19.
const LINES: &str = r#"{"do":"open","account":"a1","key":"k1","currency":"USD","bcd":1}
{"do":"create","account":"a1","key":"k2","bundle":"b1","subscription":"s1","product":"Basic","period":"MONTHLY"}
{"do":"pay","account":"a1","key":"k3","payment":"p1","invoice":1}
{"do":"payment","account":"a1","payment":"p1"}
"#;

/// The lines of another run, over the same bytes on a disk that doesn't fail.
const AGAIN: &str = r#"{"do":"pay","account":"a1","key":"k3","payment":"p1","invoice":1}
{"do":"payment","account":"a1","payment":"p1"}
{"do":"janitor"}
{"do":"payment","account":"a1","payment":"p1"}
"#;

/// The gateway of the first run accepts the payment.
static ACCEPTS: Script = Script {
    told: &[Told::Processed],
    seen: &[],
    failing: &[],
};

struct Fault {
    /// The first and the last of the disk's calls of which one fails.
    first: u64,
    last: u64,
    answers: &'static str,
    /// What the gateway of the second run does, and the answers of that run.
    script: Script,
    again: &'static str,
}

static FAULTS: [Fault; 4] = [
    // Nothing is there: it is asked for by the second run.
    Fault {
        first: 12,
        last: 14,
        answers: r#"{"status":"ok","command":1,"invoice":null,"total":0,"credit":0,"unpaid":0}
{"status":"ok","command":2,"invoice":1,"total":1000,"credit":0,"unpaid":1000}
{"status":"disk"}
{"status":"refused","number":20,"name":"NoPayment"}
"#,
        script: Script {
            told: &[Told::Processed],
            seen: &[],
            failing: &[],
        },
        again: r#"{"status":"ok","command":3,"invoice":null,"total":0,"credit":0,"unpaid":1000}
{"status":"ok","payment":"p1","kind":"PURCHASE","invoice":1,"amount":1000,"state":"SUCCESS"}
{"status":"ok"}
{"status":"ok","payment":"p1","kind":"PURCHASE","invoice":1,"amount":1000,"state":"SUCCESS"}
"#,
    },
    // It is there, though it was never asked for.
    Fault {
        first: 15,
        last: 15,
        answers: r#"{"status":"ok","command":1,"invoice":null,"total":0,"credit":0,"unpaid":0}
{"status":"ok","command":2,"invoice":1,"total":1000,"credit":0,"unpaid":1000}
{"status":"disk"}
{"status":"refused","number":20,"name":"NoPayment"}
"#,
        script: Script {
            told: &[Told::Error],
            seen: &[],
            failing: &[],
        },
        again: r#"{"status":"ok","command":3,"invoice":null,"total":0,"credit":0,"unpaid":1000}
{"status":"ok","payment":"p1","kind":"PURCHASE","invoice":1,"amount":1000,"state":"UNKNOWN"}
{"status":"ok"}
{"status":"ok","payment":"p1","kind":"PURCHASE","invoice":1,"amount":1000,"state":"PLUGIN_FAILURE"}
"#,
    },
    // It was asked for, and what was told is lost.
    Fault {
        first: 16,
        last: 18,
        answers: r#"{"status":"ok","command":1,"invoice":null,"total":0,"credit":0,"unpaid":0}
{"status":"ok","command":2,"invoice":1,"total":1000,"credit":0,"unpaid":1000}
{"status":"ok","command":3,"invoice":null,"total":0,"credit":0,"unpaid":1000}
{"status":"ok","payment":"p1","kind":"PURCHASE","invoice":1,"amount":1000,"state":"UNKNOWN"}
"#,
        script: Script {
            told: &[Told::Error],
            seen: &[Seen::Told(Told::Processed)],
            failing: &[],
        },
        again: r#"{"status":"ok","command":3,"invoice":null,"total":0,"credit":0,"unpaid":1000}
{"status":"ok","payment":"p1","kind":"PURCHASE","invoice":1,"amount":1000,"state":"UNKNOWN"}
{"status":"ok"}
{"status":"ok","payment":"p1","kind":"PURCHASE","invoice":1,"amount":1000,"state":"SUCCESS"}
"#,
    },
    // What was told is there.
    Fault {
        first: 19,
        last: 19,
        answers: r#"{"status":"ok","command":1,"invoice":null,"total":0,"credit":0,"unpaid":0}
{"status":"ok","command":2,"invoice":1,"total":1000,"credit":0,"unpaid":1000}
{"status":"ok","command":3,"invoice":null,"total":0,"credit":0,"unpaid":1000}
{"status":"ok","payment":"p1","kind":"PURCHASE","invoice":1,"amount":1000,"state":"UNKNOWN"}
"#,
        script: Script {
            told: &[Told::Error],
            seen: &[],
            failing: &[],
        },
        again: r#"{"status":"ok","command":3,"invoice":null,"total":0,"credit":0,"unpaid":1000}
{"status":"ok","payment":"p1","kind":"PURCHASE","invoice":1,"amount":1000,"state":"SUCCESS"}
{"status":"ok"}
{"status":"ok","payment":"p1","kind":"PURCHASE","invoice":1,"amount":1000,"state":"SUCCESS"}
"#,
    },
];

#[test]
fn a_payment_is_asked_for_once(rt: HostRuntime) -> Result<(), Fail> {
    let alloc = rt.alloc();
    let bytes = founded_bytes(alloc)?;
    for fault in &FAULTS {
        for call in fault.first..fault.last {
            hold_fault(alloc, &bytes, call, fault)?;
        }
        hold_fault(alloc, &bytes, fault.last, fault)?;
    }
    Ok(())
}

fn hold_fault(alloc: Global, bytes: &[u8], call: u64, fault: &Fault) -> Result<(), Fail> {
    let mut failing = vault_on(alloc, bytes.to_vec(alloc)?, &[call])?;
    hold_stopped(alloc, &mut failing, &ACCEPTS, LINES, fault.answers)?;
    let mut whole = vault_on(alloc, bytes_in(alloc, &mut failing)?, &[])?;
    hold_again(alloc, &mut whole, fault)
}

fn hold_again(alloc: Global, vault: &mut MemoryVault, fault: &Fault) -> Result<(), Fail>
    requires inside { AllInside vault.old }
    ensures inside { AllInside vault.new }
{
    hold_run(
        alloc,
        vault,
        1,
        &fault.script,
        AGAIN,
        fault.again,
        "payments",
    )
}
