//! Gateways that fail, one call after another, and payments that are looked up then.
ghost use Rattle.tests_lanes.specs.Insides.{AllInside};

use crate::billd::months::MONTHS;
use crate::billd::rows::Row;
use crate::compare::same;
use crate::shop_runs::holding::{ACCOUNT, hold_run};
use crate::shop_runs::runs::{APPLY, make_lanes, run};
use crate::shop_runs::script::Script;
use crate::shop_runs::shops::{empty_vault, market_behind};
use kb_disk::MemoryVault;
use kb_gateway::{Seen, Told};
use std::alloc::Global;
use std::process::Abort;
use std::test::Fail;

/// A gateway that refuses all orders, and has seen that one was paid.
static PAID: Script = Script {
    told: &[Told::Error, Told::Error],
    seen: &[Seen::Told(Told::Processed)],
    failing: &[],
};

/// The calls of the gateway that fail in the row's run; and what is shown of the account behind its
/// charges, after that run and after a look-up.
type Fault = (&'static [u64], &'static str, &'static str);

/// The gateway's other answers come in their order all the same: an order that is asked later is told what
/// the one that failed would have been. A payment whose outcome isn't known stays open, so no other one is
/// made of its invoice.
static MONTH: [Fault; 8] = [
    (
        &[1],
        r#""paid":37810,"credit":0,"unpaid":342,"overdue":"BLOCKED"}"#,
        r#""paid":38120,"credit":0,"unpaid":32,"overdue":"CLEAR"}"#,
    ),
    (
        &[2],
        r#""paid":1620,"credit":0,"unpaid":36532,"overdue":"BLOCKED"}"#,
        r#""paid":38120,"credit":0,"unpaid":32,"overdue":"CLEAR"}"#,
    ),
    (
        &[3],
        r#""paid":37810,"credit":0,"unpaid":342,"overdue":"BLOCKED"}"#,
        r#""paid":38120,"credit":0,"unpaid":32,"overdue":"CLEAR"}"#,
    ),
    (
        &[4],
        r#""paid":37842,"credit":0,"unpaid":310,"overdue":"BLOCKED"}"#,
        r#""paid":38152,"credit":0,"unpaid":0,"overdue":"CLEAR"}"#,
    ),
    (
        &[5],
        r#""paid":37842,"credit":0,"unpaid":310,"overdue":"BLOCKED"}"#,
        r#""paid":38152,"credit":0,"unpaid":0,"overdue":"CLEAR"}"#,
    ),
    (
        &[6],
        r#""paid":38120,"credit":0,"unpaid":32,"overdue":"CLEAR"}"#,
        r#""paid":38152,"credit":0,"unpaid":0,"overdue":"CLEAR"}"#,
    ),
    (
        &[7],
        r#""paid":36842,"credit":0,"unpaid":1310,"overdue":"CLEAR"}"#,
        r#""paid":38152,"credit":0,"unpaid":0,"overdue":"CLEAR"}"#,
    ),
    (
        &[8],
        r#""paid":38152,"credit":0,"unpaid":0,"overdue":"CLEAR"}"#,
        r#""paid":38152,"credit":0,"unpaid":0,"overdue":"CLEAR"}"#,
    ),
];

/// The account of the month, up to what is paid.
const MONTH_CHARGED: &str =
    r#"{"status":"ok","account":"a1","currency":"USD","billed":"2024-04-01","charged":38152"#;

#[test]
fn a_month_in_which_the_gateway_fails_once(rt: HostRuntime) -> Result<(), Fail> {
    for fault in &MONTH {
        hold_fault(&rt, rt.alloc(), &MONTHS[0], fault, MONTH_CHARGED)?;
    }
    Ok(())
}

/// Holds a fault in a row.
fn hold_fault(
    rt: &impl Abort,
    alloc: Global,
    row: &Row,
    fault: &Fault,
    charged: &str,
) -> Result<(), Fail> {
    let mut vault = empty_vault(alloc)?;
    hold_fault_on(rt, alloc, &mut vault, row, fault, charged)
}

/// The run with the fault ends as one without any. A run behind it looks the payment up, and asks for no
/// order.
fn hold_fault_on(
    rt: &impl Abort,
    alloc: Global,
    vault: &mut MemoryVault,
    row: &Row,
    fault: &Fault,
    charged: &str,
) -> Result<(), Fail>
    requires inside { AllInside vault.old }
    ensures inside { AllInside vault.new }
{
    let (calls, failed, settled) = *fault;
    make_lanes(alloc, vault, 1, row.overdue)?;
    hold_failing(rt, alloc, vault, row, calls)?;
    let wanted = format!(in alloc; "{charged},{failed}\n")?;
    hold_run(alloc, vault, 1, &PAID, ACCOUNT, &wanted, row.name)?;
    let wanted = format!(in alloc; "{{\"status\":\"ok\"}}\n{charged},{settled}\n")?;
    hold_run(alloc, vault, 1, &PAID, LOOKED_UP, &wanted, row.name)
}

/// Looks the open payments up, and asks how the account stands.
const LOOKED_UP: &str = r#"{"do":"janitor","today":"2024-04-01"}
{"do":"account","account":"a1"}"#;

/// All lines of a row are answered by a run in which calls of the gateway fail.
fn hold_failing(
    rt: &impl Abort,
    alloc: Global,
    vault: &mut MemoryVault,
    row: &Row,
    calls: &[u64],
) -> Result<(), Fail>
    requires inside { AllInside vault.old }
    ensures inside { AllInside vault.new }
{
    let mut market = market_behind(alloc, &row.script, calls)?;
    let (status, text) = run(alloc, vault, &mut market, APPLY, row.lines)?;
    let found = (status, text.lines().count());
    same(rt, &found, &(0, row.lines.lines().count()), &row.name);
    Ok(())
}
