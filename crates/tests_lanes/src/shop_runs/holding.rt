//! How a run is held against what is wanted.
ghost use Rattle.tests_lanes.specs.Insides.{AllInside};

use crate::shop_runs::runs::{APPLY, run};
use crate::shop_runs::script::{SILENT, Script};
use crate::shop_runs::shops::market_of;
use kb_disk::MemoryVault;
use std::alloc::Global;
use std::test::Fail;

/// Asks how the account `a1` stands.
pub const ACCOUNT: &str = r#"{"do":"account","account":"a1"}"#;

/// It is an error, with the name of the row and what was found, if a run didn't end with this status, or
/// wrote anything else.
pub fn hold_end(
    alloc: Global,
    found: (u8, String),
    wanted: (u8, &str),
    row: &str,
) -> Result<(), Fail> {
    let (status, text) = found;
    if status == wanted.0 && text.as_str() == wanted.1 {
        Ok(())
    } else {
        Err(Fail::new(format!(in alloc; "{row}: {status}, {text}")?))
    }
}

/// Runs the program with words over an input, with gateways for so many lanes that have nothing to say. It is
/// an error if it doesn't end as wanted: with this status and this text.
pub fn hold_words(
    alloc: Global,
    vault: &mut MemoryVault,
    lanes: u32,
    words: &str,
    input: &str,
    wanted: (u8, &str),
) -> Result<(), Fail>
    requires inside { AllInside vault.old }
    ensures inside { AllInside vault.new }
{
    let mut market = market_of(alloc, lanes, &SILENT)?;
    let found = run(alloc, vault, &mut market, words, input)?;
    hold_end(alloc, found, wanted, words)
}

/// Runs the shop's lanes over an input. It is an error if the status isn't 0 or what is written isn't what is
/// wanted.
pub fn hold_run(
    alloc: Global,
    vault: &mut MemoryVault,
    lanes: u32,
    script: &Script,
    input: &str,
    wanted: &str,
    row: &str,
) -> Result<(), Fail>
    requires inside { AllInside vault.old }
    ensures inside { AllInside vault.new }
{
    let mut market = market_of(alloc, lanes, script)?;
    let found = run(alloc, vault, &mut market, APPLY, input)?;
    hold_end(alloc, found, (0, wanted), row)
}

/// Another run over the same lanes shows this account.
pub fn hold_account(
    alloc: Global,
    vault: &mut MemoryVault,
    lanes: u32,
    account: &str,
    row: &str,
) -> Result<(), Fail>
    requires inside { AllInside vault.old }
    ensures inside { AllInside vault.new }
{
    let wanted = format!(in alloc; "{account}\n")?;
    hold_run(alloc, vault, lanes, &SILENT, ACCOUNT, &wanted, row)
}
