//! Runs of the program.
ghost use Rattle.std.specs.Prelude.{◌≡◌, ℕ, false, List};
ghost use Rattle.tests_lanes.specs.Insides.{AllInside};

use crate::shop_runs::script::SILENT;
use crate::shop_runs::shops::market_of;
use kb_billd::billd;
use kb_disk::{MemoryVault, Vault};
use kb_gateway::{ListMarket, Market};
use kb_ports::{BytesSink, BytesSource, Clock, FixedClock, Sink, Source};
use kb_samples::day;
use std::alloc::{AllocError, Global};
use std::test::Fail;

/// The words of a run over lines.
pub const APPLY: &str = "apply --dir shop --gateway g";

/// Makes so many lanes of the shop, with this overdue text. It is an error if the status isn't 0 or anything
/// is written.
pub fn make_lanes(
    alloc: Global,
    vault: &mut MemoryVault,
    lanes: u32,
    overdue: &str,
) -> Result<(), Fail>
    requires inside { AllInside vault.old }
    ensures inside { AllInside vault.new }
{
    let words = format!(in alloc;
        "init --dir shop --lanes {lanes} --catalog c --overdue {overdue}"
    )?;
    let mut market = market_of(alloc, 0, &SILENT)?;
    let (status, text) = run(alloc, vault, &mut market, &words, "not read\n")?;
    if status == 0 && text.is_empty() {
        Ok(())
    } else {
        Err("a shop".into())
    }
}

/// Runs the program with words over an input, on 2024-03-01: its status, and what it wrote.
pub fn run(
    alloc: Global,
    vault: &mut MemoryVault,
    market: &mut ListMarket,
    words: &str,
    input: &str,
) -> Result<(u8, String), Fail>
    requires inside { AllInside vault.old }
    ensures inside { AllInside vault.new }
{
    let input = BytesSource::new(input.as_bytes().to_vec(alloc)?, Vec::new(alloc));
    let output = BytesSink::new(Vec::new(alloc), Vec::new(alloc));
    run_between(alloc, vault, market, words, input, output)
}

/// Runs the program between a source and a sink.
pub fn run_between(
    alloc: Global,
    vault: &mut MemoryVault,
    market: &mut ListMarket,
    words: &str,
    mut input: BytesSource,
    mut output: BytesSink,
) -> Result<(u8, String), Fail>
    requires inside { AllInside vault.old }
    ensures inside { AllInside vault.new }
{
    let words = words_of(alloc, words)?;
    let clock = FixedClock::new(day("2024-03-01")?);
    let status = call(alloc, &words, &mut input, &mut output, vault, market, clock);
    let text = str::from_utf8(output.bytes()).unwrap_or("?");
    Ok((status, text.to_string(alloc)?))
}

/// Calls the program. Of all that it promises, rows need only that no lane stays out.
#[tactic(auto, using(crate::proofs::Insides::still_inside))]
fn call<I: Source, O: Sink, V: Vault, M: Market, C: Clock + Drop>(
    alloc: Global,
    words: &Vec<String>,
    input: &mut I,
    output: &mut O,
    vault: &mut V,
    market: &mut M,
    clock: C,
) -> u8
    requires inside { (folder : List ℕ) (lane : ℕ) → (V.told vault.old).is_out folder lane ≡ false }
    ensures inside { (folder : List ℕ) (lane : ℕ) → (V.told vault.new).is_out folder lane ≡ false }
{
    billd(alloc, words, input, output, vault, market, clock)
}

/// Words that stand with one blank between, where `''` is a word without a byte.
fn words_of(alloc: Global, line: &str) -> Result<Vec<String>, AllocError> {
    let mut words = Vec::new(alloc);
    for word in line.split(' ') {
        let text = if word == "''" { "" } else { word };
        words.push(String::from_str(alloc, text)?)?;
    }
    Ok(words)
}
