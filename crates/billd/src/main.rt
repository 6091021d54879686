//! `billd`: subscription billing.
//!
//! The program is the top call of the library `kb_billd` over the process's own words, streams, folders,
//! connections and clock, and promises what that call's clauses say.
#![tactic(auto)]

use kb_base::NoMemory;
use kb_billd::billd;
use kb_runs::{Stop, close};
use kb_system::{FolderVault, LineMarket, StdSink, StdSource, SystemClock};
use std::process::ExitCode;
use std::{env, io};

fn main(rt: HostRuntime) -> ExitCode {
    let mut input = StdSource::new(rt.stdin());
    let mut output = StdSink::new(rt.stdout());
    let mut vault = FolderVault::new(rt.alloc(), &rt);
    let mut market = LineMarket::new(&rt);
    let status = match words(&rt) {
        Ok(words) => billd(
            rt.alloc(),
            &words,
            &mut input,
            &mut output,
            &mut vault,
            &mut market,
            SystemClock::new(&rt),
        ),
        Err(stop) => close(rt.alloc(), &mut output, Err(stop)),
    };
    ExitCode::from(status)
}

/// The words behind the program's name. A word that isn't text is in no grammar.
fn words(rt: &HostRuntime) -> Result<Vec<String>, Stop> {
    let args = match env::args(rt) {
        Ok(args) => args,
        Err(error) => {
            return Err(match error.kind() {
                io::ErrorKind::OutOfMemory => NoMemory.into(),
                _ => Stop::Words,
            });
        }
    };
    let mut words = Vec::new(rt.alloc());
    for word in args.skip(1) {
        words.push(word)?;
    }
    Ok(words)
}
