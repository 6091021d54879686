//! A report, printed.
ghost use Rattle.std.specs.Prelude.{◌≡◌, ◌≤◌, Some, Err, OnOk, OnErr, IfOk, map, length};
ghost use Rattle.std.specs.Io.KnownBytes.{Appends};
ghost use Rattle.kb_base.specs.Faults.{Rose};
ghost use Rattle.kb_lane.specs.Lanes.{machine_of};
ghost use Rattle.kb_reports.specs.declared.printing.Unprinted.TheVariants as unprinted;
ghost use Rattle.kb_reports.specs.Listings.{Prints, PrintsPart, of_lane, of_listed, report_text};
ghost use Rattle.kb_reports.specs.Private.Parts.{WritesPart};

use crate::listed::{Listed, listing};
use crate::report::Report;
use kb_base::NoMemory;
use kb_days::Name;
use kb_disk::Disk;
use kb_gateway::Gateway;
use kb_lane::Lane;
use kb_ports::{Sink, write_all};
use std::alloc::Global;
use thiserror::Error;

/// Why a report isn't printed to its end.
#[derive(Clone, Copy, Debug, PartialEq, Eq, Error)]
pub enum Unprinted {
    /// The output failed.
    #[error("the output failed")]
    Output,
    #[error("out of memory")]
    NoMemory,
}

/// Prints a report of all accounts of some lanes, of which there are at most 64: the accounts by name, each
/// with its lines. A fault leaves a first part printed.
pub fn print<R: Report, D: Disk, G: Gateway + Drop, O: Sink>(
    alloc: Global,
    report: &R,
    lanes: &[Lane<D, G>],
    output: &mut O,
) -> Result<(), Unprinted>
    requires few { length lanes.now ≤ 64 }
    ensures printed { OnOk result (Prints (R.said report.now) (map machine_of lanes.now)
        (O.written output.old) (O.written output.new)) }
    ensures part { OnErr result (PrintsPart (R.said report.now) (map machine_of lanes.now)
        (O.written output.old) (O.written output.new)) }
    ensures cause { result ≡ Err unprinted.Output → Rose (O.faults output.old) (O.faults output.new) }
    ensures calm { OnOk result (O.faults output.new ≡ O.faults output.old) }
    ensures rising { O.faults output.old ≤ O.faults output.new }
{
    match listing(alloc, lanes) {
        Ok(listed) => print_each(alloc, report, lanes, &listed, output),
        Err(NoMemory) => Err(Unprinted::NoMemory),
    }
}

/// Prints the lines of accounts, one account after another.
fn print_each<R: Report, D: Disk, G: Gateway + Drop, O: Sink>(
    alloc: Global,
    report: &R,
    lanes: &[Lane<D, G>],
    listed: &[Listed],
    output: &mut O,
) -> Result<(), Unprinted>
    ensures printed { OnOk result (Appends (O.written output.old) (O.written output.new)
        (report_text (R.said report.now) (map machine_of lanes.now) listed.now)) }
    ensures part { OnErr result (WritesPart (O.written output.old) (O.written output.new)
        (report_text (R.said report.now) (map machine_of lanes.now) listed.now)) }
    ensures cause { result ≡ Err unprinted.Output → Rose (O.faults output.old) (O.faults output.new) }
    ensures calm { OnOk result (O.faults output.new ≡ O.faults output.old) }
    ensures rising { O.faults output.old ≤ O.faults output.new }
{
    for one in listed {
        print_account(alloc, report, lanes, one, output)?;
    }
    Ok(())
}

/// Prints the lines of an account, by one write.
fn print_account<R: Report, D: Disk, G: Gateway + Drop, O: Sink>(
    alloc: Global,
    report: &R,
    lanes: &[Lane<D, G>],
    one: &Listed,
    output: &mut O,
) -> Result<(), Unprinted>
    ensures printed { OnOk result (Appends (O.written output.old) (O.written output.new)
        (of_listed (R.said report.now) (map machine_of lanes.now) one.now)) }
    ensures part { OnErr result (WritesPart (O.written output.old) (O.written output.new)
        (of_listed (R.said report.now) (map machine_of lanes.now) one.now)) }
    ensures cause { result ≡ Err unprinted.Output → Rose (O.faults output.old) (O.faults output.new) }
    ensures calm { OnOk result (O.faults output.new ≡ O.faults output.old) }
    ensures rising { O.faults output.old ≤ O.faults output.new }
{
    match account_text(alloc, report, lanes, one) {
        Ok(text) => write_text(output, &text),
        Err(NoMemory) => Err(Unprinted::NoMemory),
    }
}

/// Writes a text; the output fails or takes it.
fn write_text<O: Sink>(output: &mut O, text: &[u8]) -> Result<(), Unprinted>
    ensures printed { OnOk result (Appends (O.written output.old) (O.written output.new) text.now) }
    ensures part { OnErr result (WritesPart (O.written output.old) (O.written output.new) text.now) }
    ensures cause { result ≡ Err unprinted.Output → Rose (O.faults output.old) (O.faults output.new) }
    ensures calm { OnOk result (O.faults output.new ≡ O.faults output.old) }
    ensures rising { O.faults output.old ≤ O.faults output.new }
{
    match write_all(output, text) {
        Ok(()) => Ok(()),
        Err(_) => Err(Unprinted::Output),
    }
}

/// What a report says of a listed account.
fn account_text<R: Report, D: Disk, G: Gateway + Drop>(
    alloc: Global,
    report: &R,
    lanes: &[Lane<D, G>],
    one: &Listed,
) -> Result<Vec<u8>, NoMemory>
    ensures { IfOk result (λ text. text.items
        ≡ of_listed (R.said report.now) (map machine_of lanes.now) one.now) }
{
    match lanes.get(one.lane as usize) {
        Some(lane) => lane_text(alloc, report, lane, &one.account),
        None => Ok(Vec::new(alloc)),
    }
}

/// What a report says of an account of a lane.
fn lane_text<R: Report, D: Disk, G: Gateway + Drop>(
    alloc: Global,
    report: &R,
    lane: &Lane<D, G>,
    account: &Name,
) -> Result<Vec<u8>, NoMemory>
    ensures { IfOk result (λ text. text.items
        ≡ of_lane (R.said report.now) account.now (Some (machine_of lane.now))) }
{
    let mut text = Vec::new(alloc);
    if let Some(book) = lane.book(account) {
        report.say(alloc, &mut text, account, lane.world(), book)?;
    }
    Ok(text)
}
