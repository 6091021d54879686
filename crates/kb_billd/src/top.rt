//! The top call: what the program does with its words.
ghost use Rattle.std.specs.Prelude.{◌≡◌, ◌≤◌, ℕ, List, Err, Some, None, false, map, option_copied};
ghost use Rattle.std.specs.Prelude.{string_bytes};
ghost use Rattle.kb_base.specs.Faults.{Rose};
ghost use Rattle.kb_apply.specs.LaneRuns.{outside_of};
ghost use Rattle.kb_runs.specs.declared.run_stop.RunStop.TheVariants.{Input, Output};
ghost use Rattle.kb_disk.specs.Places.{SameLanes};
ghost use Rattle.kb_words.specs.Grammar.{words_of as words_read};
ghost use Rattle.kb_runs.specs.declared.stop.Stop.TheVariants as stops;
ghost use Rattle.kb_billd.specs.TopCall.{around_of, gateway_of, AppliesBy, Begins, Does, Ends};
ghost use Rattle.kb_billd.specs.TopCall.{IsToday};
ghost use Rattle.kb_billd.specs.Foundings.{FoundsFolder};
ghost use Rattle.kb_billd.specs.Reports.{ReportsFolder, said_by};

use crate::command::{apply_folder, init_folder, make_accounts, report_folder};
use kb_disk::Vault;
use kb_gateway::{Market, NoMarket};
use kb_ports::{Clock, Sink, Source};
use kb_runs::{RunStop, Stop, close};
use kb_words::{Apply, Init, Report, Text, Words, WordsFault, read_words};
use std::alloc::Global;

/// Does what the words say, which are those behind the program's name, and gives the exit status. No lane
/// may be out of the vault.
pub fn billd<I: Source, O: Sink, V: Vault, M: Market, C: Clock + Drop>(
    alloc: Global,
    words: &Vec<String>,
    input: &mut I,
    output: &mut O,
    vault: &mut V,
    market: &mut M,
    clock: C,
) -> u8
    requires inside { (folder : List ℕ) (lane : ℕ) → (V.told vault.old).is_out folder lane ≡ false }
    ensures ends { Ends (outside_of V.Disk.told M.Gateway.told C.day) M.serves clock
        (words_read (map string_bytes words.now.items))
        (around_of (I.left input.old) (O.written output.old)
        (V.told vault.old) (M.told market.old))
        (around_of (I.left input.new) (O.written output.new)
        (V.told vault.new) (M.told market.new)) result }
    ensures input { result ≡ 3 → Rose (I.faults input.old) (I.faults input.new) }
    ensures output { result ≡ 4 → Rose (O.faults output.old) (O.faults output.new) }
    ensures inside { SameLanes (V.told vault.new).is_out (V.told vault.old).is_out }
    ensures disk { result ≡ 5 → Rose (V.told vault.old).faults (V.told vault.new).faults }
    ensures market { result ≡ 10 → Rose (M.told market.old).faults (M.told market.new).faults }
{
    let run = begin(alloc, words, input, output, vault, market, clock);
    close(alloc, output, run)
}

/// Does what the words say, up to the last output line.
#[tactic(auto, using(crate::proofs::Untouched::untouched))]
fn begin<I: Source, O: Sink, V: Vault, M: Market, C: Clock + Drop>(
    alloc: Global,
    words: &Vec<String>,
    input: &mut I,
    output: &mut O,
    vault: &mut V,
    market: &mut M,
    clock: C,
) -> Result<(), Stop>
    requires inside { (folder : List ℕ) (lane : ℕ) → (V.told vault.old).is_out folder lane ≡ false }
    ensures begins { Begins (outside_of V.Disk.told M.Gateway.told C.day) M.serves clock
        (around_of (I.left input.old) (O.written output.old)
        (V.told vault.old) (M.told market.old))
        (around_of (I.left input.new) (O.written output.new)
        (V.told vault.new) (M.told market.new))
        result (words_read (map string_bytes words.now.items)) }
    ensures input { result ≡ Err (stops.Run Input) → Rose (I.faults input.old) (I.faults input.new) }
    ensures output { result ≡ Err (stops.Run Output) → Rose (O.faults output.old) (O.faults output.new) }
    ensures output_rising { O.faults output.old ≤ O.faults output.new }
{
    match read_words(alloc, words) {
        Ok(words) => act(alloc, &words, input, output, vault, market, clock),
        Err(WordsFault::Words) => Err(Stop::Words),
        Err(WordsFault::NoMemory) => Err(Stop::Run(RunStop::Memory)),
    }
}

/// Does what words of the grammar say, up to the last output line.
#[tactic(auto, using(crate::proofs::Untouched::untouched))]
fn act<I: Source, O: Sink, V: Vault, M: Market, C: Clock + Drop>(
    alloc: Global,
    words: &Words,
    input: &mut I,
    output: &mut O,
    vault: &mut V,
    market: &mut M,
    clock: C,
) -> Result<(), Stop>
    requires inside { (folder : List ℕ) (lane : ℕ) → (V.told vault.old).is_out folder lane ≡ false }
    ensures does { Does (outside_of V.Disk.told M.Gateway.told C.day) M.serves clock
        (around_of (I.left input.old) (O.written output.old)
        (V.told vault.old) (M.told market.old))
        (around_of (I.left input.new) (O.written output.new)
        (V.told vault.new) (M.told market.new))
        result (Some words.now) }
    ensures input { result ≡ Err (stops.Run Input) → Rose (I.faults input.old) (I.faults input.new) }
    ensures output { result ≡ Err (stops.Run Output) → Rose (O.faults output.old) (O.faults output.new) }
    ensures output_rising { O.faults output.old ≤ O.faults output.new }
{
    match words {
        Words::Init(init) => init_on(alloc, vault, init, &clock),
        Words::Apply(apply) => apply_by(alloc, apply, input, output, vault, market, clock),
        Words::Report(report) => report_by(alloc, report, output, vault),
        Words::Make(make) => make_accounts(alloc, make, output),
        Words::Bill(_) | Words::Serve(_) => Err(Stop::Words),
    }
}

/// Makes the lanes of a folder, on the clock's day.
fn init_on<V: Vault, C: Clock>(
    alloc: Global,
    vault: &mut V,
    init: &Init,
    clock: &C,
) -> Result<(), Stop>
    requires inside { (lane : ℕ) → (V.told vault.old).is_out init.now.dir lane ≡ false }
    ensures { (today : ℕ) × IsToday (C.day clock.now) today × FoundsFolder V.Disk.told today init.now
        (V.told vault.old)
        (V.told vault.new) result }
{
    init_folder(alloc, vault, clock.today(), init)
}

/// Answers the lines of the input by the lanes of a folder, with the gateway that is named, or with none.
fn apply_by<I: Source, O: Sink, V: Vault, M: Market, C: Clock + Drop>(
    alloc: Global,
    apply: &Apply,
    input: &mut I,
    output: &mut O,
    vault: &mut V,
    market: &mut M,
    clock: C,
) -> Result<(), Stop>
    requires inside { (lane : ℕ) → (V.told vault.old).is_out apply.now.dir lane ≡ false }
    ensures applied { AppliesBy (outside_of V.Disk.told M.Gateway.told C.day) M.serves
        apply.now.dir clock
        (around_of (I.left input.old) (O.written output.old)
        (V.told vault.old) (M.told market.old))
        (around_of (I.left input.new) (O.written output.new)
        (V.told vault.new) (M.told market.new))
        result (gateway_of apply.now.gateway) }
    ensures input { result ≡ Err (stops.Run Input) → Rose (I.faults input.old) (I.faults input.new) }
    ensures output { result ≡ Err (stops.Run Output) → Rose (O.faults output.old) (O.faults output.new) }
    ensures output_rising { O.faults output.old ≤ O.faults output.new }
{
    let folder = apply.dir.as_str();
    match gateway_of(&apply.gateway) {
        Some(gateway) => apply_folder(alloc, folder, gateway, input, output, vault, market, clock),
        None => apply_folder(
            alloc,
            folder,
            NO_GATEWAY,
            input,
            output,
            vault,
            &mut NoMarket,
            clock,
        ),
    }
}

/// Prints a report of all accounts of a folder's lanes.
fn report_by<O: Sink, V: Vault>(
    alloc: Global,
    report: &Report,
    output: &mut O,
    vault: &mut V,
) -> Result<(), Stop>
    requires inside { (lane : ℕ) → (V.told vault.old).is_out report.now.dir lane ≡ false }
    ensures reported { ReportsFolder V.Disk.told
        report.now.dir (said_by report.now.kind report.now.day)
        (V.told vault.old)
        (V.told vault.new)
        (O.written output.old) (O.written output.new) result }
    ensures read_no_input { result ≡ Err (stops.Run Input) → ⊥ }
    ensures output { result ≡ Err (stops.Run Output) → Rose (O.faults output.old) (O.faults output.new) }
    ensures output_rising { O.faults output.old ≤ O.faults output.new }
{
    report_folder(
        alloc,
        report.dir.as_str(),
        report.kind,
        report.day,
        output,
        vault,
    )
}

/// The name of no gateway.
pub(crate) const NO_GATEWAY: &str = "none";

/// The gateway that a market is asked for, if one is.
fn gateway_of(named: &Option<Text>) -> Option<&str>
    ensures { option_copied result ≡ gateway_of named.now }
{
    match named {
        Some(name) if name.as_str() != NO_GATEWAY => Some(name.as_str()),
        _ => None,
    }
}
