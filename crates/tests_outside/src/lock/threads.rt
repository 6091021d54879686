//! Threads that add to one history, and each call once.
ghost use Rattle.std.specs.Prelude.{◌≡◌, ◌<◌};
ghost use mathlib.Core.List.{IsPrefix};
ghost use Rattle.kb_lock.specs.Passes.{idle};

use kb_lock::{Counted, Held, Pass};
use std::alloc::Global;
use std::sync::Wait;
use std::test::Fail;
use std::thread;
use std::thread::Threads;

/// How many entries a thread adds.
const ENTRIES: u32 = 100_000;

/// Which thread added it, and how many it added before.
#[derive(Clone, Copy, Debug, PartialEq)]
struct Entry {
    thread: usize,
    number: u32,
}

/// Entries in the order in which they were added.
#[derive(Drop)]
struct Log {
    entries: Vec<Entry>,
}

impl Counted for Log {
    type Entry = Entry;

    ghost history = { λ log. log.entries.items };

    fn count(&self) -> u64 {
        self.entries.len() as u64
    }
}

impl Log {
    fn new(alloc: Global, capacity: usize) -> Result<Log, Fail> {
        let entries = Vec::with_capacity(alloc, capacity)?;
        Ok(Log { entries })
    }

    /// Adds an entry, and says whether there was memory.
    #[tactic(auto, using(kb_lock::proofs::Prefixes::prefix_self, kb_lock::proofs::Prefixes::prefix_more))]
    fn add(&mut self, entry: Entry) -> bool
        ensures { IsPrefix self.old.entries.items self.new.entries.items }
    {
        self.entries.push(entry).is_ok()
    }
}

fn add<R: Wait>(rt: &R, held: &Held<Log>, pass: &mut Pass<Log>, entry: Entry) -> bool
    requires { pass.old ≡ idle held.now pass.old.seen }
    ensures { pass.new ≡ idle held.now pass.new.seen }
{
    let mut turn = held.take(rt, pass);
    let added = turn.value.add(entry);
    held.give(pass, turn);
    added
}

/// Adds the entries of a thread.
fn add_all<R: Wait>(rt: &R, held: &Held<Log>, own: Pass<Log>, thread: usize) -> Pass<Log>
    requires { own ≡ idle held.now own.seen }
    ensures { result ≡ idle held.now result.seen }
{
    let mut pass = own;
    for number in 0..ENTRIES {
        add(rt, held, &mut pass, Entry { thread, number });
    }
    pass
}

/// Adds the entries of two threads.
fn add_two<R: Threads + Wait + Sync>(
    rt: &R,
    held: &Held<Log>,
    own: Pass<Log>,
    one: usize,
    two: usize,
) -> Pass<Log>
    requires { own ≡ idle held.now own.seen }
    ensures { result ≡ idle held.now result.seen }
{
    let mut pass = own;
    let twin = held.split(&mut pass);
    let (mut pass, twin) = thread::join(
        rt,
        move ||
            requires { pass ≡ idle held.now pass.seen }
            ensures { result ≡ idle held.entry.now result.seen }
        { add_all(rt, held, pass, one) },
        move ||
            requires { twin ≡ idle held.now twin.seen }
            ensures { result ≡ idle held.entry.now result.seen }
        { add_all(rt, held, twin, two) },
    );
    held.join(&mut pass, twin);
    pass
}

/// Adds the entries of four threads.
fn add_four<R: Threads + Wait + Sync>(rt: &R, held: &Held<Log>, own: Pass<Log>) -> Pass<Log>
    requires { own ≡ idle held.now own.seen }
    ensures { result ≡ idle held.now result.seen }
{
    let mut pass = own;
    let twin = held.split(&mut pass);
    let (mut pass, twin) = thread::join(
        rt,
        move ||
            requires { pass ≡ idle held.now pass.seen }
            ensures { result ≡ idle held.entry.now result.seen }
        { add_two(rt, held, pass, 0, 1) },
        move ||
            requires { twin ≡ idle held.now twin.seen }
            ensures { result ≡ idle held.entry.now result.seen }
        { add_two(rt, held, twin, 2, 3) },
    );
    held.join(&mut pass, twin);
    pass
}

/// How many entries of each thread come in its order, up to the first that doesn't.
fn in_order(entries: &[Entry]) -> [u32; 4] {
    let mut counts = [0; 4];
    for entry in entries {
        let Some(count) = counts.get_mut(entry.thread) else {
            return [0; 4];
        };
        if *count != entry.number {
            return counts;
        }
        *count = count.wrapping_add(1);
    }
    counts
}

#[test]
fn each_entry_of_four_threads_stands_once_in_order(rt: HostRuntime) -> Result<(), Fail> {
    let (held, pass) = Held::new(rt.alloc(), Log::new(rt.alloc(), 4 * ENTRIES as usize)?)?;
    let pass = add_four(&rt, &held, pass);
    let log = held.close(&rt, pass);
    assert_eq!(rt; in_order(log.entries.as_slice()), [ENTRIES; 4]);
    Ok(())
}

#[test]
fn each_call_once(rt: HostRuntime) -> Result<(), Fail> {
    let (held, mut own) = Held::new(rt.alloc(), Log::new(rt.alloc(), 2)?)?;
    let mut other = held.split(&mut own);
    let entry = |number| Entry { thread: 0, number };
    let first = add(&rt, &held, &mut other, entry(0));
    let second = add(&rt, &held, &mut own, entry(1));
    held.join(&mut own, other);
    let log = held.close(&rt, own);
    assert_eq!(rt;
        (first, second, log.count(), log.entries.as_slice()),
        (true, true, 2, [entry(0), entry(1)].as_slice())
    );
    Ok(())
}
