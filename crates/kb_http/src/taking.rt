//! A request that is taken off the front of what was read.
ghost use Rattle.std.specs.Prelude.{◌≡◌, ◌≤◌, ◌+◌, length, take, drop, IfOk, OnOk, OnErr};

use kb_base::NoMemory;
use std::alloc::Global;

/// Takes the first bytes off, and gives so many of the last ones among them.
pub fn take_body(
    alloc: Global,
    pending: &mut Vec<u8>,
    start: usize,
    count: usize,
) -> Result<Vec<u8>, NoMemory>
    requires within { start + count ≤ length pending.old.items }
    ensures body { IfOk result (λ body. body.items ≡ take count (drop start pending.old.items)) }
    ensures rest { OnOk result (pending.new.items ≡ drop (start + count) pending.old.items) }
    ensures err { OnErr result (pending.new.items ≡ pending.old.items) }
{
    let body = pending[start..start + count].to_vec(alloc)?;
    drop_front(alloc, pending, start + count)?;
    Ok(body)
}

/// Takes the first bytes off.
fn drop_front(alloc: Global, pending: &mut Vec<u8>, count: usize) -> Result<(), NoMemory>
    requires within { count ≤ length pending.old.items }
    ensures ok { OnOk result (pending.new.items ≡ drop count pending.old.items) }
    ensures err { OnErr result (pending.new.items ≡ pending.old.items) }
{
    if count == pending.len() {
        pending.clear();
        return Ok(());
    }
    let rest = pending[count..].to_vec(alloc)?;
    *pending = rest;
    Ok(())
}
