//! What stops a run if memory runs out.

use kb_base::NoMemory;
use kb_runs::Stop;

/// Adds a byte, as callers do that may lack memory for it.
fn add(bytes: &mut Vec<u8>) -> Result<(), Stop> {
    Ok(bytes.push(7)?)
}

#[test]
fn want_of_memory(rt: HostRuntime) {
    let mut bytes = Vec::new(rt.alloc());
    assert!(rt; add(&mut bytes).is_ok());
    assert_eq!(rt; Stop::from(NoMemory).status(), 7);
}
