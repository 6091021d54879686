//! Lines that aren't dated, as those of a request over HTTP: only commands, and none names today.

use crate::compare::same;
use kb_json::{RequestFault, read_request};
use kb_samples::{SampleFault, line};
use std::alloc::Global;
use std::test::Fail;

/// Lines, with the number of their fault; 0 if they are a request.
static FAULTS: [(&str, u32); 6] = [
    ("{'do':'bill','account':'a1','key':'k1'}", 0),
    ("{'do':'janitor'}", 3),
    ("{'do':'account','account':'a1'}", 3),
    ("{'do':'invoice','colour':1}", 3),
    (
        "{'do':'bill','account':'a1','key':'k1','today':'2024-03-10'}",
        6,
    ),
    (
        "{'do':'catalog','key':'k1','text':'=','today':'1999-12-31'}",
        6,
    ),
];

#[test]
fn only_commands_without_today(rt: HostRuntime) -> Result<(), Fail> {
    for (text, number) in &FAULTS {
        same(&rt, &fault(rt.alloc(), text)?, number, text);
    }
    Ok(())
}

/// The number of the fault of a line.
fn fault(alloc: Global, text: &str) -> Result<u32, SampleFault> {
    match read_request(alloc, &line(alloc, text)?, false).err() {
        None => Ok(0),
        Some(RequestFault::Json(fault)) => Ok(fault.number()),
        Some(_) => Err(SampleFault::Word),
    }
}
