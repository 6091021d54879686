//! What faults tell a shop.

use crate::compare::same;
use kb_catalog::{AddFault, CatalogFault, Rule};
use kb_catalog_text::{read, read_overdue};
use kb_overdue::{ConfigFault, ConfigRule};
use kb_samples::SampleFault;
use std::alloc::Global;
use std::fmt::Display;
use std::process::Abort;

/// A fault is told by this text.
fn says<T: Display>(
    rt: &impl Abort,
    alloc: Global,
    fault: &T,
    answer: &str,
) -> Result<(), SampleFault> {
    same(rt, &fault.to_string(alloc)?.as_str(), &answer, &"a fault");
    Ok(())
}

#[test]
fn faults_of_catalogs(rt: HostRuntime) -> Result<(), SampleFault> {
    let order = "the version isn't after the last one: give it a later date";
    says(&rt, rt.alloc(), &AddFault::VersionOrder, order)?;
    let limit = "the catalog has 64 versions and takes no more";
    says(&rt, rt.alloc(), &AddFault::Limit, limit)?;
    let fault = CatalogFault {
        rule: Rule::PlanProducts,
        index: 2,
    };
    let answer =
        "rule 6, at place 2 from 0: a plan's product isn't there: add the product, or name another one";
    says(&rt, rt.alloc(), &fault, answer)
}

#[test]
fn faults_of_overdue_states(rt: HostRuntime) -> Result<(), SampleFault> {
    let fault = ConfigFault {
        rule: ConfigRule::Count,
        index: 16,
    };
    let answer = "rule 1, at place 16 from 0: there are more than 16 states: take some out";
    says(&rt, rt.alloc(), &fault, answer)
}

#[test]
fn faults_of_texts(rt: HostRuntime) -> Result<(), SampleFault> {
    static ROWS: [(&str, &str); 5] = [
        (
            "state",
            "the text isn't TOML: correct what a TOML reader complains of",
        ),
        ("state = [{}]", "the key 'name' is missing: add it"),
        (
            "state = 5",
            "the value at the key 'state' is of another kind or out of range: correct it",
        ),
        (
            "states = 5",
            "the key 'states' isn't known in its table: take it out, or spell it otherwise",
        ),
        (
            "[[state]]\nname='CLEAR'\nblock_change=true\nblock_entitlement=true\nblock_billing=true",
            "rule 2 is broken, first at place 0 from 0 of what it speaks of: correct what stands there",
        ),
    ];
    for (text, answer) in &ROWS {
        is_refused(&rt, rt.alloc(), text, answer)?;
    }
    Ok(())
}

/// An overdue text is refused, and this is told of it.
fn is_refused(rt: &impl Abort, alloc: Global, text: &str, answer: &str) -> Result<(), SampleFault> {
    let fault = read_overdue(alloc, text.as_bytes().to_vec(alloc)?).err();
    says(rt, alloc, &fault.ok_or(SampleFault::Word)?, answer)
}

#[test]
fn the_fault_of_a_long_text(rt: HostRuntime) -> Result<(), SampleFault> {
    let mut text = Vec::new(rt.alloc());
    text.resize(60_001, b' ')?;
    let fault = read(rt.alloc(), text).err().ok_or(SampleFault::Word)?;
    let answer = "the text has 60001 bytes: shorten it to 60000";
    says(&rt, rt.alloc(), &fault, answer)
}
