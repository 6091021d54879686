//! Answers to commands and to the janitor.

use crate::compare::same;
use kb_book::{Answer, LaneReply, Step};
use kb_json::{MEMORY_TEXT, Said, answer_text};
use kb_samples::SampleFault;
use std::alloc::Global;
use std::process::Abort;
use std::test::Fail;

/// An answer has this text.
pub(crate) fn says(
    rt: &impl Abort,
    alloc: Global,
    answer: &Said,
    text: &str,
) -> Result<(), SampleFault> {
    let found = answer_text(alloc, answer)?;
    same(rt, &found.as_slice(), &text.as_bytes(), &text);
    Ok(())
}

/// The number of a command, its invoice, each of its sums, and the text of the answer.
type Accepted = (u64, Option<u32>, i128, &'static str);

static ACCEPTED: [Accepted; 2] = [
    (
        18_446_744_073_709_551_615,
        Some(4_294_967_295),
        9_223_372_036_854_775_808,
        r#"{"status":"ok","command":18446744073709551615,"invoice":4294967295,"total":9223372036854775808,"credit":9223372036854775808,"unpaid":9223372036854775808}"#,
    ),
    (
        0,
        None,
        i128::MIN,
        r#"{"status":"ok","command":0,"invoice":null,"total":-170141183460469231731687303715884105728,"credit":-170141183460469231731687303715884105728,"unpaid":-170141183460469231731687303715884105728}"#,
    ),
];

#[test]
fn accepted_commands(rt: HostRuntime) -> Result<(), Fail> {
    for row in &ACCEPTED {
        let (command, invoice, sum, text) = *row;
        let answer = Answer {
            command,
            invoice,
            total: sum,
            credit: sum,
            unpaid: sum,
        };
        reply_says(&rt, rt.alloc(), LaneReply::Accepted(answer), text)?;
    }
    Ok(())
}

fn reply_says(
    rt: &impl Abort,
    alloc: Global,
    reply: LaneReply,
    text: &str,
) -> Result<(), SampleFault> {
    says(rt, alloc, &Said::Reply(reply), text)
}

/// Replies, with their texts.
static REPLIES: [(LaneReply, &str); 4] = [
    (LaneReply::DiskFault, r#"{"status":"disk"}"#),
    (LaneReply::Stopped(7), r#"{"status":"stopped","count":7}"#),
    (
        LaneReply::Full {
            commands: 3,
            size: 1_099_511_627_776,
        },
        r#"{"status":"full","commands":3,"size":1099511627776}"#,
    ),
    (LaneReply::NoMemory, r#"{"status":"memory"}"#),
];

#[test]
fn other_replies(rt: HostRuntime) -> Result<(), Fail> {
    for (reply, text) in &REPLIES {
        reply_says(&rt, rt.alloc(), *reply, text)?;
    }
    Ok(())
}

/// Steps, with their texts.
static STEPS: [(Step, &str); 5] = [
    (Step::Done, r#"{"status":"ok"}"#),
    (Step::DiskFault, r#"{"status":"disk"}"#),
    (Step::Stopped(0), r#"{"status":"stopped","count":0}"#),
    (
        Step::Full {
            commands: 0,
            size: 17,
        },
        r#"{"status":"full","commands":0,"size":17}"#,
    ),
    (Step::NoMemory, r#"{"status":"memory"}"#),
];

#[test]
fn steps_of_the_janitor(rt: HostRuntime) -> Result<(), Fail> {
    for (step, text) in &STEPS {
        step_says(&rt, rt.alloc(), *step, text)?;
    }
    Ok(())
}

fn step_says(rt: &impl Abort, alloc: Global, step: Step, text: &str) -> Result<(), SampleFault> {
    says(rt, alloc, &Said::Janitor(step), text)
}

#[test]
fn the_text_of_no_memory(rt: HostRuntime) -> Result<(), Fail> {
    same(
        &rt,
        &MEMORY_TEXT,
        &br#"{"status":"memory"}"#.as_slice(),
        &"memory",
    );
    Ok(())
}
