//! What was chosen for subscriptions.

use crate::compare::same;
use crate::due::held::{Held, hold};
use kb_blocking::Scope;
use kb_catalog::{Category, PhaseType, PlanAsk};
use kb_days::{Name, Period};
use kb_due::{Choice, Facts, ask_of, choice_on, is_available};
use kb_samples::{
    CLUB, Case, SampleFault, Step, add_on, block, cancel, change, create, is_there, name, reach,
};
use std::process::Abort;
use std::test::Fail;

const ACCOUNT: Scope = Scope::Account;

/// A lead from 1 to 20 March that no longer offers its add-on from 11 March on, blocked on 7 and 8 March.
const STEPS: [Step; 7] = [
    create!("Basic", "2024-03-01"),
    add_on!("Support", "2024-03-03"),
    change!(0, "Pro", "2024-03-11"),
    cancel!(0, "2024-03-21"),
    block!(ACCOUNT, "fraud", "2024-03-05", true, false),
    block!(ACCOUNT, "fraud", "2024-03-07", true, true),
    block!(ACCOUNT, "fraud", "2024-03-09", false, false),
];

/// What was chosen for the lead, and what is asked for the add-on's plan.
static CASES: [Case<Held>; 2] = [
    Case {
        texts: &[CLUB],
        bcd: 1,
        steps: &STEPS,
        held: Held::Choices,
    },
    Case {
        texts: &[CLUB],
        bcd: 1,
        steps: &STEPS,
        held: Held::Asked,
    },
];

/// A plan, and whether Support and Extra may be had with it.
type Chosen = (Name, bool, bool);

/// The day, the lead's plan, and whether Support and Extra may be had with it.
static CHOICES: [(&str, Option<(&str, bool, bool)>); 4] = [
    ("2024-02-29", None),
    ("2024-03-01", Some(("Basic", true, true))),
    ("2024-03-10", Some(("Basic", true, true))),
    ("2024-03-11", Some(("Pro", false, true))),
];

#[test]
fn choices_of_days(rt: HostRuntime) -> Result<(), Fail> {
    hold(&rt, rt.alloc(), &CASES[..1])
}

/// The lead's choices are as rows say.
pub(crate) fn are_chosen(rt: &impl Abort, facts: &Facts) -> Result<(), SampleFault> {
    for row in &CHOICES {
        same(rt, &choice_of_lead(facts, row.0)?, &wanted(row.1)?, row);
    }
    Ok(())
}

fn wanted(choice: Option<(&str, bool, bool)>) -> Result<Option<Chosen>, SampleFault> {
    match choice {
        None => Ok(None),
        Some((plan, support, extra)) => Ok(Some((name(plan)?, support, extra))),
    }
}

fn choice_of_lead(facts: &Facts, date: &str) -> Result<Option<Chosen>, SampleFault> {
    let (support, extra) = (name("Support")?, name("Extra")?);
    match choice(facts, 0, date)? {
        None => Ok(None),
        Some(choice) => Ok(Some((
            choice.plan.name,
            is_available(&choice, support),
            is_available(&choice, extra),
        ))),
    }
}

/// What was chosen for the subscription at a place on a day.
fn choice<'a>(facts: &Facts<'a>, sub: u32, date: &str) -> Result<Option<Choice<'a>>, SampleFault> {
    is_there(facts, sub)?;
    let entries = &facts.timeline.subscription(sub).entries;
    Ok(choice_on(facts.catalog, entries, reach(date)?))
}

#[test]
fn the_rules_are_asked_for_a_plan(rt: HostRuntime) -> Result<(), Fail> {
    hold(&rt, rt.alloc(), &CASES[1..])
}

/// The rules are asked for the add-on's plan.
pub(crate) fn is_asked(rt: &impl Abort, facts: &Facts) -> Result<(), SampleFault> {
    let ask = ask_of_addon(facts)?;
    let names = (name("Support")?, name("DEFAULT")?);
    same(rt, &(ask.product, ask.list), &names, &"names");
    let words = (
        Some(Category::AddOn),
        Period::Monthly,
        Some(PhaseType::Evergreen),
    );
    same(rt, &(ask.category, ask.period, ask.phase), &words, &"words");
    Ok(())
}

fn ask_of_addon(facts: &Facts) -> Result<PlanAsk, SampleFault> {
    let choice = choice(facts, 1, "2024-03-03")?.ok_or(SampleFault::Plan)?;
    let phases = choice.plan.phases.as_slice();
    Ok(ask_of(&choice, phases.first().ok_or(SampleFault::Plan)?))
}
