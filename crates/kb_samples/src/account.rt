//! Accounts, told in steps.

use crate::fault::SampleFault;
use crate::read::{day, name};
use crate::step::{Anchor, Step};
use kb_blocking::{BlockState, Blocks, Flags, Scope};
use kb_catalog::Catalog;
use kb_days::Day;
use kb_timeline::{Entry, PlanRef, Timeline};
use std::alloc::Global;

/// The names of the subscriptions, in the order in which they are created.
const NAMES: [&str; 4] = ["s1", "s2", "s3", "s4"];

/// The subscriptions of an account, all in one bundle, and its blocking states.
#[derive(Drop)]
pub struct Account {
    pub timeline: Timeline,
    pub blocks: Blocks,
}

impl Account {
    /// The account after some steps.
    pub fn of(alloc: Global, catalog: &Catalog, steps: &[Step]) -> Result<Account, SampleFault> {
        let mut account = Account::new(alloc);
        for step in steps {
            account.take(alloc, catalog, *step)?;
        }
        Ok(account)
    }

    /// An account without a subscription.
    pub fn new(alloc: Global) -> Account {
        Account {
            timeline: Timeline::new(alloc),
            blocks: Blocks::new(alloc),
        }
    }

    /// Takes a step more; a step that is refused leaves the account as it was.
    pub fn take(
        &mut self,
        alloc: Global,
        catalog: &Catalog,
        step: Step,
    ) -> Result<(), SampleFault> {
        match step {
            Step::Block {
                scope,
                service,
                from,
                billing,
                entitlement,
            } => {
                let state = state(scope, service, day(from)?, (billing, entitlement))?;
                self.blocks = self.blocks.add(alloc, state)?;
            }
            _ => self.timeline = edited(alloc, catalog, &self.timeline, step)?,
        }
        Ok(())
    }
}

/// The blocking state of a scope, a service and a day, with the flag for billing and that for use.
fn state(
    scope: Scope,
    service: &str,
    day: Day,
    flags: (bool, bool),
) -> Result<BlockState, SampleFault> {
    Ok(BlockState {
        scope,
        service: name(service)?,
        state: name("STATE")?,
        day,
        flags: Flags {
            change: false,
            entitlement: flags.1,
            billing: flags.0,
        },
    })
}

/// The subscriptions after a step more.
fn edited(
    alloc: Global,
    catalog: &Catalog,
    timeline: &Timeline,
    step: Step,
) -> Result<Timeline, SampleFault> {
    match step {
        Step::Create { plan, from, addon } => {
            let start = day(from)?;
            create(alloc, timeline, entry(catalog, plan, start, start)?, addon)
        }
        Step::Change {
            sub,
            plan,
            from,
            anchor,
        } => {
            let day = day(from)?;
            let anchor = anchored(timeline, sub, day, anchor)?;
            change(alloc, timeline, sub, entry(catalog, plan, day, anchor)?)
        }
        Step::Cancel { sub, from } => cancel(alloc, timeline, sub, day(from)?),
        Step::Uncancel { sub } => uncancel(alloc, timeline, sub),
        Step::Block { .. } => Err(SampleFault::Word),
    }
}

fn create(
    alloc: Global,
    timeline: &Timeline,
    first: Entry,
    addon: bool,
) -> Result<Timeline, SampleFault> {
    let place = timeline.len() as usize;
    let text = NAMES.get(place).ok_or(SampleFault::Subscription)?;
    Ok(timeline.create(alloc, name("b1")?, name(text)?, addon, first)?)
}

fn change(
    alloc: Global,
    timeline: &Timeline,
    sub: u32,
    entry: Entry,
) -> Result<Timeline, SampleFault> {
    if timeline.len() <= sub {
        return Err(SampleFault::Subscription);
    }
    Ok(timeline.change(alloc, sub, entry)?)
}

fn cancel(alloc: Global, timeline: &Timeline, sub: u32, end: Day) -> Result<Timeline, SampleFault> {
    if timeline.len() <= sub {
        return Err(SampleFault::Subscription);
    }
    Ok(timeline.cancel(alloc, sub, end)?)
}

fn uncancel(alloc: Global, timeline: &Timeline, sub: u32) -> Result<Timeline, SampleFault> {
    if timeline.len() <= sub {
        return Err(SampleFault::Subscription);
    }
    Ok(timeline.uncancel(alloc, sub)?)
}

/// The day from which the phases of a change are counted.
fn anchored(timeline: &Timeline, sub: u32, from: Day, anchor: Anchor) -> Result<Day, SampleFault> {
    match anchor {
        Anchor::Start => {
            if timeline.len() <= sub {
                return Err(SampleFault::Subscription);
            }
            Ok(timeline.subscription(sub).entries.start().day)
        }
        Anchor::Change => Ok(from),
        Anchor::Day(date) => day(date),
    }
}

/// The entry of a plan from a day on, whose phases are counted from an anchor.
fn entry(catalog: &Catalog, plan: &str, day: Day, anchor: Day) -> Result<Entry, SampleFault> {
    Ok(Entry {
        day,
        plan: plan_ref(catalog, plan, day)?,
        anchor,
    })
}

/// The places of the plan of a name, in the version of a day and its list DEFAULT.
fn plan_ref(catalog: &Catalog, plan: &str, day: Day) -> Result<PlanRef, SampleFault> {
    let place = catalog.version_at(day).ok_or(SampleFault::Plan)?;
    if catalog.len() <= place {
        return Err(SampleFault::Plan);
    }
    let version = catalog.version(place).version();
    let (plan, list) = (name(plan)?, name("DEFAULT")?);
    Ok(PlanRef {
        version: place,
        list: place_of(
            version
                .lists
                .as_slice()
                .iter()
                .position(|other| other.name == list),
        )?,
        plan: place_of(
            version
                .plans
                .as_slice()
                .iter()
                .position(|other| other.name == plan),
        )?,
    })
}

fn place_of(place: Option<usize>) -> Result<u32, SampleFault> {
    let place = place.ok_or(SampleFault::Plan)?;
    u32::try_from(place).ok().ok_or(SampleFault::Plan)
}
