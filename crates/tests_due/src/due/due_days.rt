//! From the end of days on nothing is due.

use crate::compare::same;
use crate::due::held::{Held, hold};
use kb_days::{END_OF_DAYS, LAST_CHARGED, LAST_REACH, Reach};
use kb_due::{Cell, Facts};
use kb_samples::{CLUB, Case, SampleFault, cells_on, create, day, is_there, reach};
use std::process::Abort;
use std::test::Fail;

static AT_THE_END: [Case<Held>; 1] = [Case {
    texts: &[CLUB],
    bcd: 1,
    steps: &[create!("Starter", "2099-12-31")],
    held: Held::NoCells,
}];

#[test]
fn nothing_is_due_from_the_end_of_days_on(rt: HostRuntime) -> Result<(), Fail> {
    hold(&rt, rt.alloc(), &AT_THE_END)
}

/// It has no cell from the end of days on.
pub(crate) fn has_no_cells(rt: &impl Abort, facts: &Facts) -> Result<(), SampleFault> {
    for number in [LAST_CHARGED, END_OF_DAYS, LAST_REACH] {
        same(rt, &last_cells(facts, number)?, &(None, None), &number);
    }
    Ok(())
}

/// The cells of a day by its number, billed on 2099-12-31.
fn last_cells(facts: &Facts, number: u32) -> Result<(Option<Cell>, Option<Cell>), SampleFault> {
    is_there(facts, 0)?;
    let day_of = Reach::new(number).ok_or(SampleFault::Word)?;
    Ok(cells_on(facts, 0, day("2099-12-31")?, day_of))
}
