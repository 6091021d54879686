//! What the days that one phase governs are charged by.
ghost use Rattle.std.specs.Prelude.{None, ◌≡◌, ◌<◌, ◌≤◌, ◌+◌, ℕ, option_map, IfSome};
ghost use Rattle.kb_days.specs.Calendar.{first_day, last_charged};
ghost use Rattle.kb_align.specs.Boundaries.{IsPeriodOf};
ghost use Rattle.kb_align.specs.PeriodDays.{max_period_days};
ghost use Rattle.kb_due.specs.CycleDays.{cycle_day};
ghost use Rattle.kb_due.specs.Cells.{cell_by};
ghost use Rattle.kb_due.specs.Rates.{rate_cell, IsRateOf};

use crate::cell::Cell;
use crate::cycle_day::cycle_day;
use crate::facts::Facts;
use crate::governing::Governing;
use kb_align::period_of;
use kb_days::{Bcd, Period, Reach};
use kb_money::Minor;
use kb_timeline::{PlanRef, Subscription};

/// All of the cells of the days that one phase governs but their billing periods, and by what these are
/// counted.
#[derive(Clone, Copy)]
pub struct Rate {
    pub plan: PlanRef,
    pub phase: u32,
    pub price: Minor,
    pub start: Reach,
    pub period: Period,
    pub bcd: Bcd,
}

/// The rate by what governs: none where the phase has no billing period, or no recurring price.
pub fn rate_by(facts: &Facts, subscription: &Subscription, governing: &Governing) -> Option<Rate>
    ensures value { (day : ℕ) → option_map (λ rate. rate_cell rate day) result
        ≡ cell_by facts.now subscription.now day governing.now }
    ensures rate { IfSome result (IsRateOf facts.now subscription.now governing.now) }
{
    if matches!(governing.phase.period, Period::NoBillingPeriod) {
        return None;
    }
    let price = governing.phase.recurring_price(facts.currency)?;
    Some(Rate {
        plan: governing.entry.plan,
        phase: governing.place,
        price,
        start: governing.start,
        period: governing.phase.period,
        bcd: cycle_day(facts, subscription, governing),
    })
}

impl Rate {
    /// The cell of a day.
    pub fn cell(&self, day: Reach) -> Cell
        requires billed { self.now.period ≡ Period.NoBillingPeriod → ⊥ }
        requires named { first_day ≤ self.now.start }
        requires begun { self.now.start ≤ day }
        requires told { day ≤ last_charged }
        ensures value { result ≡ rate_cell self.now day }
        ensures period { IsPeriodOf self.now.start self.now.period self.now.bcd day result.start result.end }
        ensures has_day { (result.start ≤ day) × (day < result.end) }
        ensures longest { result.end ≤ result.start + max_period_days }
    {
        let (start, end) = period_of(self.start, self.period, self.bcd, day);
        Cell {
            plan: self.plan,
            phase: self.phase,
            start,
            end,
            price: self.price,
        }
    }
}
