//! Proration: what some days of a period cost.
ghost use Rattle.std.specs.Prelude.{◌≡◌, ◌≤◌, ◌-◌, ◌+◌, ℕ};
ghost use Rattle.kb_money.specs.declared.minor.TheConstants.{MAX_MINOR};
ghost use Rattle.kb_money.specs.Proration.{cum, cost};

use crate::minor::Minor;

/// The most days that a period may have: two years.
pub const MAX_DAYS: u32 = 731;

/// The running total: what the first `count` of a period's `days` days cost in minor units, rounded
/// half up.
#[tactic(auto, using(crate::proofs::Shares::totals))]
pub fn cum(price: Minor, days: u32, count: u32) -> u64
    requires some_day { 1 ≤ days }
    requires two_years { days ≤ MAX_DAYS }
    requires in_period { count ≤ days }
    ensures value { result ≡ cum price days count }
    ensures at_most { result ≤ price }
    ensures bound { result ≤ MAX_MINOR }
{
    let days = u64::from(days);
    (2 * price.units() * u64::from(count) + days) / (2 * days)
}

/// What the days from offset `from` up to, but not including, offset `to` of a period of `days`
/// days cost, in minor units.
#[tactic(auto, using(crate::proofs::Shares::parts))]
pub fn part(price: Minor, days: u32, from: u32, to: u32) -> u64
    requires some_day { 1 ≤ days }
    requires two_years { days ≤ MAX_DAYS }
    requires in_order { from ≤ to }
    requires in_period { to ≤ days }
    ensures shares { result ≡ cost price days from to }
    ensures neighbours { (middle : ℕ) → from ≤ middle → middle ≤ to
        → result ≡ cost price days from middle + cost price days middle to }
    ensures whole { from ≡ 0 → to ≡ days → result ≡ price }
    ensures at_most { result ≤ price }
    ensures bound { result ≤ MAX_MINOR }
{
    cum(price, days, to) - cum(price, days, from)
}
