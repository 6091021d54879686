//! Phases of plans, and prices.
ghost use Rattle.std.specs.Prelude.{◌≡◌, bytes_eq, not};
ghost use Rattle.std.specs.List.{list_any};
ghost use Rattle.kb_catalog.specs.declared.phase.Price.{Price};
ghost use Rattle.kb_catalog.specs.Plans.{price_in, is_no_period, bills_wrongly, has_repeat, prices_wrongly};
ghost use Rattle.kb_catalog.specs.Plans.{phase_prices_wrongly};

use crate::names::{has_currency, is_empty};
use crate::words::PhaseType;
use kb_base::Seq;
use kb_days::{Period, Span};
use kb_money::{Currency, Minor};

/// A phase of a plan: how long it lasts, what it costs once, and what it costs each billing period.
#[derive(Debug)]
pub struct Phase {
    pub kind: PhaseType,
    pub span: Span,
    pub fixed: Seq<Price>,
    pub period: Period,
    pub recurring: Seq<Price>,
}

impl Drop for Phase {
    /// Drops all that it holds. No crate above has to show again how that is dropped.
    fn drop(self) {
        let Phase {
            kind: _kind,
            span: _span,
            fixed: _fixed,
            period: _period,
            recurring: _recurring,
        } = self;
    }
}

/// A price in a currency.
#[derive(Clone, Copy, Debug)]
pub struct Price {
    pub currency: Currency,
    pub amount: Minor,
}

impl Phase {
    /// What the phase costs once, in a currency.
    pub fn fixed_price(&self, currency: Currency) -> Option<Minor>
        ensures { result ≡ price_in currency self.now.fixed }
    {
        price_in(self.fixed.as_slice(), currency)
    }

    /// What the phase costs each billing period, in a currency.
    pub fn recurring_price(&self, currency: Currency) -> Option<Minor>
        ensures { result ≡ price_in currency self.now.recurring }
    {
        price_in(self.recurring.as_slice(), currency)
    }

    /// Whether the phase has one of a billing period and a recurring price.
    pub(crate) fn bills_wrongly(&self) -> bool
        ensures { result ≡ bills_wrongly self.now }
    {
        is_no_period(self.period) != is_empty(self.recurring.as_slice())
    }

    /// Whether its prices name a currency that isn't among these, or one twice.
    pub(crate) fn prices_wrongly(&self, currencies: &[Currency]) -> bool
        ensures { result ≡ phase_prices_wrongly currencies.now self.now }
    {
        prices_wrongly(currencies, self.fixed.as_slice())
            || prices_wrongly(currencies, self.recurring.as_slice())
    }
}

/// The first of these prices in a currency.
fn price_in(prices: &[Price], currency: Currency) -> Option<Minor>
    ensures { result ≡ price_in currency prices.now }
{
    for price in prices {
        if currency == price.currency {
            return Some(price.amount);
        }
    }
    None
}

/// Whether some prices name a currency that isn't among these, or one twice.
fn prices_wrongly(currencies: &[Currency], prices: &[Price]) -> bool
    ensures { result ≡ prices_wrongly currencies.now prices.now }
{
    misses_currency(currencies, prices) || has_repeat(prices)
}

/// Whether one of these prices names a currency that isn't among these.
fn misses_currency(currencies: &[Currency], prices: &[Price]) -> bool
    ensures { result ≡ list_any (λ (price : Price). not (list_any (bytes_eq price.currency) currencies.now))
        prices.now }
{
    prices
        .iter()
        .any(|price| !has_currency(currencies, price.currency))
}

/// Whether some prices name a currency twice.
fn has_repeat(prices: &[Price]) -> bool
    ensures { result ≡ has_repeat prices.now }
{
    let mut rest = prices;
    while let Some((price, later)) = rest.split_first() {
        if prices_currency(later, price.currency) {
            return true;
        }
        rest = later;
    }
    false
}

/// Whether one of these prices is in a currency.
fn prices_currency(prices: &[Price], currency: Currency) -> bool
    ensures { result ≡ list_any (λ (other : Price). bytes_eq currency other.currency) prices.now }
{
    prices.iter().any(|other| currency == other.currency)
}

fn is_no_period(period: Period) -> bool
    ensures { result ≡ is_no_period period }
{
    matches!(period, Period::NoBillingPeriod)
}
