//! What billing looks at.

use kb_blocking::Blocks;
use kb_catalog::Catalog;
use kb_days::Bcd;
use kb_money::Currency;
use kb_timeline::Timeline;
use std::marker::Model;

/// What billing looks at: the versions of the catalog, and of an account its subscriptions, its blocking
/// states, its currency and its cycle day.
#[derive(Debug, Drop)]
pub struct Facts<'a> {
    pub catalog: &'a Catalog,
    pub timeline: &'a Timeline,
    pub blocks: &'a Blocks,
    pub currency: Currency,
    pub bcd: Bcd,
}

impl<'a> Model for Facts<'a> {
    ghost use Rattle.kb_due.specs.Facts.{FactsValue};

    ghost Value = { FactsValue };

    ghost view = { λ facts. record {
      catalog = facts.catalog.now;
      timeline = facts.timeline.now;
      blocks = facts.blocks.now;
      currency = facts.currency;
      bcd = facts.bcd;
    } };
}
