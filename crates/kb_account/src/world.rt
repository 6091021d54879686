//! What accounts are looked at by, beside their own commands.

use kb_catalog::Catalog;
use kb_overdue::Config;
use std::marker::Model;

/// What the texts of a shop say: the versions of its catalog, and its overdue states.
#[derive(Debug, Drop)]
pub struct World {
    pub catalog: Catalog,
    pub overdue: Config,
}

impl Model for World {
    ghost use Rattle.kb_book.specs.Worlds.{WorldValue};

    ghost Value = { WorldValue };

    ghost view = { λ world. record { versions = world.catalog; states = world.overdue } };
}
