//! Catalogs: what a shop sells, from each date on.
//!
//! The rule kept here: a version of a catalog is `Valid` only where its twelve rules hold; of one that breaks
//! some, the first rule and its first offender are told. Of a list of cases the first one decides whose
//! conditions all hold. A catalog is a list of valid versions by rising date, and on a day the last one is
//! used whose date is on or before it. Layers above ask a catalog for the version of a day, and that version
//! for what it sells.
#![tactic(auto)]

mod ask;
mod case;
mod catalog;
mod catalog_threads;
mod check;
mod lookup;
mod names;
mod phase;
mod plan;
mod price_list;
mod product;
mod rule;
mod rules;
mod valid;
mod version;
mod version_threads;
mod words;

pub use ask::{ChangeAsk, PlanAsk};
pub use catalog::{AddFault, Catalog, MAX_VERSIONS};
pub use phase::{Phase, Price};
pub use plan::Plan;
pub use price_list::PriceList;
pub use product::Product;
pub use rule::{CatalogFault, Rule};
pub use rules::{
    BillingCase, CancelCase, ChangeAlignmentCase, ChangeCase, ChangePolicyCase, CreateCase,
    PlanCase, PlanCondition, Rules,
};
pub use valid::Valid;
pub use version::Version;
pub use words::{Align, BillingAlign, Category, CreateAlign, PhaseType, Policy};
