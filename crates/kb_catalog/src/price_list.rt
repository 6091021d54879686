//! Price lists.

use kb_base::Seq;
use kb_days::Name;

/// A list of plans by which they are sold.
#[derive(Debug, Drop)]
pub struct PriceList {
    pub name: Name,
    pub plans: Seq<Name>,
}
