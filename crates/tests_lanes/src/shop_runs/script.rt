//! What gateways do.

use kb_gateway::{Seen, Told};

/// What the gateway of each lane does.
pub struct Script {
    /// How it answers orders, one after another.
    pub told: &'static [Told],
    /// What it has seen of a payment, at one look-up after another.
    pub seen: &'static [Seen],
    /// The numbers of its calls that fail, the first being 1.
    pub failing: &'static [u64],
}

/// A gateway that has nothing to say.
pub static SILENT: Script = Script {
    told: &[],
    seen: &[],
    failing: &[],
};
