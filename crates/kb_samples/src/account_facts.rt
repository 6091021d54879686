//! An account as billing looks at it.

use crate::account::Account;
use crate::fault::SampleFault;
use crate::read::{bcd, currency};
use kb_catalog::Catalog;
use kb_due::Facts;

/// What billing looks at, of an account with a cycle day (1 to 31).
pub fn facts<'a>(
    catalog: &'a Catalog,
    account: &'a Account,
    number: u32,
) -> Result<Facts<'a>, SampleFault> {
    Ok(Facts {
        catalog,
        timeline: &account.timeline,
        blocks: &account.blocks,
        currency: currency()?,
        bcd: bcd(number)?,
    })
}
