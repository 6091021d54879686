//! Accounts made from a seed.

use crate::shop_runs::holding::hold_words;
use crate::shop_runs::shops::empty_vault;
use std::test::Fail;

/// The words, and the summary. In the last one 4971334 - 4980531 = 0 - 9197: what is charged above what is
/// paid is what is unpaid above the credit.
static SUMMARIES: [(&str, &str); 3] = [
    (
        "make --seed 1 --accounts 1 --months 1",
        "accounts 1 commands 6 refused 0 invoices 1 charged 742 paid 742 credit 0 unpaid 0\n",
    ),
    (
        "make --months=0 --accounts=0 --seed=0",
        "accounts 0 commands 0 refused 0 invoices 0 charged 0 paid 0 credit 0 unpaid 0\n",
    ),
    (
        "make --seed 7 --accounts 200 --months 24",
        "accounts 200 commands 15891 refused 494 invoices 4441 charged 4971334 paid 4980531 credit 9197 unpaid 0\n",
    ),
];

#[test]
fn summaries(rt: HostRuntime) -> Result<(), Fail> {
    for (words, wanted) in SUMMARIES {
        let mut vault = empty_vault(rt.alloc())?;
        hold_words(rt.alloc(), &mut vault, 0, words, "not read\n", (0, wanted))?;
    }
    Ok(())
}
