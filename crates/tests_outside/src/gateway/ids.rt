//! Ids of payments.

use crate::compare::same;
use kb_days::Name;
use kb_gateway::gateway_id;
use std::test::Fail;

/// Accounts, payment keys, and ids that another library made.
const IDS: [(&str, &str, &str); 3] = [
    ("a1", "p1", "419057e9-e213-5cbe-8f20-63536fe96a2c"),
    (
        "a1",
        "auto-1-2024-03-01",
        "f4571f19-756a-5561-875e-cdc3b2a8946f",
    ),
    ("a", "1p1", "bf7df7b4-e86a-5083-b945-10c61bae3f14"),
];

#[test]
fn ids_of_payments(rt: HostRuntime) -> Result<(), Fail> {
    for (account, key, id) in &IDS {
        let account = Name::new(account.as_bytes()).ok_or("an account")?;
        let key = Name::new(key.as_bytes()).ok_or("a key")?;
        let mut text = [0; 36];
        same(
            &rt,
            &(&*gateway_id(account, key)
                .hyphenated()
                .encode_lower(&mut text)),
            &(*id),
            &"",
        );
    }
    Ok(())
}
