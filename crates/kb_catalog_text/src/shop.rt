//! The texts of a shop.

/// The shop's catalog: six products, seven plans and one list.
pub const SHOP: &str = r#"format = 1
effective = "2020-01-01"
currencies = ["USD"]
product = [
 {name="Basic", category="BASE", available=["Support"]},
 {name="Starter", category="BASE", available=["Support"]},
 {name="Pro", category="BASE", included=["Support"]},
 {name="Big", category="STANDALONE"},
 {name="Thirty", category="STANDALONE"},
 {name="Support", category="ADD_ON"}]
plan = [
 {name="basic-monthly", product="Basic", phase=[{type="EVERGREEN", unit="UNLIMITED", period="MONTHLY", recurring={USD=1000}}]},
 {name="basic-annual", product="Basic", phase=[{type="EVERGREEN", unit="UNLIMITED", period="ANNUAL", recurring={USD=36500}}]},
 {name="starter-monthly", product="Starter", phase=[{type="TRIAL", unit="DAYS", length=30, fixed={USD=0}}, {type="EVERGREEN", unit="UNLIMITED", period="MONTHLY", recurring={USD=1000}}]},
 {name="pro-monthly", product="Pro", phase=[{type="EVERGREEN", unit="UNLIMITED", period="MONTHLY", recurring={USD=3100}}]},
 {name="big-monthly", product="Big", phase=[{type="EVERGREEN", unit="UNLIMITED", period="MONTHLY", recurring={USD=3100}}]},
 {name="thirty", product="Thirty", phase=[{type="EVERGREEN", unit="UNLIMITED", period="THIRTY_DAYS", recurring={USD=15}}]},
 {name="support-monthly", product="Support", phase=[{type="EVERGREEN", unit="UNLIMITED", period="MONTHLY", recurring={USD=310}}]}]
list = [{name="DEFAULT", plans=["basic-monthly","basic-annual","starter-monthly","pro-monthly","big-monthly","thirty","support-monthly"]}]
[rules]
change_policy = [{from_product="Big", policy="ILLEGAL"}, {to_period="ANNUAL", policy="END_OF_TERM"}, {policy="IMMEDIATE"}]
change_alignment = [{alignment="START_OF_SUBSCRIPTION"}]
cancel_policy = [{product="Pro", policy="END_OF_TERM"}, {policy="IMMEDIATE"}]
create_alignment = [{category="ADD_ON", alignment="START_OF_BUNDLE"}, {alignment="START_OF_SUBSCRIPTION"}]
billing_alignment = [{alignment="ACCOUNT"}]
"#;

/// The shop's overdue states.
pub const OVERDUE: &str = r#"state = [
 {name="BLOCKED", days=14, block_change=true, block_entitlement=true, block_billing=false},
 {name="WARNING", days=7, block_change=false, block_entitlement=false, block_billing=false}]
"#;
