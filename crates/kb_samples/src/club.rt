//! The texts of a club, for what the shop hasn't got: an add-on of two products, cycle days of the
//! subscription and of the lead, phases counted from a change, and a second version.

/// The club's catalog: plans named as their products.
///
/// | Plan | What it costs |
/// |---|---|
/// | `Basic` | 1000 a month |
/// | `Pro` | 3100 a month |
/// | `Support` | 310 a month, an add-on to Basic alone |
/// | `Starter` | 500 for a trial of 30 days, then 1000 a month; a change to it counts its phases anew |
/// | `Thirty` | 15 for 30 days |
/// | `Extra` | 100 a month, an add-on to Basic and Pro |
/// | `Own` | as Starter, billed by the subscription's own cycle day |
/// | `Helper` | 100 a month, an add-on to Own, billed by the cycle day of its lead |
pub const CLUB: &str = r#"format = 1
effective = "2020-01-01"
currencies = ["USD"]
product = [
 {name="Basic", category="BASE", available=["Support", "Extra"]},
 {name="Pro", category="BASE", available=["Extra"]},
 {name="Support", category="ADD_ON"},
 {name="Starter", category="BASE"},
 {name="Thirty", category="STANDALONE"},
 {name="Extra", category="ADD_ON"},
 {name="Own", category="BASE", available=["Helper"]},
 {name="Helper", category="ADD_ON"}]
plan = [
 {name="Basic", product="Basic", phase=[
  {type="EVERGREEN", unit="UNLIMITED", period="MONTHLY", recurring={USD=1000}}]},
 {name="Pro", product="Pro", phase=[
  {type="EVERGREEN", unit="UNLIMITED", period="MONTHLY", recurring={USD=3100}}]},
 {name="Support", product="Support", phase=[
  {type="EVERGREEN", unit="UNLIMITED", period="MONTHLY", recurring={USD=310}}]},
 {name="Starter", product="Starter", phase=[
  {type="TRIAL", unit="DAYS", length=30, fixed={USD=500}},
  {type="EVERGREEN", unit="UNLIMITED", period="MONTHLY", recurring={USD=1000}}]},
 {name="Thirty", product="Thirty", phase=[
  {type="EVERGREEN", unit="UNLIMITED", period="THIRTY_DAYS", recurring={USD=15}}]},
 {name="Extra", product="Extra", phase=[
  {type="EVERGREEN", unit="UNLIMITED", period="MONTHLY", recurring={USD=100}}]},
 {name="Own", product="Own", phase=[
  {type="TRIAL", unit="DAYS", length=30, fixed={USD=500}},
  {type="EVERGREEN", unit="UNLIMITED", period="MONTHLY", recurring={USD=1000}}]},
 {name="Helper", product="Helper", phase=[
  {type="EVERGREEN", unit="UNLIMITED", period="MONTHLY", recurring={USD=100}}]}]
list = [{name="DEFAULT", plans=["Basic", "Pro", "Support", "Starter", "Thirty", "Extra", "Own", "Helper"]}]
[rules]
change_policy = [{policy="IMMEDIATE"}]
change_alignment = [{to_product="Starter", alignment="CHANGE_OF_PLAN"}, {alignment="START_OF_SUBSCRIPTION"}]
cancel_policy = [{policy="IMMEDIATE"}]
create_alignment = [{alignment="START_OF_SUBSCRIPTION"}]
billing_alignment = [
 {product="Own", alignment="SUBSCRIPTION"},
 {product="Helper", alignment="BUNDLE"},
 {alignment="ACCOUNT"}]
"#;

/// The club's later catalog, from 2024-04-01 on: Pro stands first and costs 3200 a month, Basic 1200.
pub const DEARER_CLUB: &str = r#"format = 1
effective = "2024-04-01"
currencies = ["USD"]
product = [
 {name="Pro", category="BASE"},
 {name="Basic", category="BASE"}]
plan = [
 {name="Pro", product="Pro", phase=[
  {type="EVERGREEN", unit="UNLIMITED", period="MONTHLY", recurring={USD=3200}}]},
 {name="Basic", product="Basic", phase=[
  {type="EVERGREEN", unit="UNLIMITED", period="MONTHLY", recurring={USD=1200}}]}]
list = [{name="DEFAULT", plans=["Pro", "Basic"]}]
[rules]
change_policy = [{policy="IMMEDIATE"}]
change_alignment = [{alignment="START_OF_SUBSCRIPTION"}]
cancel_policy = [{policy="IMMEDIATE"}]
create_alignment = [{alignment="START_OF_SUBSCRIPTION"}]
billing_alignment = [{alignment="ACCOUNT"}]
"#;
