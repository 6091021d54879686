//! The words of billing periods and of what a block speaks of.
ghost use Rattle.std.specs.Prelude.{◌≡◌};
ghost use Rattle.kb_json.specs.Values.{periods, period_named, scopes, scope_word, scope_named};

use kb_codec::BlockScope;
use kb_days::Period;

/// The billing period of a word.
#[tactic(auto, unfolding(crate::specs::Values::period_named))]
pub fn period_named(word: &str) -> Option<Period>
    ensures { result ≡ period_named word.now }
{
    for period in periods() {
        if word.as_bytes() == period.word() {
            return Some(*period);
        }
    }
    None
}

/// The billing periods.
fn periods() -> &'static [Period]
    ensures { result.now ≡ periods }
{
    &[
        Period::Daily,
        Period::Weekly,
        Period::Biweekly,
        Period::ThirtyDays,
        Period::Monthly,
        Period::Quarterly,
        Period::Biannual,
        Period::Annual,
        Period::Biennial,
        Period::NoBillingPeriod,
    ]
}

/// What a block speaks of, by its word.
#[tactic(auto, unfolding(crate::specs::Values::scope_named))]
pub fn scope_named(word: &str) -> Option<BlockScope>
    ensures { result ≡ scope_named word.now }
{
    for scope in scopes() {
        if word == scope_word(*scope) {
            return Some(*scope);
        }
    }
    None
}

/// What a block may speak of.
fn scopes() -> &'static [BlockScope]
    ensures { result.now ≡ scopes }
{
    &[
        BlockScope::Account,
        BlockScope::Bundle,
        BlockScope::Subscription,
    ]
}

/// The word of what a block speaks of.
fn scope_word(scope: BlockScope) -> &'static str
    ensures { result.now ≡ scope_word scope }
{
    match scope {
        BlockScope::Account => "ACCOUNT",
        BlockScope::Bundle => "BUNDLE",
        BlockScope::Subscription => "SUBSCRIPTION",
    }
}
