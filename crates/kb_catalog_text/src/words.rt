//! The words of a text.
ghost use Rattle.std.specs.Prelude.{◌≡◌, map};
ghost use Rattle.toml.specs.View.{view};
ghost use Rattle.kb_catalog_text.specs.Reads.{read_as};
ghost use Rattle.kb_catalog_text.specs.Kinds.{word_in};
ghost use Rattle.kb_catalog_text.specs.Words.{look_up, period_words, category_words, phase_words, unit_words};
ghost use Rattle.kb_catalog_text.specs.Words.{policy_words, create_align_words, align_words};
ghost use Rattle.kb_catalog_text.specs.Words.{billing_align_words};

use crate::from_value::FromValue;
use crate::key_fault::KeyFault;
use crate::kinds::found;
use crate::span_unit::SpanUnit;
use kb_catalog::{Align, BillingAlign, Category, CreateAlign, PhaseType, Policy};
use kb_days::Period;
use std::alloc::Global;
use toml::Value;

/// What the word that a value is stands for.
#[tactic(auto, unfolding(crate::specs::Kinds::word_in))]
fn word_in<T: Copy>(value: &Value, words: &[(&str, T)]) -> Option<T>
    ensures { result ≡ word_in (map (λ row. (row.0.now, row.1)) words.now) (view value.now) }
{
    match value.as_str() {
        None => None,
        Some(text) => look_up(words, text),
    }
}

/// What a word stands for.
fn look_up<T: Copy>(words: &[(&str, T)], text: &str) -> Option<T>
    ensures { result ≡ look_up (map (λ row. (row.0.now, row.1)) words.now) text.now }
{
    for (word, meaning) in words {
        if text == *word {
            return Some(*meaning);
        }
    }
    None
}

impl FromValue for Period {
    ghost reads = { read_as (word_in period_words) };

    fn read(alloc: Global, key: &str, value: &Value) -> Result<Period, KeyFault> {
        let words = [
            ("DAILY", Period::Daily),
            ("WEEKLY", Period::Weekly),
            ("BIWEEKLY", Period::Biweekly),
            ("THIRTY_DAYS", Period::ThirtyDays),
            ("MONTHLY", Period::Monthly),
            ("QUARTERLY", Period::Quarterly),
            ("BIANNUAL", Period::Biannual),
            ("ANNUAL", Period::Annual),
            ("BIENNIAL", Period::Biennial),
            ("NO_BILLING_PERIOD", Period::NoBillingPeriod),
        ];
        found(alloc, key, word_in(value, &words))
    }
}

impl FromValue for Category {
    ghost reads = { read_as (word_in category_words) };

    fn read(alloc: Global, key: &str, value: &Value) -> Result<Category, KeyFault> {
        let words = [
            ("BASE", Category::Base),
            ("ADD_ON", Category::AddOn),
            ("STANDALONE", Category::Standalone),
        ];
        found(alloc, key, word_in(value, &words))
    }
}

impl FromValue for PhaseType {
    ghost reads = { read_as (word_in phase_words) };

    fn read(alloc: Global, key: &str, value: &Value) -> Result<PhaseType, KeyFault> {
        let words = [
            ("TRIAL", PhaseType::Trial),
            ("DISCOUNT", PhaseType::Discount),
            ("FIXEDTERM", PhaseType::FixedTerm),
            ("EVERGREEN", PhaseType::Evergreen),
        ];
        found(alloc, key, word_in(value, &words))
    }
}

impl FromValue for SpanUnit {
    ghost reads = { read_as (word_in unit_words) };

    fn read(alloc: Global, key: &str, value: &Value) -> Result<SpanUnit, KeyFault> {
        let words = [
            ("DAYS", SpanUnit::Days),
            ("WEEKS", SpanUnit::Weeks),
            ("MONTHS", SpanUnit::Months),
            ("YEARS", SpanUnit::Years),
            ("UNLIMITED", SpanUnit::Unlimited),
        ];
        found(alloc, key, word_in(value, &words))
    }
}

impl FromValue for Policy {
    ghost reads = { read_as (word_in policy_words) };

    fn read(alloc: Global, key: &str, value: &Value) -> Result<Policy, KeyFault> {
        let words = [
            ("IMMEDIATE", Policy::Immediate),
            ("END_OF_TERM", Policy::EndOfTerm),
            ("ILLEGAL", Policy::Illegal),
        ];
        found(alloc, key, word_in(value, &words))
    }
}

impl FromValue for CreateAlign {
    ghost reads = { read_as (word_in create_align_words) };

    fn read(alloc: Global, key: &str, value: &Value) -> Result<CreateAlign, KeyFault> {
        let words = [
            ("START_OF_BUNDLE", CreateAlign::StartOfBundle),
            ("START_OF_SUBSCRIPTION", CreateAlign::StartOfSubscription),
        ];
        found(alloc, key, word_in(value, &words))
    }
}

impl FromValue for Align {
    ghost reads = { read_as (word_in align_words) };

    fn read(alloc: Global, key: &str, value: &Value) -> Result<Align, KeyFault> {
        let words = [
            ("START_OF_BUNDLE", Align::StartOfBundle),
            ("START_OF_SUBSCRIPTION", Align::StartOfSubscription),
            ("CHANGE_OF_PLAN", Align::ChangeOfPlan),
        ];
        found(alloc, key, word_in(value, &words))
    }
}

impl FromValue for BillingAlign {
    ghost reads = { read_as (word_in billing_align_words) };

    fn read(alloc: Global, key: &str, value: &Value) -> Result<BillingAlign, KeyFault> {
        let words = [
            ("ACCOUNT", BillingAlign::Account),
            ("BUNDLE", BillingAlign::Bundle),
            ("SUBSCRIPTION", BillingAlign::Subscription),
        ];
        found(alloc, key, word_in(value, &words))
    }
}
