//! What is wrong with the members of a request.
ghost use Rattle.std.specs.Prelude.{◌≡◌, if◌then◌else◌};
ghost use Rattle.serde_json.specs.View.{view, members_view};
ghost use Rattle.kb_json.specs.Wrongs.{has_type, wrong_of_type, wrong_in, wrong_needed, wrong_optional};
ghost use Rattle.kb_json.specs.Wrongs.{told_first, told_of, wrong_today, first_wrong};

use crate::kind::{Kind, needed, optional};
use crate::member::{Member, Sort};
use crate::object::{Object, value_at};
use crate::values::{
    amount_in, bcd_in, currency_in, day_in, invoice_in, key_in, name_in, period_in, scope_in,
    whole_in,
};
use kb_codec::MAX_AMOUNT;
use serde_json::Value;

/// What is wrong with a member, in the order in which it is told.
#[derive(Clone, Copy)]
pub enum Wrong {
    /// It is missing.
    Missing,
    /// Its value is of another type.
    Type,
    /// It is no name or word.
    Name,
    /// It is no day.
    Day,
    /// Nothing is wrong.
    Nothing,
}

/// What is told of the members of a request.
#[tactic(auto, unfolding(crate::specs::Wrongs::first_wrong))]
pub fn first_wrong(dated: bool, kind: Kind, object: &Object) -> Wrong
    ensures { result ≡ first_wrong dated kind (members_view object.now.entries) }
{
    let of_needed = told_of_needed(object, needed(kind));
    let of_optional = told_of_optional(object, optional(kind));
    told_first(
        of_needed,
        told_first(of_optional, wrong_today(dated, object)),
    )
}

/// What is told of members that have to be there.
fn told_of_needed(object: &Object, members: &[Member]) -> Wrong
    ensures { result ≡ told_of (wrong_needed (members_view object.now.entries)) members.now }
{
    let mut told = Wrong::Nothing;
    for member in members {
        told = told_first(told, wrong_needed(object, *member));
    }
    told
}

/// What is told of members that may be missing.
fn told_of_optional(object: &Object, members: &[Member]) -> Wrong
    ensures { result ≡ told_of (wrong_optional (members_view object.now.entries)) members.now }
{
    let mut told = Wrong::Nothing;
    for member in members {
        told = told_first(told, wrong_optional(object, *member));
    }
    told
}

/// What is wrong with the day of a line that may be dated.
#[tactic(auto, unfolding(crate::specs::Wrongs::wrong_today))]
fn wrong_today(dated: bool, object: &Object) -> Wrong
    ensures { result ≡ wrong_today dated (members_view object.now.entries) }
{
    if dated {
        wrong_optional(object, Member::Today)
    } else {
        Wrong::Nothing
    }
}

/// What is wrong with a member that has to be there.
#[tactic(auto, using(crate::proofs::MemberSteps::members))]
fn wrong_needed(object: &Object, member: Member) -> Wrong
    ensures { result ≡ wrong_needed (members_view object.now.entries) member }
{
    match value_at(object, member) {
        None => Wrong::Missing,
        Some(value) => wrong_in(member.sort(), value),
    }
}

/// What is wrong with a member that may be missing.
#[tactic(auto, using(crate::proofs::MemberSteps::members))]
fn wrong_optional(object: &Object, member: Member) -> Wrong
    ensures { result ≡ wrong_optional (members_view object.now.entries) member }
{
    match value_at(object, member) {
        None => Wrong::Nothing,
        Some(value) => wrong_in(member.sort(), value),
    }
}

/// Which of two is told.
fn told_first(first: Wrong, second: Wrong) -> Wrong
    ensures { result ≡ told_first first second }
{
    match (first, second) {
        (Wrong::Missing, _) | (_, Wrong::Missing) => Wrong::Missing,
        (Wrong::Type, _) | (_, Wrong::Type) => Wrong::Type,
        (Wrong::Name, _) | (_, Wrong::Name) => Wrong::Name,
        (Wrong::Day, _) | (_, Wrong::Day) => Wrong::Day,
        (Wrong::Nothing, Wrong::Nothing) => Wrong::Nothing,
    }
}

/// What is wrong with a value.
#[tactic(auto, unfolding(crate::specs::Wrongs::wrong_in))]
fn wrong_in(sort: Sort, value: &Value) -> Wrong
    ensures { result ≡ wrong_in sort (view value.now) }
{
    if has_type(sort, value) {
        wrong_of_type(sort, value)
    } else {
        Wrong::Type
    }
}

/// Whether a value is of the type of its sort.
#[tactic(auto, unfolding(crate::specs::Wrongs::has_type))]
fn has_type(sort: Sort, value: &Value) -> bool
    ensures { result ≡ has_type sort (view value.now) }
{
    match sort {
        Sort::Bcd => whole_in(value, MAX_AMOUNT).is_some(),
        Sort::Amount => amount_in(value).is_some(),
        Sort::Invoice => invoice_in(value).is_some(),
        Sort::Truth => value.as_bool().is_some(),
        _ => value.as_str().is_some(),
    }
}

/// What is wrong with a value of that type.
#[tactic(auto, unfolding(crate::specs::Wrongs::wrong_of_type))]
fn wrong_of_type(sort: Sort, value: &Value) -> Wrong
    ensures { result ≡ wrong_of_type sort (view value.now) }
{
    match sort {
        Sort::Name => unless(name_in(value).is_some(), Wrong::Name),
        Sort::Key => unless(key_in(value).is_some(), Wrong::Name),
        Sort::Currency => unless(currency_in(value).is_some(), Wrong::Name),
        Sort::Period => unless(period_in(value).is_some(), Wrong::Name),
        Sort::Scope => unless(scope_in(value).is_some(), Wrong::Name),
        Sort::Day => unless(day_in(value).is_some(), Wrong::Day),
        Sort::Bcd => unless(bcd_in(value).is_some(), Wrong::Day),
        Sort::Amount | Sort::Invoice | Sort::Truth | Sort::Text => Wrong::Nothing,
    }
}

/// What is wrong unless something holds.
fn unless(holds: bool, wrong: Wrong) -> Wrong
    ensures { result ≡ if holds then Wrong.Nothing else wrong }
{
    if holds { Wrong::Nothing } else { wrong }
}
