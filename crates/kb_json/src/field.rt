//! The values of the members of an answer.
ghost use Rattle.std.specs.Prelude.{◌≡◌};
ghost use Rattle.kb_json.specs.Answers.{date};
ghost use Rattle.kb_json.specs.JsonTexts.{word, sum, count, or_null};
ghost use Rattle.kb_json.specs.Private.Fields.{field_json};

use kb_days::{Day, Name, Reach};
use kb_money::Currency;

/// The value of a member.
#[derive(Clone, Copy)]
pub(crate) enum Field<'f> {
    Word(&'f str),
    Name(&'f Name),
    Currency(&'f Currency),
    /// The date of a day.
    Day(Reach),
    Number(i128),
    /// There is none.
    Nothing,
}

/// A word.
pub(crate) fn word(text: &str) -> Field<'_>
    ensures { field_json result ≡ word text.now }
{
    Field::Word(text)
}

/// A name.
pub(crate) fn name(name: &Name) -> Field<'_>
    ensures { field_json result ≡ word name.now }
{
    Field::Name(name)
}

/// The code of a currency.
pub(crate) fn currency(currency: &Currency) -> Field<'_>
    ensures { field_json result ≡ word currency.now }
{
    Field::Currency(currency)
}

/// A day, by its date.
pub(crate) fn date(day: Day) -> Field<'static>
    ensures { field_json result ≡ date day }
{
    Field::Day(day.reach())
}

/// A sum, in minor units.
pub(crate) fn sum(amount: &i128) -> Field<'static>
    ensures { field_json result ≡ sum amount.now }
{
    Field::Number(*amount)
}

/// How many there are, or which one.
pub(crate) fn count(number: u64) -> Field<'static>
    ensures { field_json result ≡ count number }
{
    Field::Number(i128::from(number))
}

/// A name, if there is one.
pub(crate) fn name_if(name: &Option<Name>) -> Field<'_>
    ensures { field_json result ≡ or_null word name.now }
{
    match name {
        None => Field::Nothing,
        Some(name) => Field::Name(name),
    }
}

/// A day, if there is one.
pub(crate) fn date_if(day: Option<Reach>) -> Field<'static>
    ensures { field_json result ≡ or_null date day }
{
    match day {
        None => Field::Nothing,
        Some(day) => Field::Day(day),
    }
}

/// A number, if there is one.
pub(crate) fn count_if(number: Option<u64>) -> Field<'static>
    ensures { field_json result ≡ or_null count number }
{
    match number {
        None => Field::Nothing,
        Some(number) => count(number),
    }
}
