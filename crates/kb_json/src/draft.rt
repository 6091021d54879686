//! A text of JSON while it is written.
ghost use Rattle.std.specs.Prelude.{◌≡◌, [], ◌∷◌, ◌++◌, map, string_bytes, IfOk, OnOk};
ghost use Rattle.json.specs.Lex.{tokens};
ghost use Rattle.json.specs.Print.{print};
ghost use Rattle.json.specs.Token.{begin_object, end_object, begin_array, end_array, key};
ghost use Rattle.json.specs.Token as token;
ghost use Rattle.json.specs.Tree.{json_tokens};
ghost use Rattle.std.specs.Fmt.{signed_decimal};
ghost use Rattle.kb_days.specs.DateText.{date_text};
ghost use Rattle.kb_json.specs.JsonTexts.{object_of};
ghost use Rattle.kb_json.specs.Private.Fields.{field_json, member_tokens, rows_tokens};

use crate::field::Field;
use json::Writer;
use kb_base::NoMemory;
use kb_days::{Reach, text};
use kb_money::Currency;
use std::alloc::Global;
use std::marker::Model;
use std::str;

/// How many bytes a text may have before it takes more memory.
const ROOM: usize = 256;

/// A text of JSON while it is written, seen as its tokens.
#[derive(Drop)]
pub(crate) struct Draft {
    writer: Writer,
}

impl Model for Draft {
    ghost use Rattle.std.specs.Prelude.{◌≡◌, List, []};
    ghost use Rattle.json.specs.Token.{Token};

    ghost Value = { List Token };

    ghost view = { λ draft. draft.writer.tokens };

    ghost invariant = { λ draft. draft.writer.before ≡ [] };
}

impl Draft {
    /// A text of which nothing is written.
    pub(crate) fn new(alloc: Global) -> Result<Draft, NoMemory>
        ensures { IfOk result (λ draft. draft ≡ []) }
    {
        let room = Vec::with_capacity(alloc, ROOM)?;
        Ok(Draft {
            writer: Writer::new(room),
        })
    }

    /// The bytes of the text.
    pub(crate) fn into_bytes(self) -> Vec<u8>
        ensures text { result.items ≡ print self }
        ensures read { tokens result.items ≡ self }
    {
        self.writer.into_inner()
    }

    /// Writes an object of these members.
    pub(crate) fn object(&mut self, alloc: Global, rows: &[(&str, Field)]) -> Result<(), NoMemory>
        ensures { OnOk result (self.new
            ≡ self.old ++ json_tokens (object_of (map (λ row. (row.0.now, field_json row.1)) rows.now))) }
    {
        self.begin_object()?;
        self.members(alloc, rows)?;
        self.end_object()?;
        Ok(())
    }

    /// Writes the brace before an object's members.
    pub(crate) fn begin_object(&mut self) -> Result<(), NoMemory>
        ensures { OnOk result (self.new ≡ self.old ++ begin_object ∷ []) }
    {
        Ok(self.writer.begin_object()?)
    }

    /// Writes the brace behind an object's members.
    pub(crate) fn end_object(&mut self) -> Result<(), NoMemory>
        ensures { OnOk result (self.new ≡ self.old ++ end_object ∷ []) }
    {
        Ok(self.writer.end_object()?)
    }

    /// Writes the bracket before an array's values.
    pub(crate) fn begin_array(&mut self) -> Result<(), NoMemory>
        ensures { OnOk result (self.new ≡ self.old ++ begin_array ∷ []) }
    {
        Ok(self.writer.begin_array()?)
    }

    /// Writes the bracket behind an array's values.
    pub(crate) fn end_array(&mut self) -> Result<(), NoMemory>
        ensures { OnOk result (self.new ≡ self.old ++ end_array ∷ []) }
    {
        Ok(self.writer.end_array()?)
    }

    /// Writes the name of a member.
    pub(crate) fn name(&mut self, name: &str) -> Result<(), NoMemory>
        ensures { OnOk result (self.new ≡ self.old ++ key name.now ∷ []) }
    {
        Ok(self.writer.key(name)?)
    }

    /// Writes members one after another.
    pub(crate) fn members(&mut self, alloc: Global, rows: &[(&str, Field)]) -> Result<(), NoMemory>
        ensures { OnOk result (self.new
            ≡ self.old ++ rows_tokens (map (λ row. (row.0.now, field_json row.1)) rows.now)) }
    {
        for (name, field) in rows {
            self.member(alloc, name, field)?;
        }
        Ok(())
    }

    /// Writes a member.
    fn member(&mut self, alloc: Global, name: &str, field: &Field) -> Result<(), NoMemory>
        ensures { OnOk result (self.new ≡ self.old ++ member_tokens (name.now, field_json field.now)) }
    {
        self.name(name)?;
        self.value(alloc, field)
    }

    /// Writes the value of a member.
    fn value(&mut self, alloc: Global, field: &Field) -> Result<(), NoMemory>
        ensures { OnOk result (self.new ≡ self.old ++ json_tokens (field_json field.now)) }
    {
        match field {
            Field::Word(text) => self.word(text),
            Field::Name(name) => self.word(name.as_str()),
            Field::Currency(currency) => self.currency(currency),
            Field::Day(day) => self.day(*day),
            Field::Number(number) => self.number(alloc, number),
            Field::Nothing => self.nothing(),
        }
    }

    /// Writes a text.
    fn word(&mut self, text: &str) -> Result<(), NoMemory>
        ensures { OnOk result (self.new ≡ self.old ++ token.string text.now ∷ []) }
    {
        Ok(self.writer.string(text)?)
    }

    /// Writes the code of a currency.
    #[tactic(auto, using(kb_money::proofs::CodeText::code_text))]
    fn currency(&mut self, currency: &Currency) -> Result<(), NoMemory>
        ensures { OnOk result (self.new ≡ self.old ++ token.string currency.now ∷ []) }
    {
        self.word(str::from_utf8(currency.as_bytes()).unwrap())
    }

    /// Writes the date of a day.
    fn day(&mut self, day: Reach) -> Result<(), NoMemory>
        ensures { OnOk result (self.new ≡ self.old ++ token.string (date_text day) ∷ []) }
    {
        self.word(str::from_utf8(&text(day)).unwrap())
    }

    /// Writes a number in decimal digits.
    fn number(&mut self, alloc: Global, number: &i128) -> Result<(), NoMemory>
        ensures { OnOk result (self.new ≡ self.old ++ token.number (signed_decimal number.now) ∷ []) }
    {
        let value = *number;
        if i128::from(i64::MIN) <= value && value <= i128::from(i64::MAX) {
            Ok(self.writer.i64(value as i64)?)
        } else {
            self.long_number(alloc, value)
        }
    }

    /// Writes a number that may not fit 64 bits.
    fn long_number(&mut self, alloc: Global, number: i128) -> Result<(), NoMemory>
        ensures { OnOk result (self.new ≡ self.old ++ token.number (signed_decimal number) ∷ []) }
    {
        let digits = digits(alloc, &number)?;
        Ok(self.writer.number(digits.as_str())?)
    }

    /// Writes that there is none.
    fn nothing(&mut self) -> Result<(), NoMemory>
        ensures { OnOk result (self.new ≡ self.old ++ token.null ∷ []) }
    {
        Ok(self.writer.null()?)
    }
}

/// A number in decimal digits, behind a minus sign where it is negative.
fn digits(alloc: Global, number: &i128) -> Result<String, NoMemory>
    ensures { IfOk result (λ text. string_bytes text ≡ signed_decimal number.now) }
{
    Ok(number.to_string(alloc)?)
}
