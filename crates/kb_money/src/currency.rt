//! Currencies.
ghost use Rattle.std.specs.Prelude.{◌≡◌, ◌↔◌, List, ℕ, Some, IsSome, IfSome};
ghost use Rattle.std.specs.List.{list_all};
ghost use Rattle.kb_money.specs.Currency.{IsCurrency, is_capital};

use std::marker::Model;
use std::{fmt, str};

/// A currency: the three capitals of its code, such as `USD`.
#[derive(Clone, Copy, Debug, PartialEq, Eq)]
pub struct Currency {
    letters: [u8; 3],
}

impl Model for Currency {
    ghost Value = { List ℕ };

    ghost view = { λ currency. currency.letters };

    ghost invariant = { λ currency. IsCurrency currency.letters };

    ghost inverse = { λ letters. record { letters = letters } };
}

impl Currency {
    /// The currency with this code; none unless it is three capitals, A to Z.
    pub fn new(bytes: &[u8]) -> Option<Currency>
        ensures accepted { IsSome result ↔ IsCurrency bytes.now }
        ensures value { IfSome result (λ currency. currency ≡ bytes.now) }
    {
        let letters = <[u8; 3]>::try_from(bytes).ok()?;
        if are_capitals(&letters) {
            Some(Currency { letters })
        } else {
            None
        }
    }

    /// The three capitals of the code.
    pub fn as_bytes(&self) -> &[u8]
        ensures value { result.now ≡ self.now }
        ensures code { IsCurrency result.now }
    {
        &self.letters
    }
}

/// Whether each of these is a capital.
fn are_capitals(letters: &[u8]) -> bool
    ensures { result ≡ list_all is_capital letters.now }
{
    letters.iter().all(|letter| letter.is_ascii_uppercase())
}

impl fmt::Display for Currency {
    ghost output = { λ currency. Some currency };

    #[tactic(auto, using(crate::proofs::CodeText::code_text))]
    fn fmt<W: fmt::Write>(&self, f: &mut fmt::Formatter<W>) -> fmt::Result {
        f.write_str(str::from_utf8(&self.letters).unwrap())
    }
}
