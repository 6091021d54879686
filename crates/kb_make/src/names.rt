//! The names in the commands of a seed.
ghost use Rattle.std.specs.Prelude.{◌≡◌, ◌∷◌, decimal, true};
ghost use Rattle.kb_days.specs.Names.{IsName, is_name_byte};
ghost use Rattle.kb_make.specs.NumberedNames.{account_name, key_name};

use arrayvec::ArrayVec;
use itoa::Buffer;
use kb_days::Name;

/// The name of an account, by its number.
pub(crate) fn account_name(number: u32) -> Name
    ensures { result ≡ account_name number }
{
    numbered(b'm', number)
}

/// The key of a command, by its number.
pub(crate) fn key_name(number: u32) -> Name
    ensures { result ≡ key_name number }
{
    numbered(b'k', number)
}

/// A letter, and a number in decimal digits.
#[tactic(auto, using(crate::proofs::DecimalNames::numbered_named))]
fn numbered(letter: u8, number: u32) -> Name
    requires { is_name_byte letter ≡ true }
    ensures { result ≡ letter ∷ decimal number }
{
    let mut digits = Buffer::new();
    let mut text = ArrayVec::<u8, 11>::new();
    text.try_push(letter).unwrap();
    text.try_extend_from_slice(digits.format(number).as_bytes())
        .unwrap();
    named(&text)
}

/// The name of these bytes, which are one.
pub(crate) fn named(bytes: &[u8]) -> Name
    requires named { IsName bytes.now }
    ensures { result ≡ bytes.now }
{
    Name::new(bytes).unwrap()
}
