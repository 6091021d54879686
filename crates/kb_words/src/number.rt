//! Numbers.
ghost use Rattle.std.specs.Prelude.{◌≡◌, if◌then◌else◌, nat_le, Some, None};
ghost use Rattle.std.specs.List.{list_all};
ghost use Rattle.std.specs.Char.{is_ascii_digit};
ghost use Rattle.kb_days.specs.DateText.{number_of};
ghost use Rattle.kb_words.specs.Values.{is_number, leads_with_no_zero, number_in};

use crate::within::Within;
use crate::word::is_value;

/// The number of a text, if it is one in the range.
#[tactic(auto, unfolding(crate::specs::Values::number_in))]
pub fn number_in<const LEAST: u32, const MOST: u32>(text: &str) -> Option<Within<LEAST, MOST>>
    ensures { result ≡ number_in LEAST MOST text.now }
{
    if !is_number(text) {
        return None;
    }
    Within::new(number_of(MOST, text.as_bytes())?)
}

/// Whether a text is a number.
fn is_number(text: &str) -> bool
    ensures { result ≡ is_number text.now }
{
    is_value(text) && are_digits(text.as_bytes()) && leads_with_no_zero(text.as_bytes())
}

/// Whether each byte is a decimal digit.
fn are_digits(text: &[u8]) -> bool
    ensures { result ≡ list_all is_ascii_digit text.now }
{
    text.iter().all(|byte| byte.is_ascii_digit())
}

/// Whether the first byte isn't `0`, or the only one.
fn leads_with_no_zero(text: &[u8]) -> bool
    ensures { result ≡ leads_with_no_zero text.now }
{
    match text {
        [first, _, ..] => *first != b'0',
        _ => true,
    }
}

/// The number that decimal digits stand for, if it is at most `most`.
fn number_of(most: u32, digits: &[u8]) -> Option<u32>
    ensures { result ≡ (if nat_le (number_of digits.now) most then Some (number_of digits.now) else None) }
{
    let mut number: u32 = 0;
    for digit in digits {
        let next = 10 * u64::from(number) + u64::from(digit.saturating_sub(b'0'));
        if next > u64::from(most) {
            return None;
        }
        number = next as u32;
    }
    Some(number)
}
