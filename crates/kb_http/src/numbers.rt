//! Numbers in decimal digits, read up to a limit.
ghost use Rattle.std.specs.Prelude.{◌≡◌, ◌≤◌, ◌^◌};
ghost use Rattle.kb_http.specs.Numbers.{number_up_to};
ghost use Rattle.kb_http.specs.Private.DigitsBehind.{number_from};

/// The number that decimal digits stand for, or the limit if it is greater; none if they are no number. The
/// limit is at most 2^32.
#[tactic(auto, using(crate::proofs::Digits::number_from_some))]
pub fn number(text: &[u8], limit: u64) -> Option<u64>
    requires { limit ≤ 2 ^ 32 }
    ensures { result ≡ number_up_to limit text.now }
{
    match text {
        [] => None,
        [_, ..] => digits_value(text, limit),
    }
}

/// The number that decimal digits stand for, or the limit if it is greater; none if one is no digit.
fn digits_value(digits: &[u8], limit: u64) -> Option<u64>
    requires { limit ≤ 2 ^ 32 }
    ensures { result ≡ number_from limit 0 digits.now }
{
    let mut value = 0;
    for digit in digits {
        if !digit.is_ascii_digit() {
            return None;
        }
        value = (value * 10 + u64::from(*digit - b'0')).min(limit);
    }
    Some(value)
}
