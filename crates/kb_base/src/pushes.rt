//! What is added to bytes.
ghost use Rattle.std.specs.Prelude.{◌≡◌, ◌++◌, decimal, OnOk};
ghost use Rattle.std.specs.Fmt.{signed_decimal};

use crate::fault::NoMemory;
use itoa::Buffer;

/// Adds bytes.
pub fn push(text: &mut Vec<u8>, bytes: &[u8]) -> Result<(), NoMemory>
    ensures { OnOk result (text.new.items ≡ text.old.items ++ bytes.now) }
{
    Ok(text.extend_from_slice(bytes)?)
}

/// Adds a count in decimal digits.
pub fn push_count(text: &mut Vec<u8>, count: u64) -> Result<(), NoMemory>
    ensures { OnOk result (text.new.items ≡ text.old.items ++ decimal count) }
{
    let mut digits = Buffer::new();
    push(text, digits.format(count).as_bytes())
}

/// Adds a sum, in minor units, in decimal digits, behind a minus sign if it is negative.
pub fn push_sum(text: &mut Vec<u8>, sum: i128) -> Result<(), NoMemory>
    ensures { OnOk result (text.new.items ≡ text.old.items ++ signed_decimal sum) }
{
    let mut digits = Buffer::new();
    push(text, digits.format(sum).as_bytes())
}
