// The numbers that texts write.
ghost use Rattle.std.specs.Prelude.{◌≡◌};
ghost use Rattle.row_parts.specs.Digits.{unsigned, signed, number};

use crate::pieces::after;

/// A status that decimal digits write.
pub fn status(text: &str) -> Option<u8>
    ensures { result ≡ unsigned 8 10 text.now }
{
    text.parse::<u8>().ok()
}

/// A number of 32 bits that decimal digits write.
pub fn count(text: &str) -> Option<u32>
    ensures { result ≡ unsigned 32 10 text.now }
{
    text.parse::<u32>().ok()
}

/// A number that decimal digits write, maybe after a sign.
pub fn signed(text: &str) -> Option<i64>
    ensures { result ≡ signed text.now }
{
    text.parse::<i64>().ok()
}

/// The number that a text writes in decimal digits, or after 0x to the base 16.
pub fn number(text: &str) -> Option<u64>
    ensures { result ≡ number text.now }
{
    match after(text, "0x") {
        Some(digits) => u64::from_str_radix(digits, 16).ok(),
        None => text.parse::<u64>().ok(),
    }
}
