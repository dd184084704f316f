// Numbers and registers.
ghost use Rattle.std.specs.Prelude.{◌≡◌, ◌<◌, ◌≤◌, ◌^◌, IfSome};
ghost use Rattle.pisa_asm.specs.Numerals.{below, minus, numeral, number_in, word_number, unsigned_number, amount_number, offset_number, plain_digits, register_number};

use pisa_isa::wrap_sub;

/// The number that these digits write, if it is below the end.
fn number_below(end: u64, digits: &[u8]) -> Option<u32>
    requires { end ≤ 2 ^ 32 }
    ensures { result ≡ below end (numeral digits.now) }
{
    if digits.is_empty() {
        return None;
    }
    let mut number: u64 = 0;
    for digit in digits {
        if !digit.is_ascii_digit() {
            return None;
        }
        if number >= end {
            return None;
        }
        number = 10 * number + u64::from(*digit - b'0');
    }
    if number < end {
        Some(number as u32)
    } else {
        None
    }
}

/// The word of a negative number, given without its sign.
fn minus(number: Option<u32>) -> Option<u32>
    ensures { result ≡ minus number }
{
    match number {
        None => None,
        Some(number) => Some(wrap_sub(0, number)),
    }
}

/// The word of a number that is at least -low and below the end.
fn number_in(low: u64, end: u64, bytes: &[u8]) -> Option<u32>
    requires low { low < 2 ^ 32 }
    requires end { end ≤ 2 ^ 32 }
    ensures { result ≡ number_in low end bytes.now }
{
    match bytes {
        [] => None,
        [b'-', digits @ ..] => minus(number_below(low + 1, digits)),
        [b'+', digits @ ..] => number_below(end, digits),
        _ => number_below(end, bytes),
    }
}

/// The word that these bytes write.
pub fn word_number(bytes: &[u8]) -> Option<u32>
    ensures { result ≡ word_number bytes.now }
{
    number_in(1 << 31, 1 << 32, bytes)
}

/// The word that these bytes write only in digits.
pub fn unsigned_number(bytes: &[u8]) -> Option<u32>
    ensures { result ≡ unsigned_number bytes.now }
{
    number_below(1 << 32, bytes)
}

/// The amount that these bytes write.
pub fn amount_number(bytes: &[u8]) -> Option<u32>
    ensures { result ≡ amount_number bytes.now }
{
    number_in(0, 32, bytes)
}

/// The offset that these bytes write, wrapped to a word.
pub fn offset_number(bytes: &[u8]) -> Option<u32>
    ensures { result ≡ offset_number bytes.now }
{
    number_in(1 << 31, 1 << 31, bytes)
}

/// Whether digits have no leading zero.
fn plain_digits(digits: &[u8]) -> bool
    ensures { result ≡ plain_digits digits.now }
{
    match digits {
        [] => false,
        [_digit] => true,
        [digit, ..] => *digit != b'0',
    }
}

/// The register that these bytes name.
pub fn register_number(bytes: &[u8]) -> Option<u8>
    ensures named { result ≡ register_number bytes.now }
{
    match bytes {
        [b'$', digits @ ..] if plain_digits(digits) => narrow(number_below(32, digits)),
        _ => None,
    }
}

/// A number below 32 as a byte.
fn narrow(number: Option<u32>) -> Option<u8>
    requires { IfSome number (λ n. n < 32) }
    ensures { result ≡ number }
{
    match number {
        None => None,
        Some(number) => Some(number as u8),
    }
}
