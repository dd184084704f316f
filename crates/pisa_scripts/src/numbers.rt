// Numbers in decimal digits.
ghost use Rattle.std.specs.Prelude.{◌≡◌, ◌<◌, ◌≤◌, ◌^◌, IfSome};
ghost use Rattle.pisa_scripts.specs.Lines.{number_up_to as number_of, short_number as short_number_of};

/// The last position that a debugger moves to.
pub const LAST_POSITION: u64 = (1 << 63) - 1;

/// The most digits of a number.
pub const MOST_DIGITS: usize = 18;

/// The number that one digit or more write, if it is at most so much.
pub fn number_up_to(most: u64, word: &[u8]) -> Option<u64>
    requires { most < 10 ^ 18 }
    ensures value { result ≡ number_of most word.now }
    ensures within { IfSome result (λ number. number ≤ most) }
{
    if word.is_empty() {
        return None;
    }
    let mut number = 0;
    for digit in word {
        if !digit.is_ascii_digit() {
            return None;
        }
        number = 10 * number + (*digit - b'0') as u64;
        if number > most {
            return None;
        }
    }
    Some(number)
}

/// The number that 1 to 18 digits write.
pub fn short_number(word: &[u8]) -> Option<u64>
    ensures value { result ≡ short_number_of word.now }
    ensures short { IfSome result (λ number. number < 10 ^ 18) }
{
    if word.len() > MOST_DIGITS {
        return None;
    }
    number_up_to(999_999_999_999_999_999, word)
}
