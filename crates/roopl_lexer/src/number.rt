// The number that digits write.
ghost use Rattle.std.specs.Prelude.{◌≡◌, ◌<◌, ◌≤◌, MatchOption};
ghost use Rattle.std.specs.List.{AllPass};
ghost use Rattle.std.specs.Char.{is_ascii_digit};
ghost use Rattle.rpp_tree.specs.rpp_words.Texts.{decimal_from};

use rpp_tree::MOST_NUMBER;

/// The number that these digits write, if it is at most the greatest one.
pub fn number_of(digits: &[u8]) -> Option<u32>
    requires { AllPass is_ascii_digit digits.now }
    ensures { MatchOption result (MOST_NUMBER < decimal_from 0 digits.now)
        (λ n. (n ≡ decimal_from 0 digits.now) × (n ≤ MOST_NUMBER)) }
{
    let mut number: u64 = 0;
    for digit in digits {
        number = 10 * number + u64::from(*digit - b'0');
        if number > u64::from(MOST_NUMBER) {
            return None;
        }
    }
    Some(number as u32)
}
