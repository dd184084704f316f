// Sums of numbers that were printed.
ghost use Rattle.std.specs.Prelude.{◌≡◌, ◌+ℤ◌};
ghost use Rattle.row_parts.specs.Digits.{in_64_bits};
ghost use Rattle.row_parts.specs.Sums.{holds, sum};

use crate::digits::signed;
use crate::pieces::cut;

/// Whether a relation of two sums holds, if it is one.
pub fn holds(text: &str) -> Option<bool>
    ensures { result ≡ holds text.now }
{
    if let Some((left, right)) = cut(text, " = ") {
        return Some(sum(left)? == sum(right)?);
    }
    if let Some((left, right)) = cut(text, " <= ") {
        return Some(sum(left)? <= sum(right)?);
    }
    let (left, right) = cut(text, " < ")?;
    Some(sum(left)? < sum(right)?)
}

// The sum of numbers with + between them.
fn sum(text: &str) -> Option<i64>
    ensures { result ≡ sum text.now }
{
    let mut sum: i64 = 0;
    let mut rest = text;
    while let Some((number, behind)) = cut(rest, " + ") {
        sum = added(sum, signed(number)?)?;
        rest = behind;
    }
    added(sum, signed(rest)?)
}

// The sum of two numbers, if it has 64 bits.
pub fn added(left: i64, right: i64) -> Option<i64>
    ensures { result ≡ in_64_bits (left +ℤ right) }
{
    left.checked_add(right)
}
