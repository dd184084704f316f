// Operations on words.
ghost use Rattle.std.specs.Prelude.{◌≡◌};
ghost use Rattle.rpp_words.specs.Words.{sum_of, difference_of, is_less, shifted_left, shifted_right, shifted_right_signed, turned_left, turned_right};

/// The sum modulo 2^32.
pub fn wrap_add(a: u32, b: u32) -> u32
    ensures { result ≡ sum_of a b }
{
    a.wrapping_add(b)
}

/// The difference, wrapped.
pub fn wrap_sub(a: u32, b: u32) -> u32
    ensures { result ≡ difference_of a b }
{
    a.wrapping_sub(b)
}

/// Whether `a` is below `b`, both read as signed.
pub fn less(a: u32, b: u32) -> bool
    ensures { result ≡ is_less a b }
{
    a.cast_signed() < b.cast_signed()
}

/// `a` shifted left by the low five bits of `n`.
pub fn shift_left(a: u32, n: u32) -> u32
    ensures { result ≡ shifted_left a n }
{
    a << (n % 32)
}

/// `a` shifted right by the low five bits of `n`, zeros in.
pub fn shift_right(a: u32, n: u32) -> u32
    ensures { result ≡ shifted_right a n }
{
    a >> (n % 32)
}

/// `a` shifted right by the low five bits of `n`, its sign in.
pub fn shift_right_signed(a: u32, n: u32) -> u32
    ensures { result ≡ shifted_right_signed a n }
{
    if a < 1 << 31 {
        a >> (n % 32)
    } else {
        !(!a >> (n % 32))
    }
}

/// `a` turned left by the low five bits of `n`.
pub fn turn_left(a: u32, n: u32) -> u32
    ensures { result ≡ turned_left a n }
{
    a.rotate_left(n % 32)
}

/// `a` turned right by the low five bits of `n`.
pub fn turn_right(a: u32, n: u32) -> u32
    ensures { result ≡ turned_right a n }
{
    a.rotate_right(n % 32)
}
