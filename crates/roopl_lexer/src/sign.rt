// The symbols.
ghost use Rattle.std.specs.Prelude.{◌≡◌, ◌∷◌, [], length, MatchOption};
ghost use Rattle.roopl_lexer.specs.Signs.{sign_bytes};
ghost use Rattle.roopl_lexer.specs.Begins.{NoSign, IsLongestSign};

use crate::token::Symbol;

/// The symbol of one byte that this byte is, if it is one.
fn single_sign(a: u8) -> Option<Symbol>
    ensures { MatchOption result (NoSign (a ∷ [])) (λ sign. a ∷ [] ≡ sign_bytes sign) }
{
    match a {
        b'+' => Some(Symbol::Plus),
        b'-' => Some(Symbol::Minus),
        b'^' => Some(Symbol::Caret),
        b'&' => Some(Symbol::Amp),
        b'|' => Some(Symbol::Bar),
        b'<' => Some(Symbol::Less),
        b'>' => Some(Symbol::Greater),
        b'=' => Some(Symbol::Equal),
        b'*' => Some(Symbol::Star),
        b'/' => Some(Symbol::Slash),
        b'%' => Some(Symbol::Percent),
        b'(' => Some(Symbol::LeftParen),
        b')' => Some(Symbol::RightParen),
        b'[' => Some(Symbol::LeftBracket),
        b']' => Some(Symbol::RightBracket),
        b',' => Some(Symbol::Comma),
        _ => None,
    }
}

/// The symbol of two bytes that these are, if they are one.
fn double_sign(a: u8, b: u8) -> Option<Symbol>
    ensures { MatchOption result (NoSign (a ∷ b ∷ [])) (λ sign. a ∷ b ∷ [] ≡ sign_bytes sign) }
{
    match (a, b) {
        (b'+', b'=') => Some(Symbol::AddTo),
        (b'-', b'=') => Some(Symbol::SubFrom),
        (b'^', b'=') => Some(Symbol::XorInto),
        (b'&', b'&') => Some(Symbol::AmpAmp),
        (b'|', b'|') => Some(Symbol::BarBar),
        (b'<', b'=') => Some(Symbol::AtMost),
        (b'>', b'=') => Some(Symbol::AtLeast),
        (b'!', b'=') => Some(Symbol::NotEqual),
        (b':', b':') => Some(Symbol::DoubleColon),
        _ => None,
    }
}

/// The symbol of three bytes that these are, if they are one.
fn triple_sign(a: u8, b: u8, c: u8) -> Option<Symbol>
    ensures { MatchOption result (NoSign (a ∷ b ∷ c ∷ [])) (λ sign. a ∷ b ∷ c ∷ [] ≡ sign_bytes sign) }
{
    match (a, b, c) {
        (b'<', b'=', b'>') => Some(Symbol::Swap),
        _ => None,
    }
}

/// The longest symbol at the beginning, if there is one.
pub fn sign_of(rest: &[u8]) -> Option<Symbol>
    ensures { IsLongestSign rest.now result }
{
    match rest {
        [] => None,
        [a] => single_sign(*a),
        [a, b] => double_sign(*a, *b).or(single_sign(*a)),
        [a, b, c, ..] => triple_sign(*a, *b, *c)
            .or(double_sign(*a, *b))
            .or(single_sign(*a)),
    }
}

/// How many bytes a symbol has.
pub fn sign_len(sign: Symbol) -> u32
    ensures { result ≡ length (sign_bytes sign) }
{
    match sign {
        Symbol::Swap => 3,
        Symbol::AddTo | Symbol::SubFrom | Symbol::XorInto => 2,
        Symbol::AmpAmp | Symbol::BarBar | Symbol::AtMost | Symbol::AtLeast => 2,
        Symbol::NotEqual | Symbol::DoubleColon => 2,
        _ => 1,
    }
}
