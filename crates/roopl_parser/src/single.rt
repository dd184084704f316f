// Single tokens.
ghost use Rattle.std.specs.Prelude.{◌≡◌, ◌<◌, ◌∷◌, ℕ, length, IfOk, MatchOption, [], true, false};
ghost use Rattle.roopl_lexer.specs.declared.token.TokenKind.TheVariants.{Sign};
ghost use Rattle.roopl_lexer.specs.declared.token.Symbol.TheVariants as sign;
ghost use Rattle.roopl_parser.specs.Operators.{operator_at, binary_operator, update_operator};
ghost use Rattle.roopl_parser.specs.Reader.{ReaderGives, scan, ASign, AWord, AName, AnIdent, is_sign, is_word, here, starts, types};
ghost use Rattle.roopl_parser.specs.Viable.{offset_at};

use crate::error::ParseError;
use roopl_lexer::tree::{BinOp, Ident, UpdateOp};
use roopl_lexer::{Keyword, Symbol, Token, TokenKind};
use std::alloc::Global;

/// The first token and the others.
pub fn next(tokens: &[Token]) -> Option<(&Token, &[Token])>
    ensures { MatchOption result (tokens.now ≡ []) (λ x. tokens.now ≡ x.0.now ∷ x.1.now) }
{
    match tokens {
        [] => None,
        [first, rest @ ..] => Some((first, rest)),
    }
}

/// Reads a symbol.
#[tactic(auto, unfolding(crate::specs::Reader::scan, crate::specs::Reader::walk, crate::specs::Reader::ends))]
pub fn sign<'a>(end: u32, tokens: &'a [Token], wanted: Symbol) -> Result<&'a [Token], ParseError>
    ensures gives { (n : ℕ) → ReaderGives result
        (λ s vs. scan true end tokens.now n (ASign wanted ∷ s) vs)
        (λ rest s vs. scan true end rest.now n s vs) }
    ensures shorter { IfOk result (λ rest. length rest.now < length tokens.now) }
{
    match next(tokens) {
        None => Err(ParseError::Syntax { at: end }),
        Some((first, rest)) => {
            if is_sign(&first.kind, wanted) {
                Ok(rest)
            } else {
                Err(ParseError::Syntax { at: first.at })
            }
        }
    }
}

fn is_sign(kind: &TokenKind, wanted: Symbol) -> bool
    ensures { result ≡ is_sign wanted kind.now }
{
    match kind {
        TokenKind::Sign(sign) => *sign == wanted,
        _ => false,
    }
}

/// Reads a keyword.
#[tactic(auto, unfolding(crate::specs::Reader::scan, crate::specs::Reader::walk, crate::specs::Reader::ends))]
pub fn word<'a>(end: u32, tokens: &'a [Token], wanted: Keyword) -> Result<&'a [Token], ParseError>
    ensures gives { (n : ℕ) → ReaderGives result
        (λ s vs. scan true end tokens.now n (AWord wanted ∷ s) vs)
        (λ rest s vs. scan true end rest.now n s vs) }
    ensures shorter { IfOk result (λ rest. length rest.now < length tokens.now) }
{
    match next(tokens) {
        None => Err(ParseError::Syntax { at: end }),
        Some((first, rest)) => {
            if is_word(&first.kind, wanted) {
                Ok(rest)
            } else {
                Err(ParseError::Syntax { at: first.at })
            }
        }
    }
}

fn is_word(kind: &TokenKind, wanted: Keyword) -> bool
    ensures { result ≡ is_word wanted kind.now }
{
    match kind {
        TokenKind::Word(word) => *word == wanted,
        _ => false,
    }
}

/// Reads a name.
#[tactic(auto, unfolding(crate::specs::Reader::scan, crate::specs::Reader::walk, crate::specs::Reader::ends))]
pub fn name<'a>(
    alloc: Global,
    end: u32,
    tokens: &'a [Token],
) -> Result<(Ident, &'a [Token]), ParseError>
    ensures gives { (n : ℕ) → ReaderGives result (λ s vs. scan true end tokens.now n (AName ∷ s) vs)
        (λ x s vs. scan true end x.1.now n s (AnIdent x.0 ∷ vs)) }
    ensures shorter { IfOk result (λ x. length x.1.now < length tokens.now) }
{
    match next(tokens) {
        None => Err(ParseError::Syntax { at: end }),
        Some((first, rest)) => match &first.kind {
            TokenKind::Name(text) => Ok((
                Ident {
                    at: first.at,
                    text: text.copy(alloc)?,
                },
                rest,
            )),
            _ => Err(ParseError::Syntax { at: first.at }),
        },
    }
}

/// The operator of a level that a token is.
pub fn operator_at(level: u32, kind: &TokenKind) -> Option<BinOp>
    ensures { result ≡ operator_at level kind.now }
{
    match binary_operator(kind) {
        None => None,
        Some((binds, op)) => if level == binds { Some(op) } else { None },
    }
}

/// The binary operator that a token is, with its level: the strongest bind at level 1.
fn binary_operator(kind: &TokenKind) -> Option<(u32, BinOp)>
    ensures { result ≡ binary_operator kind.now }
{
    match kind {
        TokenKind::Sign(sign) => sign_operator(*sign),
        _ => None,
    }
}

fn sign_operator(sign: Symbol) -> Option<(u32, BinOp)>
    ensures { result ≡ binary_operator (Sign sign) }
{
    match sign {
        Symbol::Star => Some((1, BinOp::Mul)),
        Symbol::Slash => Some((1, BinOp::Div)),
        Symbol::Percent => Some((1, BinOp::Rem)),
        Symbol::Plus => Some((2, BinOp::Add)),
        Symbol::Minus => Some((2, BinOp::Sub)),
        Symbol::Less => Some((3, BinOp::Less)),
        Symbol::Greater => Some((3, BinOp::Greater)),
        Symbol::AtMost => Some((3, BinOp::AtMost)),
        Symbol::AtLeast => Some((3, BinOp::AtLeast)),
        Symbol::Equal => Some((4, BinOp::Equal)),
        Symbol::NotEqual => Some((4, BinOp::NotEqual)),
        Symbol::Amp => Some((5, BinOp::And)),
        Symbol::Caret => Some((6, BinOp::Xor)),
        Symbol::Bar => Some((7, BinOp::Or)),
        Symbol::AmpAmp => Some((8, BinOp::AndAlso)),
        Symbol::BarBar => Some((9, BinOp::OrElse)),
        _ => None,
    }
}

/// How a token updates a place.
pub fn update_operator(kind: &TokenKind) -> Option<UpdateOp>
    ensures { result ≡ update_operator kind.now }
{
    match kind {
        TokenKind::Sign(Symbol::AddTo) => Some(UpdateOp::Add),
        TokenKind::Sign(Symbol::SubFrom) => Some(UpdateOp::Sub),
        TokenKind::Sign(Symbol::XorInto) => Some(UpdateOp::Xor),
        _ => None,
    }
}

/// Whether a `[` is here.
pub fn bracket_here(tokens: &[Token]) -> bool
    ensures { result ≡ here (is_sign sign.LeftBracket) tokens.now }
{
    match next(tokens) {
        None => false,
        Some((first, _)) => is_sign(&first.kind, Symbol::LeftBracket),
    }
}

/// Whether a `)` is here.
pub fn paren_here(tokens: &[Token]) -> bool
    ensures { result ≡ here (is_sign sign.RightParen) tokens.now }
{
    match next(tokens) {
        None => false,
        Some((first, _)) => is_sign(&first.kind, Symbol::RightParen),
    }
}

/// Whether this keyword is here.
pub fn word_here(tokens: &[Token], wanted: Keyword) -> bool
    ensures { result ≡ here (is_word wanted) tokens.now }
{
    match next(tokens) {
        None => false,
        Some((first, _)) => is_word(&first.kind, wanted),
    }
}

/// Whether a statement begins here.
pub fn starts_here(tokens: &[Token]) -> bool
    ensures { result ≡ here starts tokens.now }
{
    match next(tokens) {
        None => false,
        Some((first, _)) => starts(&first.kind),
    }
}

/// Whether a statement begins with a token.
pub fn starts(kind: &TokenKind) -> bool
    ensures { result ≡ starts kind.now }
{
    match kind {
        TokenKind::Name(_text) => true,
        TokenKind::Word(word) => match *word {
            Keyword::If
            | Keyword::From
            | Keyword::Construct
            | Keyword::Local
            | Keyword::New
            | Keyword::Delete
            | Keyword::Copy
            | Keyword::Uncopy
            | Keyword::Call
            | Keyword::Uncall
            | Keyword::Skip => true,
            _ => false,
        },
        _ => false,
    }
}

/// Whether a type begins here.
pub fn type_here(tokens: &[Token]) -> bool
    ensures { result ≡ here types tokens.now }
{
    match next(tokens) {
        None => false,
        Some((first, _)) => match &first.kind {
            TokenKind::Name(_text) => true,
            TokenKind::Word(Keyword::Int) => true,
            _ => false,
        },
    }
}

/// The place of the first token, or the end.
pub fn place_of(end: u32, tokens: &[Token]) -> u32
    ensures { result ≡ offset_at end tokens.now }
{
    match next(tokens) {
        None => end,
        Some((first, _)) => first.at,
    }
}
