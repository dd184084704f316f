// The names that a call passes.
ghost use Rattle.std.specs.Prelude.{◌≡◌, ◌<◌, ◌∷◌, ℕ, true, length, IfOk};
ghost use Rattle.roopl_parser.specs.Reader.{ReaderGives, scan, Args, MoreArgs, Idents};

use crate::error::ParseError;
use crate::single::{name, next};
use roopl_lexer::tree::Ident;
use roopl_lexer::{Symbol, Token, TokenKind};
use std::alloc::Global;

/// Reads the names of a call, after its parenthesis.
#[tactic(auto, unfolding(crate::specs::Reader::scan, crate::specs::Reader::walk, crate::specs::Reader::ends))]
pub fn args<'a>(
    alloc: Global,
    end: u32,
    tokens: &'a [Token],
) -> Result<(Vec<Ident>, &'a [Token]), ParseError>
    ensures gives { (n : ℕ) → ReaderGives result (λ s vs. scan true end tokens.now n (Args ∷ s) vs)
        (λ x s vs. scan true end x.1.now n s (Idents x.0.items ∷ vs)) }
    ensures shorter { IfOk result (λ x. length x.1.now < length tokens.now) }
{
    match next(tokens) {
        None => Err(ParseError::Syntax { at: end }),
        Some((first, rest)) => match &first.kind {
            TokenKind::Sign(Symbol::RightParen) => Ok((Vec::new(alloc), rest)),
            TokenKind::Name(text) => {
                let mut names = Vec::new(alloc);
                names.push(Ident {
                    at: first.at,
                    text: text.copy(alloc)?,
                })?;
                more_args(alloc, end, rest, names)
            }
            _ => Err(ParseError::Syntax { at: first.at }),
        },
    }
}

/// Reads the names that follow the first one.
#[tactic(auto, unfolding(crate::specs::Reader::scan, crate::specs::Reader::walk, crate::specs::Reader::ends), using(crate::proofs::MoveSets::name_moves))]
fn more_args<'a>(
    alloc: Global,
    end: u32,
    tokens: &'a [Token],
    first: Vec<Ident>,
) -> Result<(Vec<Ident>, &'a [Token]), ParseError>
    ensures gives { (n : ℕ) → ReaderGives result
        (λ s vs. scan true end tokens.now n (MoreArgs ∷ s) (Idents first.items ∷ vs))
        (λ x s vs. scan true end x.1.now n s (Idents x.0.items ∷ vs)) }
    ensures shorter { IfOk result (λ x. length x.1.now < length tokens.now) }
{
    let mut names = first;
    let mut rest = tokens;
    'names: loop {
        match next(rest) {
            None => return Err(ParseError::Syntax { at: end }),
            Some((token, after)) => match &token.kind {
                TokenKind::Sign(Symbol::RightParen) => return Ok((names, after)),
                TokenKind::Sign(Symbol::Comma) => {
                    let (next_name, after) = name(alloc, end, after)?;
                    names.push(next_name)?;
                    rest = after;
                }
                _ => return Err(ParseError::Syntax { at: token.at }),
            },
        }
    }
}
