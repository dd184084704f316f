// The parameters of a method.
ghost use Rattle.std.specs.Prelude.{◌≡◌, ◌<◌, ◌∷◌, ◌++◌, [], ℕ, List, true, length, IfOk};
ghost use Rattle.roopl_lexer.specs.rpp_tree.declared.tree.Var.{Var};
ghost use Rattle.roopl_parser.specs.Reader.{ReaderGives, scan, Params, Param, MoreParams, Vars};

use crate::error::ParseError;
use crate::kinds::variable;
use crate::single::{next, paren_here, place_of, sign, type_here};
use roopl_lexer::limits::{LimitKind, MOST_PARAMETERS};
use roopl_lexer::tree::Var;
use roopl_lexer::{Symbol, Token, TokenKind};
use std::alloc::Global;

/// Reads a parameter after this many.
#[tactic(auto, using(crate::proofs::MoveSets::param_moves))]
fn param<'a>(
    alloc: Global,
    end: u32,
    tokens: &'a [Token],
    count: usize,
) -> Result<(Var, &'a [Token]), ParseError>
    ensures gives { (n : ℕ) (xs : List Var)
        → ReaderGives result (λ s vs. scan true end tokens.now n (Param count ∷ s) (Vars xs ∷ vs))
        (λ x s vs. scan true end x.1.now n s (Vars (xs ++ x.0 ∷ []) ∷ vs)) }
    ensures shorter { IfOk result (λ x. length x.1.now < length tokens.now) }
{
    if !type_here(tokens) {
        Err(ParseError::Syntax {
            at: place_of(end, tokens),
        })
    } else if count >= MOST_PARAMETERS as usize {
        Err(ParseError::Limit {
            which: LimitKind::Parameters,
            at: place_of(end, tokens),
        })
    } else {
        variable(alloc, end, tokens)
    }
}

/// Reads the parameters of a method, after its parenthesis.
#[tactic(auto, using(crate::proofs::MoveSets::param_moves))]
pub fn params<'a>(
    alloc: Global,
    end: u32,
    tokens: &'a [Token],
) -> Result<(Vec<Var>, &'a [Token]), ParseError>
    ensures gives { (n : ℕ) → ReaderGives result (λ s vs. scan true end tokens.now n (Params ∷ s) vs)
        (λ x s vs. scan true end x.1.now n s (Vars x.0.items ∷ vs)) }
    ensures shorter { IfOk result (λ x. length x.1.now < length tokens.now) }
{
    let mut params = Vec::new(alloc);
    if paren_here(tokens) {
        let rest = sign(end, tokens, Symbol::RightParen)?;
        Ok((params, rest))
    } else {
        let (first, rest) = param(alloc, end, tokens, 0)?;
        params.push(first)?;
        more_params(alloc, end, rest, params)
    }
}

/// Reads the parameters that follow the first ones.
#[tactic(auto, unfolding(crate::specs::Reader::scan, crate::specs::Reader::walk, crate::specs::Reader::ends))]
fn more_params<'a>(
    alloc: Global,
    end: u32,
    tokens: &'a [Token],
    first: Vec<Var>,
) -> Result<(Vec<Var>, &'a [Token]), ParseError>
    ensures gives { (n : ℕ) → ReaderGives result
        (λ s vs. scan true end tokens.now n (MoreParams (length first.items) ∷ s)
        (Vars first.items ∷ vs)) (λ x s vs. scan true end x.1.now n s (Vars x.0.items ∷ vs)) }
    ensures shorter { IfOk result (λ x. length x.1.now < length tokens.now) }
{
    let mut params = first;
    let mut rest = tokens;
    'params: loop {
        match next(rest) {
            None => return Err(ParseError::Syntax { at: end }),
            Some((token, after)) => match &token.kind {
                TokenKind::Sign(Symbol::RightParen) => return Ok((params, after)),
                TokenKind::Sign(Symbol::Comma) => {
                    let (next_param, after) = param(alloc, end, after, params.len())?;
                    params.push(next_param)?;
                    rest = after;
                }
                _ => return Err(ParseError::Syntax { at: token.at }),
            },
        }
    }
}
