// Types, variables, places and what is made.
ghost use Rattle.std.specs.Prelude.{◌≡◌, ◌≤◌, ◌<◌, ◌∷◌, ℕ, true, cond, length, IfOk};
ghost use Rattle.roopl_lexer.specs.rpp_tree.declared.tree.VarType.{VarType};
ghost use Rattle.roopl_lexer.specs.rpp_tree.Views.{expression_of, lvalue_of, creation_of};
ghost use Rattle.roopl_lexer.specs.declared.token.Symbol.TheVariants as sign;
ghost use Rattle.roopl_parser.specs.Grammar.{array_of};
ghost use Rattle.roopl_parser.specs.Reader.{ReaderGives, scan, here, is_sign, Kind, Brackets, Spot, Made as MadePart, Level, ASign, AType, AVar, APlace, AnExpr, ACreation, var_parts};

use crate::error::ParseError;
use crate::expression::{binary, indexed};
use crate::single::{bracket_here, name, next, sign};
use roopl_lexer::tree::{Ident, Made, Place, Var, VarType};
use roopl_lexer::{Expr, Keyword, Symbol, Token, TokenKind};
use std::alloc::Global;

/// Reads the brackets of an array's type, or nothing: whether they are here.
#[tactic(auto, unfolding(crate::specs::Reader::scan, crate::specs::Reader::walk, crate::specs::Reader::ends), using(crate::proofs::MoveSets::kind_moves))]
fn brackets<'a>(end: u32, tokens: &'a [Token]) -> Result<(bool, &'a [Token]), ParseError>
    ensures gives { (n : ℕ) (k : VarType)
        → ReaderGives result (λ s vs. scan true end tokens.now n (Brackets ∷ s) (AType k ∷ vs))
        (λ x s vs. scan true end x.1.now n s (AType (cond x.0 (array_of k) k) ∷ vs)) }
    ensures shorter { IfOk result (λ x. length x.1.now ≤ length tokens.now) }
{
    if bracket_here(tokens) {
        let rest = sign(end, tokens, Symbol::LeftBracket)?;
        let rest = sign(end, rest, Symbol::RightBracket)?;
        Ok((true, rest))
    } else {
        Ok((false, tokens))
    }
}

/// Reads a type.
#[tactic(auto, unfolding(crate::specs::Reader::scan, crate::specs::Reader::walk, crate::specs::Reader::ends))]
pub fn kind<'a>(
    alloc: Global,
    end: u32,
    tokens: &'a [Token],
) -> Result<(VarType, &'a [Token]), ParseError>
    ensures gives { (n : ℕ) → ReaderGives result (λ s vs. scan true end tokens.now n (Kind ∷ s) vs)
        (λ x s vs. scan true end x.1.now n s (AType x.0 ∷ vs)) }
    ensures shorter { IfOk result (λ x. length x.1.now < length tokens.now) }
{
    match next(tokens) {
        None => Err(ParseError::Syntax { at: end }),
        Some((first, rest)) => match &first.kind {
            TokenKind::Word(Keyword::Int) => match brackets(end, rest)? {
                (true, rest) => Ok((VarType::IntArray, rest)),
                (false, rest) => Ok((VarType::Int, rest)),
            },
            TokenKind::Name(text) => {
                let class = Ident {
                    at: first.at,
                    text: text.copy(alloc)?,
                };
                match brackets(end, rest)? {
                    (true, rest) => Ok((VarType::ClassArray(class), rest)),
                    (false, rest) => Ok((VarType::Class(class), rest)),
                }
            }
            _ => Err(ParseError::Syntax { at: first.at }),
        },
    }
}

/// Reads a variable with its type.
#[tactic(auto, using(crate::proofs::MoveSets::kind_moves))]
pub fn variable<'a>(
    alloc: Global,
    end: u32,
    tokens: &'a [Token],
) -> Result<(Var, &'a [Token]), ParseError>
    ensures gives { (n : ℕ) → ReaderGives result
        (λ s vs. scan true end tokens.now n (Kind ∷ var_parts s) vs)
        (λ x s vs. scan true end x.1.now n s (AVar x.0 ∷ vs)) }
    ensures shorter { IfOk result (λ x. length x.1.now < length tokens.now) }
{
    let (kind, rest) = kind(alloc, end, tokens)?;
    let (name, rest) = name(alloc, end, rest)?;
    Ok((Var { kind, name }, rest))
}

/// Reads a place, after this many nodes: with the number of nodes up to its end.
#[tactic(auto, using(crate::proofs::MoveSets::kind_moves))]
pub fn place<'a>(
    alloc: Global,
    end: u32,
    tokens: &'a [Token],
    nodes: u32,
) -> Result<(Place, u32, &'a [Token]), ParseError>
    ensures gives { ReaderGives result (λ s vs. scan true end tokens.now nodes (Spot ∷ s) vs)
        (λ x s vs. scan true end x.2.now x.1 s (APlace (lvalue_of x.0) ∷ vs)) }
    ensures shorter { IfOk result (λ x. length x.2.now < length tokens.now) }
{
    let (name, rest) = name(alloc, end, tokens)?;
    indexed(alloc, end, rest, nodes, 0, 0, name)
}

/// Reads the length of an array in its brackets: with its number of nodes.
#[tactic(auto, using(crate::proofs::MoveSets::kind_moves))]
fn array_length<'a>(
    alloc: Global,
    end: u32,
    tokens: &'a [Token],
) -> Result<(Expr, u32, &'a [Token]), ParseError>
    ensures gives { ReaderGives result (λ s vs. scan true end tokens.now 0
        (ASign sign.LeftBracket ∷ Level 9 0 0 ∷ ASign sign.RightBracket ∷ s) vs)
        (λ x s vs. scan true end x.2.now x.1 s (AnExpr (expression_of x.0) ∷ vs)) }
    ensures shorter { IfOk result (λ x. length x.2.now < length tokens.now) }
{
    let rest = sign(end, tokens, Symbol::LeftBracket)?;
    let (length, nodes, rest) = binary(alloc, end, rest, 0, 0, 0, 9)?;
    let rest = sign(end, rest, Symbol::RightBracket)?;
    Ok((length, nodes, rest))
}

/// Reads what is made or deleted: with its number of nodes.
#[tactic(auto, unfolding(crate::specs::Reader::scan, crate::specs::Reader::walk, crate::specs::Reader::ends), using(crate::proofs::MoveSets::kind_moves))]
pub fn made<'a>(
    alloc: Global,
    end: u32,
    tokens: &'a [Token],
) -> Result<(Made, u32, &'a [Token]), ParseError>
    ensures gives { ReaderGives result (λ s vs. scan true end tokens.now 0 (MadePart ∷ s) vs)
        (λ x s vs. scan true end x.2.now x.1 s (ACreation (creation_of x.0) ∷ vs)) }
    ensures shorter { IfOk result (λ x. length x.2.now < length tokens.now) }
{
    match next(tokens) {
        None => Err(ParseError::Syntax { at: end }),
        Some((first, rest)) => match &first.kind {
            TokenKind::Word(Keyword::Int) => {
                let (length, nodes, rest) = array_length(alloc, end, rest)?;
                Ok((Made::Ints(length), nodes, rest))
            }
            TokenKind::Name(text) => {
                let class = Ident {
                    at: first.at,
                    text: text.copy(alloc)?,
                };
                if bracket_here(rest) {
                    let (length, nodes, rest) = array_length(alloc, end, rest)?;
                    Ok((Made::Objects(class, length), nodes, rest))
                } else {
                    Ok((Made::Object(class), 0, rest))
                }
            }
            _ => Err(ParseError::Syntax { at: first.at }),
        },
    }
}
