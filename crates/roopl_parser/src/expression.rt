// Expressions.
ghost use Rattle.std.specs.Prelude.{◌≡◌, ◌≤◌, ◌<◌, ◌∷◌, ℕ, suc, true, length, IfOk, MatchResult};
ghost use Rattle.roopl_lexer.specs.rpp_tree.declared.limits.TheConstants.{MOST_INDEX_DEPTH, MOST_NODES};
ghost use Rattle.roopl_lexer.specs.rpp_tree.declared.limits.LimitKind.TheVariants as limit;
ghost use Rattle.roopl_parser.specs.declared.error.ParseError.TheVariants.{Limit};
ghost use Rattle.roopl_lexer.specs.rpp_tree.Views.{expression_of, lvalue_of};
ghost use Rattle.roopl_lexer.specs.declared.token.Symbol.TheVariants as sign;
ghost use Rattle.roopl_parser.specs.Reader.{ReaderGives, scan, here, is_sign, stopped, passed, name_mark, parens_mark, Level, More, Index, Build, MakeRead, ASign, AnExpr, AnIdent, APlace};

use crate::error::ParseError;
use crate::single::{bracket_here, next, operator_at, sign};
use roopl_lexer::limits::{LimitKind, MOST_INDEX_DEPTH, MOST_NODES, MOST_PARENS};
use roopl_lexer::tree::{Ident, Place};
use roopl_lexer::{Expr, Keyword, Symbol, Token, TokenKind};
use std::alloc::Global;

/// One node more. The error is that the statement has no space for it.
fn counted(nodes: u32, at: u32) -> Result<u32, ParseError>
    ensures { MatchResult result (λ more. (nodes < MOST_NODES) × (more ≡ suc nodes))
        (λ e. (MOST_NODES ≤ nodes) × (e ≡ Limit limit.Nodes at)) }
{
    if nodes < MOST_NODES {
        Ok(nodes + 1)
    } else {
        Err(ParseError::Limit {
            which: LimitKind::Nodes,
            at,
        })
    }
}

/// Reads an operand.
#[cycle(expression)]
#[tactic(auto, unfolding(crate::specs::Reader::scan, crate::specs::Reader::walk, crate::specs::Reader::ends))]
fn operand<'a>(
    alloc: Global,
    end: u32,
    tokens: &'a [Token],
    nodes: u32,
    parens: u32,
    indexes: u32,
) -> Result<(Expr, u32, &'a [Token]), ParseError>
    ensures gives { ReaderGives result (λ s vs. scan true end tokens.now nodes
        (Level 0 parens indexes ∷ s) vs)
        (λ x s vs. scan true end x.2.now x.1 s (AnExpr (expression_of x.0) ∷ vs)) }
    ensures shorter { IfOk result (λ x. length x.2.now < length tokens.now) }
{
    match next(tokens) {
        None => Err(ParseError::Syntax { at: end }),
        Some((first, rest)) => match &first.kind {
            TokenKind::Number(word) => {
                let nodes = counted(nodes, first.at)?;
                let number = Expr::Number {
                    at: first.at,
                    word: *word,
                };
                Ok((number, nodes, rest))
            }
            TokenKind::Word(Keyword::Nil) => {
                let nodes = counted(nodes, first.at)?;
                Ok((Expr::Nil { at: first.at }, nodes, rest))
            }
            TokenKind::Name(text) => {
                let name = Ident {
                    at: first.at,
                    text: text.copy(alloc)?,
                };
                read(alloc, end, rest, nodes, parens, indexes, name)
            }
            TokenKind::Sign(Symbol::LeftParen) => {
                grouped(alloc, end, rest, nodes, parens, indexes, first.at)
            }
            _ => Err(ParseError::Syntax { at: first.at }),
        },
    }
}

/// Reads the rest of a place whose value is an operand, after its name.
#[cycle(expression)]
#[tactic(auto, unfolding(crate::specs::Reader::scan, crate::specs::Reader::walk, crate::specs::Reader::ends))]
fn read<'a>(
    alloc: Global,
    end: u32,
    tokens: &'a [Token],
    nodes: u32,
    parens: u32,
    indexes: u32,
    name: Ident,
) -> Result<(Expr, u32, &'a [Token]), ParseError>
    ensures gives { ReaderGives result
        (λ s vs. stopped name.at (passed (name_mark nodes indexes)
        (here (is_sign sign.LeftBracket) tokens.now))
        (scan true end tokens.now (suc nodes) (Index parens indexes ∷ Build MakeRead ∷ s)
        (AnIdent name ∷ vs))) (λ x s vs. scan true end x.2.now x.1 s
        (AnExpr (expression_of x.0) ∷ vs)) }
    ensures shorter { IfOk result (λ x. length x.2.now ≤ length tokens.now) }
{
    let more = counted(nodes, name.at)?;
    if indexes >= MOST_INDEX_DEPTH && bracket_here(tokens) {
        return Err(ParseError::Limit {
            which: LimitKind::Nodes,
            at: name.at,
        });
    }
    let (place, more, rest) = indexed(alloc, end, tokens, more, parens, indexes, name)?;
    Ok((Expr::Read(place), more, rest))
}

/// Reads an expression in parentheses, after the first one.
#[cycle(expression)]
#[tactic(auto, unfolding(crate::specs::Reader::scan, crate::specs::Reader::walk, crate::specs::Reader::ends))]
fn grouped<'a>(
    alloc: Global,
    end: u32,
    tokens: &'a [Token],
    nodes: u32,
    parens: u32,
    indexes: u32,
    at: u32,
) -> Result<(Expr, u32, &'a [Token]), ParseError>
    ensures gives { ReaderGives result
        (λ s vs. stopped at (passed (parens_mark parens)
        (here (is_sign sign.LeftBracket) tokens.now))
        (scan true end tokens.now nodes (Level 9 (suc parens) indexes ∷ ASign sign.RightParen ∷ s)
        vs)) (λ x s vs. scan true end x.2.now x.1 s (AnExpr (expression_of x.0) ∷ vs)) }
    ensures shorter { IfOk result (λ x. length x.2.now ≤ length tokens.now) }
{
    if parens >= MOST_PARENS {
        return Err(ParseError::Limit {
            which: LimitKind::Parens,
            at,
        });
    }
    let (inner, nodes, rest) = binary(alloc, end, tokens, nodes, parens + 1, indexes, 9)?;
    let rest = sign(end, rest, Symbol::RightParen)?;
    Ok((inner, nodes, rest))
}

/// Reads what may follow the name of a place: an index.
#[cycle(expression)]
#[tactic(auto, unfolding(crate::specs::Reader::scan, crate::specs::Reader::walk, crate::specs::Reader::ends))]
pub fn indexed<'a>(
    alloc: Global,
    end: u32,
    tokens: &'a [Token],
    nodes: u32,
    parens: u32,
    indexes: u32,
    name: Ident,
) -> Result<(Place, u32, &'a [Token]), ParseError>
    requires { here (is_sign sign.LeftBracket) tokens.now ≡ true → indexes < MOST_INDEX_DEPTH }
    ensures gives { ReaderGives result (λ s vs. scan true end tokens.now nodes (Index parens indexes ∷ s)
        (AnIdent name ∷ vs)) (λ x s vs. scan true end x.2.now x.1 s (APlace (lvalue_of x.0) ∷ vs)) }
    ensures shorter { IfOk result (λ x. length x.2.now ≤ length tokens.now) }
{
    match next(tokens) {
        Some((first, rest)) => match &first.kind {
            TokenKind::Sign(Symbol::LeftBracket) => {
                let (index, nodes, rest) = binary(alloc, end, rest, nodes, parens, indexes + 1, 9)?;
                let rest = sign(end, rest, Symbol::RightBracket)?;
                let index = Some(Box::new(alloc, index)?);
                Ok((Place { name, index }, nodes, rest))
            }
            _ => Ok((Place { name, index: None }, nodes, tokens)),
        },
        None => Ok((Place { name, index: None }, nodes, tokens)),
    }
}

/// Reads an expression whose operators outside parentheses and indexes have at most this level.
#[cycle(expression)]
#[tactic(auto, unfolding(crate::specs::Reader::scan, crate::specs::Reader::walk, crate::specs::Reader::ends))]
pub fn binary<'a>(
    alloc: Global,
    end: u32,
    tokens: &'a [Token],
    nodes: u32,
    parens: u32,
    indexes: u32,
    level: u32,
) -> Result<(Expr, u32, &'a [Token]), ParseError>
    ensures gives { ReaderGives result (λ s vs. scan true end tokens.now nodes
        (Level level parens indexes ∷ s) vs)
        (λ x s vs. scan true end x.2.now x.1 s (AnExpr (expression_of x.0) ∷ vs)) }
    ensures shorter { IfOk result (λ x. length x.2.now < length tokens.now) }
{
    if level == 0 {
        operand(alloc, end, tokens, nodes, parens, indexes)
    } else {
        let (left, nodes, rest) = binary(alloc, end, tokens, nodes, parens, indexes, level - 1)?;
        more(alloc, end, rest, nodes, parens, indexes, level, left)
    }
}

/// Reads the operators of a level that follow an operand, and their right operands.
#[cycle(expression)]
#[tactic(auto, unfolding(crate::specs::Reader::scan, crate::specs::Reader::walk, crate::specs::Reader::ends))]
fn more<'a>(
    alloc: Global,
    end: u32,
    tokens: &'a [Token],
    nodes: u32,
    parens: u32,
    indexes: u32,
    level: u32,
    left: Expr,
) -> Result<(Expr, u32, &'a [Token]), ParseError>
    requires { 0 < level }
    ensures gives { ReaderGives result (λ s vs. scan true end tokens.now nodes
        (More level parens indexes ∷ s) (AnExpr (expression_of left) ∷ vs))
        (λ x s vs. scan true end x.2.now x.1 s (AnExpr (expression_of x.0) ∷ vs)) }
    ensures shorter { IfOk result (λ x. length x.2.now ≤ length tokens.now) }
{
    match next(tokens) {
        None => Ok((left, nodes, tokens)),
        Some((first, rest)) => match operator_at(level, &first.kind) {
            None => Ok((left, nodes, tokens)),
            Some(op) => {
                let nodes = counted(nodes, first.at)?;
                let (right, nodes, rest) = binary(
                    alloc,
                    end,
                    rest,
                    nodes,
                    parens,
                    indexes,
                    level - 1,
                )?;
                let joined = Expr::Binary {
                    at: first.at,
                    op,
                    left: Box::new(alloc, left)?,
                    right: Box::new(alloc, right)?,
                };
                more(alloc, end, rest, nodes, parens, indexes, level, joined)
            }
        },
    }
}
