// Statements without statements inside them, after their first token.
ghost use Rattle.std.specs.Prelude.{◌≡◌, ◌≤◌, ◌<◌, ◌∷◌, ℕ, true, length, IfOk};
ghost use Rattle.roopl_lexer.specs.rpp_tree.Views.{statement_of, lvalue_of, creation_of};
ghost use Rattle.roopl_lexer.specs.declared.token.Symbol.TheVariants as sign;
ghost use Rattle.roopl_parser.specs.Reader.{ReaderGives, scan, Index, Assign, Count, Made as MadePart, Spot, Kind, Receiver, Args, AName, ASign, Build, AnIdent, APlace, ACreation, AType, AStatement, MakeNew, MakeDelete, MakeCopy, MakeUncopy, MakeCall, send_parts};

use crate::arguments::args;
use crate::error::ParseError;
use crate::expression::{binary, indexed};
use crate::kinds::{kind, made, place};
use crate::single::{name, next, sign, update_operator};
use roopl_lexer::limits::{LimitKind, MOST_LOCALS};
use roopl_lexer::tree::{Ident, Made, Place, VarType};
use roopl_lexer::{Stmt, Symbol, Token, TokenKind};
use std::alloc::Global;

/// Reads an update or a swap, after its first name.
#[tactic(auto, unfolding(crate::specs::Reader::scan, crate::specs::Reader::walk, crate::specs::Reader::ends), using(crate::proofs::MoveSets::simple_moves))]
pub fn assignment<'a>(
    alloc: Global,
    end: u32,
    tokens: &'a [Token],
    first: Ident,
) -> Result<(Stmt, &'a [Token]), ParseError>
    ensures gives { ReaderGives result (λ s vs. scan true end tokens.now 0
        (Index 0 0 ∷ Assign first.at ∷ Count 0 ∷ s) (AnIdent first ∷ vs))
        (λ x s vs. scan true end x.1.now 0 s (AStatement (statement_of x.0) ∷ vs)) }
    ensures shorter { IfOk result (λ x. length x.1.now < length tokens.now) }
{
    let at = first.at;
    let (left, nodes, rest) = indexed(alloc, end, tokens, 0, 0, 0, first)?;
    assigned(alloc, end, rest, nodes, at, left)
}

/// Reads an update or a swap, after its first place.
#[tactic(auto, unfolding(crate::specs::Reader::scan, crate::specs::Reader::walk, crate::specs::Reader::ends), using(crate::proofs::MoveSets::simple_moves))]
fn assigned<'a>(
    alloc: Global,
    end: u32,
    tokens: &'a [Token],
    nodes: u32,
    at: u32,
    left: Place,
) -> Result<(Stmt, &'a [Token]), ParseError>
    ensures gives { ReaderGives result (λ s vs. scan true end tokens.now nodes (Assign at ∷ Count 0 ∷ s)
        (APlace (lvalue_of left) ∷ vs))
        (λ x s vs. scan true end x.1.now 0 s (AStatement (statement_of x.0) ∷ vs)) }
    ensures shorter { IfOk result (λ x. length x.1.now < length tokens.now) }
{
    match next(tokens) {
        None => Err(ParseError::Syntax { at: end }),
        Some((token, rest)) => match update_operator(&token.kind) {
            Some(op) => {
                let (value, _, rest) = binary(alloc, end, rest, nodes, 0, 0, 9)?;
                Ok((
                    Stmt::Update {
                        at,
                        op,
                        place: left,
                        value,
                    },
                    rest,
                ))
            }
            None => {
                let rest = sign(end, tokens, Symbol::Swap)?;
                let (right, _, rest) = place(alloc, end, rest, nodes)?;
                Ok((Stmt::Swap { at, left, right }, rest))
            }
        },
    }
}

/// Reads what is made or deleted, and its place.
#[tactic(auto, using(crate::proofs::MoveSets::simple_moves))]
fn creation<'a>(
    alloc: Global,
    end: u32,
    tokens: &'a [Token],
) -> Result<(Made, Place, u32, &'a [Token]), ParseError>
    ensures gives { ReaderGives result (λ s vs. scan true end tokens.now 0 (MadePart ∷ Spot ∷ s) vs)
        (λ x s vs. scan true end x.3.now x.2 s
        (APlace (lvalue_of x.1) ∷ ACreation (creation_of x.0) ∷ vs)) }
    ensures shorter { IfOk result (λ x. length x.3.now < length tokens.now) }
{
    let (made, nodes, rest) = made(alloc, end, tokens)?;
    let (place, nodes, rest) = place(alloc, end, rest, nodes)?;
    Ok((made, place, nodes, rest))
}

/// Reads a `new`, after its keyword.
#[tactic(auto, using(crate::proofs::MoveSets::simple_moves))]
pub fn make<'a>(
    alloc: Global,
    end: u32,
    tokens: &'a [Token],
    at: u32,
) -> Result<(Stmt, &'a [Token]), ParseError>
    ensures gives { ReaderGives result (λ s vs. scan true end tokens.now 0
        (MadePart ∷ Spot ∷ Build (MakeNew at) ∷ Count 0 ∷ s) vs)
        (λ x s vs. scan true end x.1.now 0 s (AStatement (statement_of x.0) ∷ vs)) }
    ensures shorter { IfOk result (λ x. length x.1.now < length tokens.now) }
{
    let (made, place, _, rest) = creation(alloc, end, tokens)?;
    Ok((Stmt::New { at, made, place }, rest))
}

/// Reads a `delete`, after its keyword.
#[tactic(auto, using(crate::proofs::MoveSets::simple_moves))]
pub fn delete<'a>(
    alloc: Global,
    end: u32,
    tokens: &'a [Token],
    at: u32,
) -> Result<(Stmt, &'a [Token]), ParseError>
    ensures gives { ReaderGives result (λ s vs. scan true end tokens.now 0
        (MadePart ∷ Spot ∷ Build (MakeDelete at) ∷ Count 0 ∷ s) vs)
        (λ x s vs. scan true end x.1.now 0 s (AStatement (statement_of x.0) ∷ vs)) }
    ensures shorter { IfOk result (λ x. length x.1.now < length tokens.now) }
{
    let (made, place, _, rest) = creation(alloc, end, tokens)?;
    Ok((Stmt::Delete { at, made, place }, rest))
}

/// Reads the type and the two places of a copy.
#[tactic(auto, using(crate::proofs::MoveSets::simple_moves))]
fn copying<'a>(
    alloc: Global,
    end: u32,
    tokens: &'a [Token],
) -> Result<(VarType, Place, Place, u32, &'a [Token]), ParseError>
    ensures gives { ReaderGives result (λ s vs. scan true end tokens.now 0 (Kind ∷ Spot ∷ Spot ∷ s) vs)
        (λ x s vs. scan true end x.4.now x.3 s
        (APlace (lvalue_of x.2) ∷ APlace (lvalue_of x.1) ∷ AType x.0 ∷ vs)) }
    ensures shorter { IfOk result (λ x. length x.4.now < length tokens.now) }
{
    let (kind, rest) = kind(alloc, end, tokens)?;
    let (source, nodes, rest) = place(alloc, end, rest, 0)?;
    let (target, nodes, rest) = place(alloc, end, rest, nodes)?;
    Ok((kind, source, target, nodes, rest))
}

/// Reads a `copy`, after its keyword.
#[tactic(auto, using(crate::proofs::MoveSets::simple_moves))]
pub fn copy<'a>(
    alloc: Global,
    end: u32,
    tokens: &'a [Token],
    at: u32,
) -> Result<(Stmt, &'a [Token]), ParseError>
    ensures gives { ReaderGives result (λ s vs. scan true end tokens.now 0
        (Kind ∷ Spot ∷ Spot ∷ Build (MakeCopy at) ∷ Count 0 ∷ s) vs)
        (λ x s vs. scan true end x.1.now 0 s (AStatement (statement_of x.0) ∷ vs)) }
    ensures shorter { IfOk result (λ x. length x.1.now < length tokens.now) }
{
    let (kind, source, target, _, rest) = copying(alloc, end, tokens)?;
    let stmt = Stmt::Copy {
        at,
        kind,
        source,
        target,
    };
    Ok((stmt, rest))
}

/// Reads an `uncopy`, after its keyword.
#[tactic(auto, using(crate::proofs::MoveSets::simple_moves))]
pub fn uncopy<'a>(
    alloc: Global,
    end: u32,
    tokens: &'a [Token],
    at: u32,
) -> Result<(Stmt, &'a [Token]), ParseError>
    ensures gives { ReaderGives result (λ s vs. scan true end tokens.now 0
        (Kind ∷ Spot ∷ Spot ∷ Build (MakeUncopy at) ∷ Count 0 ∷ s) vs)
        (λ x s vs. scan true end x.1.now 0 s (AStatement (statement_of x.0) ∷ vs)) }
    ensures shorter { IfOk result (λ x. length x.1.now < length tokens.now) }
{
    let (kind, source, target, _, rest) = copying(alloc, end, tokens)?;
    let stmt = Stmt::Uncopy {
        at,
        kind,
        source,
        target,
    };
    Ok((stmt, rest))
}

/// Reads a call on a receiver, after its first name.
#[tactic(auto, using(crate::proofs::MoveSets::simple_moves))]
fn send<'a>(
    alloc: Global,
    end: u32,
    tokens: &'a [Token],
    at: u32,
    back: bool,
    first: Ident,
) -> Result<(Stmt, &'a [Token]), ParseError>
    ensures gives { ReaderGives result (λ s vs. scan true end tokens.now 0
        (Index 0 0 ∷ ASign sign.DoubleColon ∷ send_parts at back (Count 0 ∷ s))
        (AnIdent first ∷ vs)) (λ x s vs. scan true end x.1.now 0 s
        (AStatement (statement_of x.0) ∷ vs)) }
    ensures shorter { IfOk result (λ x. length x.1.now < length tokens.now) }
{
    let (receiver, _, rest) = indexed(alloc, end, tokens, 0, 0, 0, first)?;
    let rest = sign(end, rest, Symbol::DoubleColon)?;
    let (method, rest) = name(alloc, end, rest)?;
    let rest = sign(end, rest, Symbol::LeftParen)?;
    let (args, rest) = args(alloc, end, rest)?;
    let stmt = Stmt::Call {
        at,
        back,
        receiver: Some(receiver),
        method,
        args,
    };
    Ok((stmt, rest))
}

/// Reads a `call`, or an `uncall`, after its keyword.
#[tactic(auto, unfolding(crate::specs::Reader::scan, crate::specs::Reader::walk, crate::specs::Reader::ends), using(crate::proofs::MoveSets::simple_moves))]
pub fn call<'a>(
    alloc: Global,
    end: u32,
    tokens: &'a [Token],
    at: u32,
    back: bool,
    locals: u32,
) -> Result<(Stmt, &'a [Token]), ParseError>
    ensures gives { ReaderGives result (λ s vs. scan true end tokens.now 0
        (AName ∷ Receiver at back locals ∷ Count 0 ∷ s) vs)
        (λ x s vs. scan true end x.1.now 0 s (AStatement (statement_of x.0) ∷ vs)) }
    ensures shorter { IfOk result (λ x. length x.1.now < length tokens.now) }
{
    let (first, rest) = name(alloc, end, tokens)?;
    target(alloc, end, rest, at, back, locals, first)
}

/// Reads a call after its first name.
#[tactic(auto, unfolding(crate::specs::Reader::scan, crate::specs::Reader::walk, crate::specs::Reader::ends), using(crate::proofs::MoveSets::simple_moves))]
fn target<'a>(
    alloc: Global,
    end: u32,
    tokens: &'a [Token],
    at: u32,
    back: bool,
    locals: u32,
    first: Ident,
) -> Result<(Stmt, &'a [Token]), ParseError>
    ensures gives { ReaderGives result (λ s vs. scan true end tokens.now 0
        (Receiver at back locals ∷ Count 0 ∷ s) (AnIdent first ∷ vs))
        (λ x s vs. scan true end x.1.now 0 s (AStatement (statement_of x.0) ∷ vs)) }
    ensures shorter { IfOk result (λ x. length x.1.now < length tokens.now) }
{
    match next(tokens) {
        None => Err(ParseError::Syntax { at: end }),
        Some((token, rest)) => match &token.kind {
            TokenKind::Sign(Symbol::LeftParen) => own_call(alloc, end, rest, at, back, first),
            TokenKind::Sign(Symbol::DoubleColon) => send(alloc, end, tokens, at, back, first),
            TokenKind::Sign(Symbol::LeftBracket) => {
                if locals < MOST_LOCALS {
                    send(alloc, end, tokens, at, back, first)
                } else {
                    Err(ParseError::Limit {
                        which: LimitKind::Locals,
                        at: token.at,
                    })
                }
            }
            _ => Err(ParseError::Syntax { at: token.at }),
        },
    }
}

/// Reads a call on the same object, after its parenthesis.
#[tactic(auto, using(crate::proofs::MoveSets::simple_moves))]
fn own_call<'a>(
    alloc: Global,
    end: u32,
    tokens: &'a [Token],
    at: u32,
    back: bool,
    method: Ident,
) -> Result<(Stmt, &'a [Token]), ParseError>
    ensures gives { ReaderGives result (λ s vs. scan true end tokens.now 0
        (Args ∷ Build (MakeCall at back) ∷ Count 0 ∷ s) (AnIdent method ∷ vs))
        (λ x s vs. scan true end x.1.now 0 s (AStatement (statement_of x.0) ∷ vs)) }
    ensures shorter { IfOk result (λ x. length x.1.now < length tokens.now) }
{
    let (args, rest) = args(alloc, end, tokens)?;
    let stmt = Stmt::Call {
        at,
        back,
        receiver: None,
        method,
        args,
    };
    Ok((stmt, rest))
}
