// Statements and blocks.
ghost use Rattle.std.specs.Prelude.{◌≡◌, ◌≢◌, ◌≤◌, ◌<◌, ◌∷◌, ℕ, suc, List, true, length, IfOk, MatchResult, Err};
ghost use Rattle.roopl_lexer.specs.rpp_tree.declared.limits.TheConstants.{MOST_NESTING, MOST_LOCALS};
ghost use Rattle.roopl_lexer.specs.rpp_tree.Views.{statement_of, block_of, expression_of};
ghost use Rattle.roopl_lexer.specs.declared.token.Keyword.TheVariants as word;
ghost use Rattle.roopl_lexer.specs.declared.token.Symbol.TheVariants as sign;
ghost use Rattle.roopl_parser.specs.Reader.{ReaderGives, scan, is_word, starts, Part, ParsedValue, Single, Block as BlockPart, Branches, Level, Count, Build, Scope, Kind, AName, AWord, ASign, AStatement, ABlock, AVar, AnExpr, MakeIf, MakeFrom, MakeConstruct, MakeLocal, var_parts};

use crate::error::ParseError;
use crate::expression::binary;
use crate::kinds::variable;
use crate::simple::{assignment, call, copy, delete, make, uncopy};
use crate::single::{name, next, sign, starts, starts_here, word, word_here};
use roopl_lexer::limits::{LimitKind, MOST_LOCALS, MOST_NESTING};
use roopl_lexer::tree::{Block, Ident, Var};
use roopl_lexer::{Expr, Keyword, Stmt, Symbol, Token, TokenKind};
use std::alloc::Global;

/// The first token of a statement and the others, if it passes no limit.
#[tactic(auto, unfolding(crate::specs::Reader::scan, crate::specs::Reader::walk, crate::specs::Reader::ends), using(crate::proofs::MoveSets::statement_moves))]
fn beginning<'a>(
    end: u32,
    tokens: &'a [Token],
    depth: u32,
    locals: u32,
) -> Result<(&'a Token, &'a [Token]), ParseError>
    ensures gives { MatchResult result (λ x. tokens.now ≡ x.0.now ∷ x.1.now)
        (λ e. (n : ℕ) (s : List Part) (vs : List ParsedValue)
        → scan true end tokens.now n (Single depth locals ∷ s) vs ≡ Err e) }
    ensures nested { IfOk result (λ x. depth < MOST_NESTING) }
    ensures held { IfOk result (λ x. is_word word.Local x.0.now.kind ≡ true → locals < MOST_LOCALS) }
    ensures constructed { IfOk result (λ x. is_word word.Construct x.0.now.kind ≡ true
        → locals < MOST_LOCALS) }
{
    match next(tokens) {
        None => Err(ParseError::Syntax { at: end }),
        Some((first, rest)) => {
            if !starts(&first.kind) {
                Err(ParseError::Syntax { at: first.at })
            } else if depth >= MOST_NESTING {
                Err(ParseError::Limit {
                    which: LimitKind::Nesting,
                    at: first.at,
                })
            } else if locals >= MOST_LOCALS
                && (word_here(tokens, Keyword::Local) || word_here(tokens, Keyword::Construct))
            {
                Err(ParseError::Limit {
                    which: LimitKind::Locals,
                    at: first.at,
                })
            } else {
                Ok((first, rest))
            }
        }
    }
}

/// Reads a statement with this many statements and locals around it.
#[cycle(statement)]
#[tactic(auto, unfolding(crate::specs::Reader::scan, crate::specs::Reader::walk, crate::specs::Reader::ends), using(crate::proofs::MoveSets::statement_moves))]
fn single<'a>(
    alloc: Global,
    end: u32,
    tokens: &'a [Token],
    depth: u32,
    locals: u32,
) -> Result<(Stmt, &'a [Token]), ParseError>
    ensures gives { (n : ℕ) → ReaderGives result
        (λ s vs. scan true end tokens.now n (Single depth locals ∷ s) vs)
        (λ x s vs. scan true end x.1.now 0 s (AStatement (statement_of x.0) ∷ vs)) }
    ensures shorter { IfOk result (λ x. length x.1.now < length tokens.now) }
{
    let (first, rest) = beginning(end, tokens, depth, locals)?;
    let at = first.at;
    match &first.kind {
        TokenKind::Name(text) => {
            let text = text.copy(alloc)?;
            assignment(alloc, end, rest, Ident { at, text })
        }
        TokenKind::Word(Keyword::If) => conditional(alloc, end, rest, at, depth, locals),
        TokenKind::Word(Keyword::From) => repeated(alloc, end, rest, at, depth, locals),
        TokenKind::Word(Keyword::Construct) => construct(alloc, end, rest, at, depth, locals),
        TokenKind::Word(Keyword::Local) => local(alloc, end, rest, at, depth, locals),
        TokenKind::Word(Keyword::New) => make(alloc, end, rest, at),
        TokenKind::Word(Keyword::Delete) => delete(alloc, end, rest, at),
        TokenKind::Word(Keyword::Copy) => copy(alloc, end, rest, at),
        TokenKind::Word(Keyword::Uncopy) => uncopy(alloc, end, rest, at),
        TokenKind::Word(Keyword::Call) => call(alloc, end, rest, at, false, locals),
        TokenKind::Word(Keyword::Uncall) => call(alloc, end, rest, at, true, locals),
        TokenKind::Word(Keyword::Skip) => Ok((Stmt::Skip { at }, rest)),
        _ => Err(ParseError::Syntax { at }),
    }
}

/// Reads two blocks and an expression, each after its keyword: after this many nodes.
#[cycle(statement)]
#[tactic(auto, using(crate::proofs::MoveSets::statement_moves))]
fn branches<'a>(
    alloc: Global,
    end: u32,
    tokens: &'a [Token],
    first: Keyword,
    second: Keyword,
    third: Keyword,
    nodes: u32,
    depth: u32,
    locals: u32,
) -> Result<(Block, Block, Expr, u32, &'a [Token]), ParseError>
    requires { depth < MOST_NESTING }
    ensures gives { ReaderGives result (λ s vs. scan true end tokens.now nodes
        (Branches first second third depth locals ∷ s) vs)
        (λ x s vs. scan true end x.4.now x.3 s
        (AnExpr (expression_of x.2) ∷ ABlock (block_of x.1) ∷ ABlock (block_of x.0) ∷ vs)) }
    ensures shorter { IfOk result (λ x. length x.4.now < length tokens.now) }
{
    let rest = word(end, tokens, first)?;
    let (taken, rest) = block(alloc, end, rest, depth + 1, locals)?;
    let rest = word(end, rest, second)?;
    let (other, rest) = block(alloc, end, rest, depth + 1, locals)?;
    let rest = word(end, rest, third)?;
    let (after, nodes, rest) = binary(alloc, end, rest, nodes, 0, 0, 9)?;
    Ok((taken, other, after, nodes, rest))
}

/// Reads a conditional, after its `if`.
#[cycle(statement)]
#[tactic(auto, using(crate::proofs::MoveSets::statement_moves))]
fn conditional<'a>(
    alloc: Global,
    end: u32,
    tokens: &'a [Token],
    at: u32,
    depth: u32,
    locals: u32,
) -> Result<(Stmt, &'a [Token]), ParseError>
    requires { depth < MOST_NESTING }
    ensures gives { ReaderGives result (λ s vs. scan true end tokens.now 0
        (Level 9 0 0 ∷ Branches word.Then word.Else word.Fi depth locals ∷ Build (MakeIf at)
        ∷ Count 0 ∷ s) vs) (λ x s vs. scan true end x.1.now 0 s
        (AStatement (statement_of x.0) ∷ vs)) }
    ensures shorter { IfOk result (λ x. length x.1.now < length tokens.now) }
{
    let (test, nodes, rest) = binary(alloc, end, tokens, 0, 0, 0, 9)?;
    let (yes, no, after, _, rest) = branches(
        alloc,
        end,
        rest,
        Keyword::Then,
        Keyword::Else,
        Keyword::Fi,
        nodes,
        depth,
        locals,
    )?;
    let stmt = Stmt::If {
        at,
        test,
        yes,
        no,
        after,
    };
    Ok((stmt, rest))
}

/// Reads a loop, after its `from`.
#[cycle(statement)]
#[tactic(auto, using(crate::proofs::MoveSets::statement_moves))]
fn repeated<'a>(
    alloc: Global,
    end: u32,
    tokens: &'a [Token],
    at: u32,
    depth: u32,
    locals: u32,
) -> Result<(Stmt, &'a [Token]), ParseError>
    requires { depth < MOST_NESTING }
    ensures gives { ReaderGives result (λ s vs. scan true end tokens.now 0
        (Level 9 0 0 ∷ Branches word.Do word.Loop word.Until depth locals ∷ Build (MakeFrom at)
        ∷ Count 0 ∷ s) vs) (λ x s vs. scan true end x.1.now 0 s
        (AStatement (statement_of x.0) ∷ vs)) }
    ensures shorter { IfOk result (λ x. length x.1.now < length tokens.now) }
{
    let (entry, nodes, rest) = binary(alloc, end, tokens, 0, 0, 0, 9)?;
    let (first, again, until, _, rest) = branches(
        alloc,
        end,
        rest,
        Keyword::Do,
        Keyword::Loop,
        Keyword::Until,
        nodes,
        depth,
        locals,
    )?;
    let stmt = Stmt::From {
        at,
        entry,
        first,
        again,
        until,
    };
    Ok((stmt, rest))
}

/// Reads the making of an object for a block, after its `construct`.
#[cycle(statement)]
#[tactic(auto, using(crate::proofs::MoveSets::statement_moves))]
fn construct<'a>(
    alloc: Global,
    end: u32,
    tokens: &'a [Token],
    at: u32,
    depth: u32,
    locals: u32,
) -> Result<(Stmt, &'a [Token]), ParseError>
    requires nested { depth < MOST_NESTING }
    requires held { locals < MOST_LOCALS }
    ensures gives { ReaderGives result (λ s vs. scan true end tokens.now 0
        (AName ∷ AName ∷ BlockPart (suc depth) (suc locals) ∷ AWord word.Destruct ∷ AName
        ∷ Build (MakeConstruct at) ∷ s) vs)
        (λ x s vs. scan true end x.1.now 0 s (AStatement (statement_of x.0) ∷ vs)) }
    ensures shorter { IfOk result (λ x. length x.1.now < length tokens.now) }
{
    let (class, rest) = name(alloc, end, tokens)?;
    let (object, rest) = name(alloc, end, rest)?;
    let (body, rest) = block(alloc, end, rest, depth + 1, locals + 1)?;
    let rest = word(end, rest, Keyword::Destruct)?;
    let (last, rest) = name(alloc, end, rest)?;
    let stmt = Stmt::Construct {
        at,
        class,
        name: object,
        body,
        end: last,
    };
    Ok((stmt, rest))
}

/// Reads the block in the scope of a local and the local's end, after this many nodes.
#[cycle(statement)]
#[tactic(auto, using(crate::proofs::MoveSets::statement_moves))]
fn scope<'a>(
    alloc: Global,
    end: u32,
    tokens: &'a [Token],
    nodes: u32,
    depth: u32,
    locals: u32,
) -> Result<(Block, Var, Expr, u32, &'a [Token]), ParseError>
    requires nested { depth < MOST_NESTING }
    requires held { locals < MOST_LOCALS }
    ensures gives { ReaderGives result (λ s vs. scan true end tokens.now nodes (Scope depth locals ∷ s)
        vs) (λ x s vs. scan true end x.4.now x.3 s
        (AnExpr (expression_of x.2) ∷ AVar x.1 ∷ ABlock (block_of x.0) ∷ vs)) }
    ensures shorter { IfOk result (λ x. length x.4.now < length tokens.now) }
{
    let (body, rest) = block(alloc, end, tokens, depth + 1, locals + 1)?;
    let rest = word(end, rest, Keyword::Delocal)?;
    let (end_var, rest) = variable(alloc, end, rest)?;
    let rest = sign(end, rest, Symbol::Equal)?;
    let (end_value, nodes, rest) = binary(alloc, end, rest, nodes, 0, 0, 9)?;
    Ok((body, end_var, end_value, nodes, rest))
}

/// Reads a local for a block, after its `local`.
#[cycle(statement)]
#[tactic(auto, using(crate::proofs::MoveSets::statement_moves))]
fn local<'a>(
    alloc: Global,
    end: u32,
    tokens: &'a [Token],
    at: u32,
    depth: u32,
    locals: u32,
) -> Result<(Stmt, &'a [Token]), ParseError>
    requires nested { depth < MOST_NESTING }
    requires held { locals < MOST_LOCALS }
    ensures gives { ReaderGives result (λ s vs. scan true end tokens.now 0
        (Kind ∷ var_parts (ASign sign.Equal ∷ Level 9 0 0 ∷ Scope depth locals
        ∷ Build (MakeLocal at) ∷ Count 0 ∷ s)) vs)
        (λ x s vs. scan true end x.1.now 0 s (AStatement (statement_of x.0) ∷ vs)) }
    ensures shorter { IfOk result (λ x. length x.1.now < length tokens.now) }
{
    let (var, rest) = variable(alloc, end, tokens)?;
    let rest = sign(end, rest, Symbol::Equal)?;
    let (value, nodes, rest) = binary(alloc, end, rest, 0, 0, 0, 9)?;
    let (body, end_var, end_value, _, rest) = scope(alloc, end, rest, nodes, depth, locals)?;
    let stmt = Stmt::Local {
        at,
        var,
        value,
        body,
        end_var,
        end_value,
    };
    Ok((stmt, rest))
}

/// Reads a block with this many statements and locals around it.
#[cycle(statement)]
#[tactic(auto, using(crate::proofs::MoveSets::statement_moves))]
pub fn block<'a>(
    alloc: Global,
    end: u32,
    tokens: &'a [Token],
    depth: u32,
    locals: u32,
) -> Result<(Block, &'a [Token]), ParseError>
    ensures gives { (n : ℕ) → ReaderGives result
        (λ s vs. scan true end tokens.now n (BlockPart depth locals ∷ s) vs)
        (λ x s vs. scan true end x.1.now 0 s (ABlock (block_of x.0) ∷ vs)) }
    ensures shorter { IfOk result (λ x. length x.1.now < length tokens.now) }
{
    let mut list = Vec::new(alloc);
    let (first, mut rest) = single(alloc, end, tokens, depth, locals)?;
    list.push(first)?;
    'statements: while starts_here(rest) {
        let (stmt, after) = single(alloc, end, rest, depth, locals)?;
        list.push(stmt)?;
        rest = after;
    }
    Ok((Block { list }, rest))
}
