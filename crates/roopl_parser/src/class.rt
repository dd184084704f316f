// Classes.
ghost use Rattle.std.specs.Prelude.{◌≡◌, ◌≤◌, ◌<◌, ◌∷◌, ◌++◌, [], ℕ, true, length, List, IfOk, map};
ghost use Rattle.roopl_lexer.specs.rpp_tree.declared.tree.Var.{Var};
ghost use Rattle.roopl_lexer.specs.rpp_tree.Tree.{Procedure, ClassText};
ghost use Rattle.roopl_lexer.specs.rpp_tree.Views.{procedure_of, class_text_of};
ghost use Rattle.roopl_lexer.specs.declared.token.Keyword.TheVariants as word;
ghost use Rattle.roopl_parser.specs.Reader.{ReaderGives, scan, AWord, Parent, Fields, Procedures, Program, AParent, Vars, Methods, Classes, class_parts, method_parts};

use crate::error::ParseError;
use crate::kinds::variable;
use crate::params::params;
use crate::single::{name, place_of, sign, type_here, word, word_here};
use crate::statement::block;
use roopl_lexer::limits::{LimitKind, MOST_CLASSES};
use roopl_lexer::tree::{Class, Ident, Method, Var};
use roopl_lexer::{Keyword, Symbol, Token};
use std::alloc::Global;

/// Reads a parent, or nothing.
#[tactic(auto, using(crate::proofs::MoveSets::class_moves))]
fn parent<'a>(
    alloc: Global,
    end: u32,
    tokens: &'a [Token],
) -> Result<(Option<Ident>, &'a [Token]), ParseError>
    ensures gives { ReaderGives result (λ s vs. scan true end tokens.now 0 (Parent ∷ s) vs)
        (λ x s vs. scan true end x.1.now 0 s (AParent x.0 ∷ vs)) }
    ensures shorter { IfOk result (λ x. length x.1.now ≤ length tokens.now) }
{
    if word_here(tokens, Keyword::Inherits) {
        let rest = word(end, tokens, Keyword::Inherits)?;
        let (parent, rest) = name(alloc, end, rest)?;
        Ok((Some(parent), rest))
    } else {
        Ok((None, tokens))
    }
}

/// Reads the fields.
#[tactic(auto, using(crate::proofs::MoveSets::class_moves))]
fn fields<'a>(
    alloc: Global,
    end: u32,
    tokens: &'a [Token],
) -> Result<(Vec<Var>, &'a [Token]), ParseError>
    ensures gives { ReaderGives result (λ s vs. scan true end tokens.now 0 (Fields ∷ s) (Vars [] ∷ vs))
        (λ x s vs. scan true end x.1.now 0 s (Vars x.0.items ∷ vs)) }
    ensures shorter { IfOk result (λ x. length x.1.now ≤ length tokens.now) }
{
    let mut fields = Vec::new(alloc);
    let mut rest = tokens;
    'fields: while type_here(rest) {
        let (field, after) = variable(alloc, end, rest)?;
        fields.push(field)?;
        rest = after;
    }
    Ok((fields, rest))
}

/// Reads a method.
#[tactic(auto, using(crate::proofs::MoveSets::class_moves))]
fn method<'a>(
    alloc: Global,
    end: u32,
    tokens: &'a [Token],
) -> Result<(Method, &'a [Token]), ParseError>
    ensures gives { (xs : List Procedure)
        → ReaderGives result (λ s vs. scan true end tokens.now 0 (AWord word.Method ∷ method_parts s)
        (Methods xs ∷ vs)) (λ x s vs. scan true end x.1.now 0 s
        (Methods (xs ++ procedure_of x.0 ∷ []) ∷ vs)) }
    ensures shorter { IfOk result (λ x. length x.1.now < length tokens.now) }
{
    let rest = word(end, tokens, Keyword::Method)?;
    let (name, rest) = name(alloc, end, rest)?;
    let rest = sign(end, rest, Symbol::LeftParen)?;
    let (params, rest) = params(alloc, end, rest)?;
    let (body, rest) = block(alloc, end, rest, 0, 0)?;
    Ok((Method { name, params, body }, rest))
}

/// Reads the methods.
#[tactic(auto, using(crate::proofs::MoveSets::class_moves))]
fn methods<'a>(
    alloc: Global,
    end: u32,
    tokens: &'a [Token],
) -> Result<(Vec<Method>, &'a [Token]), ParseError>
    ensures gives { ReaderGives result (λ s vs. scan true end tokens.now 0 (Procedures ∷ s)
        (Methods [] ∷ vs)) (λ x s vs. scan true end x.1.now 0 s
        (Methods (map procedure_of x.0.items) ∷ vs)) }
    ensures shorter { IfOk result (λ x. length x.1.now ≤ length tokens.now) }
{
    let mut methods = Vec::new(alloc);
    let mut rest = tokens;
    'methods: while word_here(rest, Keyword::Method) {
        let (found, after) = method(alloc, end, rest)?;
        methods.push(found)?;
        rest = after;
    }
    Ok((methods, rest))
}

/// Reads a class.
#[tactic(auto, using(crate::proofs::MoveSets::class_moves))]
fn class<'a>(
    alloc: Global,
    end: u32,
    tokens: &'a [Token],
) -> Result<(Class, &'a [Token]), ParseError>
    ensures gives { (xs : List ClassText)
        → ReaderGives result (λ s vs. scan true end tokens.now 0 (AWord word.Class ∷ class_parts s)
        (Classes xs ∷ vs)) (λ x s vs. scan true end x.1.now 0 s
        (Classes (xs ++ class_text_of x.0 ∷ []) ∷ vs)) }
    ensures shorter { IfOk result (λ x. length x.1.now < length tokens.now) }
{
    let rest = word(end, tokens, Keyword::Class)?;
    let (name, rest) = name(alloc, end, rest)?;
    let (parent, rest) = parent(alloc, end, rest)?;
    let (fields, rest) = fields(alloc, end, rest)?;
    let (methods, rest) = methods(alloc, end, rest)?;
    let class = Class {
        name,
        parent,
        fields,
        methods,
    };
    Ok((class, rest))
}

/// Reads class after class, to the end of the tokens.
#[tactic(auto, using(crate::proofs::MoveSets::class_moves))]
pub fn classes<'a>(
    alloc: Global,
    end: u32,
    tokens: &'a [Token],
) -> Result<(Vec<Class>, &'a [Token]), ParseError>
    ensures gives { ReaderGives result (λ s vs. scan true end tokens.now 0 (Program 0 ∷ s)
        (Classes [] ∷ vs)) (λ x s vs. scan true end x.1.now 0 s
        (Classes (map class_text_of x.0.items) ∷ vs)) }
{
    let mut classes = Vec::new(alloc);
    let mut rest = tokens;
    'classes: while word_here(rest, Keyword::Class) {
        if classes.len() >= MOST_CLASSES as usize {
            return Err(ParseError::Limit {
                which: LimitKind::Classes,
                at: place_of(end, rest),
            });
        }
        let (found, after) = class(alloc, end, rest)?;
        classes.push(found)?;
        rest = after;
    }
    Ok((classes, rest))
}
