// Conditionals and loops by their expressions, in a scope.
ghost use Rattle.std.specs.Prelude.{◌≤◌, ◌+◌, ◌*◌, length, IfOk};
ghost use Rattle.refine_expressions.specs.rpp_tree.Views.{expression_of};
ghost use Rattle.refine_expressions.specs.code_scope.Visible.{known_in};
ghost use Rattle.refine_expressions.specs.register_expressions.Code.{words as words_of};
ghost use Rattle.refine_expressions.specs.register_expressions.Steps.{token_count};
ghost use Rattle.refine_form.specs.Held.{HoldsBoth};
ghost use Rattle.branch_codegen.specs.Laws.{IfLaw, FromLaw};

use crate::branches::{conditional, repetition};
use refine_expressions::{Expr, Scope, test_code};
use refine_form::memory::EXPRESSION_WORDS;
use refine_form::registers::FLAG;
use refine_form::{NoMemory, Piece};
use std::alloc::Global;

/// The code of `if test then yes else no fi after`, over the fragments of its blocks. If the two
/// conditions do not agree, it stops with fault 1. Each condition has at most 1,000 elements and
/// operators. The only error is that memory ran out.
pub fn if_code(
    alloc: Global,
    test: &Expr,
    yes: Piece,
    no: Piece,
    after: &Expr,
    scope: &Scope,
) -> Result<Piece, NoMemory>
    requires test_room { words_of (expression_of test.now) ≤ EXPRESSION_WORDS }
    requires after_room { words_of (expression_of after.now) ≤ EXPRESSION_WORDS }
    ensures law { IfOk result (λ p.
        IfLaw (known_in scope.now) (expression_of test.now) (expression_of after.now) yes.cells
        no.cells p.cells) }
    ensures held { IfOk result (λ p. HoldsBoth no yes p) }
    ensures size { IfOk result (λ p.
        length p.cells ≤ 58 * (token_count (expression_of test.now) + token_count (expression_of after.now)) +
        length yes.cells + length no.cells + 18) }
{
    let tested = test_code(alloc, test, scope, FLAG)?;
    let ended = test_code(alloc, after, scope, FLAG)?;
    conditional(alloc, tested, yes, no, ended)
}

/// The code of `from entry do first loop again until exit`, over the fragments of its blocks. If
/// the entry does not hold at first, or holds again, it stops with fault 2. Each condition occurs
/// once in the code. The only error is that memory ran out.
pub fn from_code(
    alloc: Global,
    entry: &Expr,
    first: Piece,
    again: Piece,
    until: &Expr,
    scope: &Scope,
) -> Result<Piece, NoMemory>
    requires entry_room { words_of (expression_of entry.now) ≤ EXPRESSION_WORDS }
    requires exit_room { words_of (expression_of until.now) ≤ EXPRESSION_WORDS }
    ensures law { IfOk result (λ p.
        FromLaw (known_in scope.now) (expression_of entry.now) (expression_of until.now) first.cells
        again.cells p.cells) }
    ensures held { IfOk result (λ p. HoldsBoth again first p) }
    ensures size { IfOk result (λ p.
        length p.cells ≤ 58 *
        (token_count (expression_of entry.now) + token_count (expression_of until.now)) +
        length first.cells + length again.cells + 18) }
{
    let begins = test_code(alloc, entry, scope, FLAG)?;
    let exits = test_code(alloc, until, scope, FLAG)?;
    repetition(alloc, begins, first, again, exits)
}
