// The code of expressions, updates and swaps, by what it does.
ghost use Rattle.std.specs.Prelude.{◌≡◌, ◌≤◌, ◌+◌, ◌*◌, [], ◌++◌, length, IfOk};
ghost use Rattle.register_expressions.specs.rpp_tree.Tree.{nodes, index_nodes};
ghost use Rattle.register_expressions.specs.rpp_tree.Views.{expression_of, lvalue_of};
ghost use Rattle.register_expressions.specs.roopl_semantics.Elements.{elements, index_elements, own_element, read_cost};
ghost use Rattle.register_expressions.specs.Code.{Target, words as words_of};
ghost use Rattle.expr_uncompute.specs.Code.{place_words as words_of_place};
ghost use Rattle.expr_uncompute.specs.Promises.{ExpressionLaw, ConditionLaw, UpdateLaw, SwapLaw};
ghost use Rattle.expr_uncompute.specs.Sizes.{swap_size};
ghost use Rattle.register_expressions.specs.Steps.{token_count};
ghost use Rattle.expr_uncompute.specs.Steps.{value_steps, test_steps, update_steps, swap_steps, place_tokens};
ghost use Rattle.register_expressions.specs.code_scope.Visible.{spot_of, free_words_of, known_in};

use crate::places::{swap_piece, update_piece};
use crate::values::{test_piece, value_piece};
use register_expressions::memory::EXPRESSION_WORDS;
use register_expressions::tree::{Place, UpdateOp};
use register_expressions::{Expr, NoMemory, Piece, Scope};
use std::alloc::Global;

/// The value of an expression xored into the register `into`, in both directions, or a stop with
/// the fault that its evaluation meets first. Fault 5 means that an array is nil, and 9 that an
/// index, as an unsigned word, is not below the length. No other register differs then, and no
/// cell. Each subexpression is computed once, into a register or into its word of the frame after
/// the variables, and uncomputed, as Axelsen does for values of reversible programs. Registers 5 to
/// 10 and 16 to 24 are 0 before and after. The only error is that memory ran out.
pub fn value_code(alloc: Global, e: &Expr, scope: &Scope, into: u8) -> Result<Piece, NoMemory>
    requires register { Target into }
    requires room { words_of (expression_of e.now) ≤ EXPRESSION_WORDS }
    ensures law { IfOk result (λ p.
        ExpressionLaw (spot_of (known_in scope.now)) (free_words_of (known_in scope.now)) into
        (expression_of e.now) p.cells) }
    ensures marks { IfOk result (λ p. p.marks ≡ []) }
    ensures steps { value_steps (expression_of e.now) ≤ 162 * nodes (expression_of e.now) }
    ensures size { IfOk result (λ p. length p.cells ≤ 58 * token_count (expression_of e.now)) }
{
    let names = scope.names();
    value_piece(alloc, e, &names, into)
}

/// Whether an expression is true, 1 or 0, xored into the register `into`: else as `value_code`.
pub fn test_code(alloc: Global, e: &Expr, scope: &Scope, into: u8) -> Result<Piece, NoMemory>
    requires register { Target into }
    requires room { words_of (expression_of e.now) ≤ EXPRESSION_WORDS }
    ensures law { IfOk result (λ p.
        ConditionLaw (spot_of (known_in scope.now)) (free_words_of (known_in scope.now)) into
        (expression_of e.now) p.cells) }
    ensures marks { IfOk result (λ p. p.marks ≡ []) }
    ensures steps { test_steps (expression_of e.now) ≤ 162 * nodes (expression_of e.now) }
    ensures size { IfOk result (λ p. length p.cells ≤ 58 * token_count (expression_of e.now)) }
{
    let names = scope.names();
    test_piece(alloc, e, &names, into)
}

/// An update of a place by a value; backward it is undone. The fault of the place comes before that
/// of the value. Then, if the place is an element, its array is compared with that of each
/// element that is read, in both directions before the write: fault 16 if they are one. The word
/// of the place may differ then, and nothing else.
pub fn update_code(
    alloc: Global,
    op: UpdateOp,
    place: &Place,
    value: &Expr,
    scope: &Scope,
) -> Result<Piece, NoMemory>
    requires room { words_of_place (lvalue_of place.now) + words_of (expression_of value.now) ≤
        EXPRESSION_WORDS }
    ensures law { IfOk result (λ p.
        UpdateLaw (spot_of (known_in scope.now)) (free_words_of (known_in scope.now)) op
        (lvalue_of place.now) (expression_of value.now) p.cells) }
    ensures marks { IfOk result (λ p. p.marks ≡ []) }
    ensures steps { update_steps (lvalue_of place.now) (expression_of value.now) ≤ 162 *
        (1 + index_nodes (lvalue_of place.now) + nodes (expression_of value.now) + read_cost
        (own_element (lvalue_of place.now))
        (index_elements (lvalue_of place.now) ++ elements (expression_of value.now))) }
    ensures size { IfOk result (λ p.
        length p.cells ≤ 80 * (place_tokens (lvalue_of place.now) + 1 + token_count
        (expression_of value.now))) }
{
    let names = scope.names();
    update_piece(alloc, op, place, value, &names)
}

/// The words of two places swapped, in both directions; if the two are one place, it stays. The
/// fault of the left place comes first, and then, as in an update, fault 16 for either place.
pub fn swap_code(
    alloc: Global,
    left: &Place,
    right: &Place,
    scope: &Scope,
) -> Result<Piece, NoMemory>
    requires room { words_of_place (lvalue_of left.now) + words_of_place (lvalue_of right.now) ≤
        EXPRESSION_WORDS }
    ensures law { IfOk result (λ p.
        SwapLaw (spot_of (known_in scope.now)) (free_words_of (known_in scope.now)) (lvalue_of left.now)
        (lvalue_of right.now) p.cells) }
    ensures marks { IfOk result (λ p. p.marks ≡ []) }
    ensures steps { swap_steps (lvalue_of left.now) (lvalue_of right.now) ≤ 304 *
        (1 + index_nodes (lvalue_of left.now) + index_nodes (lvalue_of right.now) + read_cost
        (own_element (lvalue_of left.now) ++ own_element (lvalue_of right.now))
        (index_elements (lvalue_of left.now) ++ index_elements (lvalue_of right.now))) }
    ensures size { IfOk result (λ p.
        length p.cells ≤ swap_size (lvalue_of left.now) (lvalue_of right.now)) }
{
    let names = scope.names();
    swap_piece(alloc, left, right, &names)
}
