// Places and values found around any middle, by what it does.
ghost use Rattle.std.specs.Prelude.{◌≡◌, ◌≤◌, ◌+◌, ◌*◌, [], ◌++◌, length, IfOk};
ghost use Rattle.register_expressions.specs.rpp_tree.Tree.{nodes, index_nodes};
ghost use Rattle.register_expressions.specs.rpp_tree.Views.{expression_of, lvalue_of};
ghost use Rattle.register_expressions.specs.roopl_semantics.Elements.{elements, index_elements, own_element, read_cost};
ghost use Rattle.register_expressions.specs.Code.{words as words_of};
ghost use Rattle.expr_uncompute.specs.Code.{place_words as words_of_place};
ghost use Rattle.expr_uncompute.specs.Found.{PlaceAroundLaw, ValueAroundLaw, PlacesAroundLaw, found_place_steps, found_value_steps, found_places_steps};
ghost use Rattle.register_expressions.specs.Steps.{token_count};
ghost use Rattle.expr_uncompute.specs.Steps.{place_tokens};
ghost use Rattle.register_expressions.specs.code_scope.Visible.{spot_of, free_words_of, known_in};

use crate::middles::{around_place, around_places, around_value};
use register_expressions::memory::EXPRESSION_WORDS;
use register_expressions::tree::Place;
use register_expressions::{Expr, NoMemory, Piece, Scope};
use std::alloc::Global;

/// A middle that changes a place, in both directions: before it the address of the place goes into
/// `PLACE`, and after it the register is 0 again. The fault of the place comes first; then, if
/// the place is an element, its array is compared with that of each element that its index reads:
/// fault 16 if they are one. The middle may use words in the frame after the variables, and
/// leaves them as they are. The only error is that memory ran out.
pub fn place_around(
    alloc: Global,
    place: &Place,
    scope: &Scope,
    middle: Piece,
) -> Result<Piece, NoMemory>
    requires room { words_of_place (lvalue_of place.now) ≤ EXPRESSION_WORDS }
    requires marks { middle.marks ≡ [] }
    ensures law { IfOk result (λ p.
        PlaceAroundLaw (spot_of (known_in scope.now)) (free_words_of (known_in scope.now))
        (lvalue_of place.now) middle.cells p.cells) }
    ensures marks { IfOk result (λ p. p.marks ≡ []) }
    ensures steps { 2 * found_place_steps (lvalue_of place.now) ≤ 162 *
        (1 + index_nodes (lvalue_of place.now) + read_cost (own_element (lvalue_of place.now))
        (index_elements (lvalue_of place.now))) }
    ensures size { IfOk result (λ p.
        length p.cells ≤ length middle.cells + 80 * (1 + place_tokens (lvalue_of place.now))) }
{
    let names = scope.names();
    around_place(alloc, place, &names, middle)
}

/// The same with a value in `AMOUNT`: its fault comes after that of the place, and the elements that
/// it reads are compared too.
pub fn place_and_value_around(
    alloc: Global,
    place: &Place,
    value: &Expr,
    scope: &Scope,
    middle: Piece,
) -> Result<Piece, NoMemory>
    requires room { words_of_place (lvalue_of place.now) + words_of (expression_of value.now) ≤
        EXPRESSION_WORDS }
    requires marks { middle.marks ≡ [] }
    ensures law { IfOk result (λ p.
        ValueAroundLaw (spot_of (known_in scope.now)) (free_words_of (known_in scope.now))
        (lvalue_of place.now) (expression_of value.now) middle.cells p.cells) }
    ensures marks { IfOk result (λ p. p.marks ≡ []) }
    ensures steps { 2 * found_value_steps (lvalue_of place.now) (expression_of value.now) ≤ 162 *
        (1 + index_nodes (lvalue_of place.now) + nodes (expression_of value.now) + read_cost
        (own_element (lvalue_of place.now))
        (index_elements (lvalue_of place.now) ++ elements (expression_of value.now))) }
    ensures size { IfOk result (λ p.
        length p.cells ≤ length middle.cells + 80 *
        (place_tokens (lvalue_of place.now) + token_count (expression_of value.now))) }
{
    let names = scope.names();
    around_value(alloc, place, value, &names, middle)
}

/// A middle that reads one place and changes a second one: the address of the first is in `PLACE`,
/// that of the second in `OTHER_PLACE`. Their faults come in this order, and then fault 16 if
/// the second is an element of an array of which one of the two indexes reads an element.
pub fn places_around(
    alloc: Global,
    source: &Place,
    target: &Place,
    scope: &Scope,
    middle: Piece,
) -> Result<Piece, NoMemory>
    requires room { words_of_place (lvalue_of source.now) + words_of_place (lvalue_of target.now) ≤
        EXPRESSION_WORDS }
    requires marks { middle.marks ≡ [] }
    ensures law { IfOk result (λ p.
        PlacesAroundLaw (spot_of (known_in scope.now)) (free_words_of (known_in scope.now))
        (lvalue_of source.now) (lvalue_of target.now) middle.cells p.cells) }
    ensures marks { IfOk result (λ p. p.marks ≡ []) }
    ensures steps { 2 * found_places_steps (lvalue_of source.now) (lvalue_of target.now) ≤ 304 *
        (1 + index_nodes (lvalue_of source.now) + index_nodes (lvalue_of target.now) + read_cost
        (own_element (lvalue_of target.now))
        (index_elements (lvalue_of source.now) ++ index_elements (lvalue_of target.now))) }
    ensures size { IfOk result (λ p.
        length p.cells ≤ length middle.cells + 80 *
        (place_tokens (lvalue_of source.now) + place_tokens (lvalue_of target.now))) }
{
    let names = scope.names();
    around_places(alloc, source, target, &names, middle)
}
