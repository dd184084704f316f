// Places and values found around any middle.
ghost use Rattle.std.specs.Prelude.{◌≡◌, ◌≤◌, ◌+◌, ◌*◌, [], length, IfOk};
ghost use Rattle.register_expressions.specs.rpp_tree.Views.{expression_of, lvalue_of};
ghost use Rattle.register_expressions.specs.paired_code.Code.{unmarked};
ghost use Rattle.register_expressions.specs.Code.{around, words as words_of};
ghost use Rattle.expr_uncompute.specs.Code.{place_words as words_of_place, found_place_cells, found_value_cells, found_places_cells};
ghost use Rattle.expr_uncompute.specs.Found.{PlaceAroundLaw, ValueAroundLaw, PlacesAroundLaw};
ghost use Rattle.register_expressions.specs.Steps.{token_count};
ghost use Rattle.expr_uncompute.specs.Steps.{place_tokens};
ghost use Rattle.register_expressions.specs.code_scope.Visible.{spot_of as spot_of_name, free_words_of, known_by};

use crate::found::{found_place, found_places, found_value};
use register_expressions::cells::enclosed;
use register_expressions::memory::EXPRESSION_WORDS;
use register_expressions::tree::Place;
use register_expressions::{Expr, Names, NoMemory, Piece};
use std::alloc::Global;

/// A place found around a middle.
pub fn around_place(
    alloc: Global,
    place: &Place,
    names: &Names,
    middle: Piece,
) -> Result<Piece, NoMemory>
    requires room { words_of_place (lvalue_of place.now) ≤ EXPRESSION_WORDS }
    requires marks { middle.marks ≡ [] }
    ensures law { IfOk result (λ p.
        PlaceAroundLaw (spot_of_name (known_by names.now)) (free_words_of (known_by names.now))
        (lvalue_of place.now) middle.cells p.cells) }
    ensures code { IfOk result (λ p.
        p ≡ unmarked (around (found_place_cells (spot_of_name (known_by names.now))
        (free_words_of (known_by names.now)) (lvalue_of place.now)) middle.cells)) }
    ensures size { IfOk result (λ p.
        length p.cells ≤ length middle.cells + 80 * (1 + place_tokens (lvalue_of place.now))) }
{
    let outer = found_place(alloc, place, names)?;
    enclosed(alloc, outer, middle)
}

/// A place and a value found around a middle.
pub fn around_value(
    alloc: Global,
    place: &Place,
    value: &Expr,
    names: &Names,
    middle: Piece,
) -> Result<Piece, NoMemory>
    requires room { words_of_place (lvalue_of place.now) + words_of (expression_of value.now) ≤ EXPRESSION_WORDS }
    requires marks { middle.marks ≡ [] }
    ensures law { IfOk result (λ p.
        ValueAroundLaw (spot_of_name (known_by names.now)) (free_words_of (known_by names.now))
        (lvalue_of place.now) (expression_of value.now) middle.cells p.cells) }
    ensures code { IfOk result (λ p.
        p ≡ unmarked (around (found_value_cells (spot_of_name (known_by names.now))
        (free_words_of (known_by names.now)) (lvalue_of place.now) (expression_of value.now)) middle.cells)) }
    ensures size { IfOk result (λ p.
        length p.cells ≤ length middle.cells + 80 *
        (place_tokens (lvalue_of place.now) + token_count (expression_of value.now))) }
{
    let outer = found_value(alloc, place, value, names)?;
    enclosed(alloc, outer, middle)
}

/// Two places found around a middle.
pub fn around_places(
    alloc: Global,
    source: &Place,
    target: &Place,
    names: &Names,
    middle: Piece,
) -> Result<Piece, NoMemory>
    requires room { words_of_place (lvalue_of source.now) + words_of_place (lvalue_of target.now) ≤
        EXPRESSION_WORDS }
    requires marks { middle.marks ≡ [] }
    ensures law { IfOk result (λ p.
        PlacesAroundLaw (spot_of_name (known_by names.now)) (free_words_of (known_by names.now))
        (lvalue_of source.now) (lvalue_of target.now) middle.cells p.cells) }
    ensures code { IfOk result (λ p.
        p ≡ unmarked (around (found_places_cells (spot_of_name (known_by names.now))
        (free_words_of (known_by names.now)) (lvalue_of source.now) (lvalue_of target.now)) middle.cells)) }
    ensures size { IfOk result (λ p.
        length p.cells ≤ length middle.cells + 80 *
        (place_tokens (lvalue_of source.now) + place_tokens (lvalue_of target.now))) }
{
    let outer = found_places(alloc, source, target, names)?;
    enclosed(alloc, outer, middle)
}
