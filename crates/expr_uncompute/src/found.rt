// Lvalues and values found: what is in the registers while a statement changes an lvalue.
ghost use Rattle.std.specs.Prelude.{◌≡◌, ◌<◌, ◌≤◌, ◌+◌, ◌^◌, [], ◌∷◌, ◌++◌, IfOk};
ghost use Rattle.register_expressions.specs.rpp_tree.Views.{expression_of, lvalue_of};
ghost use Rattle.register_expressions.specs.paired_code.Code.{unmarked};
ghost use Rattle.register_expressions.specs.Code.{xor as xor_cell, addi as addi_cell, base_of, words as words_of};
ghost use Rattle.expr_uncompute.specs.Code.{place_words as words_of_place, fetch_cells, place_cells, found_place_cells, found_value_cells, found_places_cells};
ghost use Rattle.register_expressions.specs.code_scope.Visible.{offset_of, spot_of as spot_of_name, free_words_of, known_by};

use crate::apart::{apart, apart_from, own_apart};
use crate::values::{checked, open, parts, place_words, prepare, result_register};
use register_expressions::cells::{addi, enclosed, xor};
use register_expressions::memory::EXPRESSION_WORDS;
use register_expressions::registers::{AMOUNT, FRAME, OTHER_PLACE, PLACE, RIGHT};
use register_expressions::rows::{base, offset, point};
use register_expressions::tree::Place;
use register_expressions::{Expr, Names, NoMemory, Piece, Spot, seq, spot_of};
use std::alloc::Global;

fn spot_address(alloc: Global, spot: Spot, into: u8) -> Result<Piece, NoMemory>
    requires small { offset_of spot < 2 ^ 32 }
    requires low { FRAME < into }
    requires register { into < 32 }
    ensures { IfOk result (λ p.
        p ≡ unmarked (xor_cell into (base_of spot) ∷ addi_cell into (offset_of spot) ∷ [])) }
{
    let from = base(spot);
    let first = xor(alloc, into, from)?;
    let second = addi(alloc, into, offset(spot))?;
    seq(first, second)
}

/// The address of a place in a register.
pub fn place_code(
    alloc: Global,
    names: &Names,
    place: &Place,
    i: u32,
    into: u8,
) -> Result<Piece, NoMemory>
    requires low { AMOUNT < into }
    requires register { into < 32 }
    requires room { i + words_of_place (lvalue_of place.now) ≤ EXPRESSION_WORDS }
    ensures { IfOk result (λ p.
        p ≡ unmarked (place_cells (spot_of_name (known_by names.now)) (free_words_of (known_by names.now))
        (lvalue_of place.now) i into)) }
{
    match &place.index {
        None => spot_address(alloc, spot_of(names, &place.name.text), into),
        Some(index) => {
            let front = prepare(alloc, names, index, i)?;
            let found = checked(alloc, names, &place.name.text, index, i)?;
            let address = point(alloc)?;
            let opened = seq(found, address)?;
            let last = xor(alloc, into, RIGHT)?;
            let rest = enclosed(alloc, opened, last)?;
            seq(front, rest)
        }
    }
}

/// The value of an expression kept in a register.
pub fn fetch_code(alloc: Global, names: &Names, e: &Expr, i: u32) -> Result<Piece, NoMemory>
    requires { i + words_of (expression_of e.now) ≤ EXPRESSION_WORDS }
    ensures { IfOk result (λ p.
        p ≡ unmarked (fetch_cells (spot_of_name (known_by names.now)) (free_words_of (known_by names.now))
        (expression_of e.now) i AMOUNT)) }
{
    let front = parts(alloc, names, e, i)?;
    let opened = open(alloc, names, e, i)?;
    let last = xor(alloc, AMOUNT, result_register(e))?;
    let rest = enclosed(alloc, opened, last)?;
    seq(front, rest)
}

/// A place found, and the check that it is an element of no array that its index reads.
pub fn found_place(alloc: Global, place: &Place, names: &Names) -> Result<Piece, NoMemory>
    requires room { words_of_place (lvalue_of place.now) ≤ EXPRESSION_WORDS }
    ensures { IfOk result (λ p.
        p ≡ unmarked (found_place_cells (spot_of_name (known_by names.now))
        (free_words_of (known_by names.now)) (lvalue_of place.now))) }
{
    let found = place_code(alloc, names, place, 0, PLACE)?;
    let check = own_apart(alloc, names, place)?;
    seq(found, check)
}

/// A place and a value, and the same check against the value too.
pub fn found_value(
    alloc: Global,
    place: &Place,
    value: &Expr,
    names: &Names,
) -> Result<Piece, NoMemory>
    requires room { words_of_place (lvalue_of place.now) + words_of (expression_of value.now) ≤
        EXPRESSION_WORDS }
    ensures { IfOk result (λ p.
        p ≡ unmarked (found_value_cells (spot_of_name (known_by names.now))
        (free_words_of (known_by names.now)) (lvalue_of place.now) (expression_of value.now))) }
{
    let found = place_code(alloc, names, place, 0, PLACE)?;
    let fetched = fetch_code(alloc, names, value, place_words(place))?;
    let both = seq(found, fetched)?;
    let check = apart(alloc, names, place, value)?;
    seq(both, check)
}

/// Code that finds the addresses of two places.
pub fn both_places(
    alloc: Global,
    left: &Place,
    right: &Place,
    names: &Names,
) -> Result<Piece, NoMemory>
    requires room { words_of_place (lvalue_of left.now) + words_of_place (lvalue_of right.now) ≤
        EXPRESSION_WORDS }
    ensures { IfOk result (λ p.
        p ≡ unmarked (place_cells (spot_of_name (known_by names.now))
        (free_words_of (known_by names.now)) (lvalue_of left.now) 0 PLACE ++ place_cells
        (spot_of_name (known_by names.now)) (free_words_of (known_by names.now)) (lvalue_of right.now)
        (words_of_place (lvalue_of left.now)) OTHER_PLACE)) }
{
    let first = place_code(alloc, names, left, 0, PLACE)?;
    let second = place_code(alloc, names, right, place_words(left), OTHER_PLACE)?;
    seq(first, second)
}

/// Two places, and the check of the second against both indexes.
pub fn found_places(
    alloc: Global,
    source: &Place,
    target: &Place,
    names: &Names,
) -> Result<Piece, NoMemory>
    requires room { words_of_place (lvalue_of source.now) + words_of_place (lvalue_of target.now) ≤
        EXPRESSION_WORDS }
    ensures { IfOk result (λ p.
        p ≡ unmarked (found_places_cells (spot_of_name (known_by names.now))
        (free_words_of (known_by names.now)) (lvalue_of source.now) (lvalue_of target.now))) }
{
    let places = both_places(alloc, source, target, names)?;
    let check = apart_from(alloc, names, target, source, target)?;
    seq(places, check)
}
