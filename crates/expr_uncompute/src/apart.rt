// The check that a place that changes is an element of no array of which an element is read.
ghost use Rattle.std.specs.Prelude.{◌≡◌, ◌<◌, ◌^◌, IfOk};
ghost use Rattle.register_expressions.specs.rpp_tree.Tree.{Null};
ghost use Rattle.register_expressions.specs.rpp_tree.Views.{expression_of, lvalue_of};
ghost use Rattle.register_expressions.specs.paired_code.Code.{unmarked};
ghost use Rattle.expr_uncompute.specs.Code.{compare_cells, compare_all as cells_of_all, apart_cells, both_apart_cells};
ghost use Rattle.register_expressions.specs.code_scope.Visible.{offset_of, spot_of as spot_of_name, known_by};
ghost use Rattle.register_expressions.specs.Number.{lvalue_read, index_of};

use register_expressions::cells::enclosed;
use register_expressions::faults::SHARED_ARRAY;
use register_expressions::registers::{CONTENT, LEFT};
use register_expressions::rows::{copy, reached};
use register_expressions::tree::Place;
use register_expressions::{Expr, Names, NoMemory, Piece, Spot, check_differ, empty, seq, spot_of};
use std::alloc::Global;

// Fault 16 if the words of two storage slots are the same.
fn compare(alloc: Global, x: Spot, y: Spot) -> Result<Piece, NoMemory>
    requires first { offset_of x < 2 ^ 32 }
    requires second { offset_of y < 2 ^ 32 }
    ensures { IfOk result (λ p. p ≡ unmarked (compare_cells x y)) }
{
    let array = copy(alloc, x, LEFT)?;
    let other = reached(alloc, y)?;
    let both = seq(array, other)?;
    let check = check_differ(alloc, LEFT, CONTENT, SHARED_ARRAY)?;
    enclosed(alloc, both, check)
}

// A changed element's array compared with that of each element that an expression reads.
#[cycle(compared)]
fn compare_all(alloc: Global, names: &Names, changed: Spot, e: &Expr) -> Result<Piece, NoMemory>
    requires { offset_of changed < 2 ^ 32 }
    ensures { IfOk result (λ p.
        p ≡ unmarked (cells_of_all (spot_of_name (known_by names.now)) changed
        (expression_of e.now))) }
{
    match e {
        Expr::Number { .. } => Ok(empty(alloc)),
        Expr::Nil { .. } => Ok(empty(alloc)),
        Expr::Read(place) => compare_read(alloc, names, changed, place),
        Expr::Binary { left, right, .. } => {
            let first = compare_all(alloc, names, changed, left)?;
            let second = compare_all(alloc, names, changed, right)?;
            seq(first, second)
        }
    }
}

#[cycle(compared)]
fn compare_read(
    alloc: Global,
    names: &Names,
    changed: Spot,
    place: &Place,
) -> Result<Piece, NoMemory>
    requires { offset_of changed < 2 ^ 32 }
    ensures { IfOk result (λ p.
        p ≡ unmarked (cells_of_all (spot_of_name (known_by names.now)) changed
        (lvalue_read (lvalue_of place.now)))) }
{
    match &place.index {
        None => Ok(empty(alloc)),
        Some(index) => {
            let first = compare(alloc, changed, spot_of(names, &place.name.text))?;
            let rest = compare_all(alloc, names, changed, index)?;
            seq(first, rest)
        }
    }
}

// The same of the elements in the index of a place.
fn compare_index(
    alloc: Global,
    names: &Names,
    changed: Spot,
    place: &Place,
) -> Result<Piece, NoMemory>
    requires { offset_of changed < 2 ^ 32 }
    ensures { IfOk result (λ p.
        p ≡ unmarked (cells_of_all (spot_of_name (known_by names.now)) changed
        (index_of (lvalue_of place.now)))) }
{
    match &place.index {
        None => Ok(empty(alloc)),
        Some(index) => compare_all(alloc, names, changed, index),
    }
}

/// The check of an update: the place against its index and the value.
pub fn apart(alloc: Global, names: &Names, place: &Place, value: &Expr) -> Result<Piece, NoMemory>
    ensures { IfOk result (λ p.
        p ≡ unmarked (apart_cells (spot_of_name (known_by names.now)) (lvalue_of place.now)
        (index_of (lvalue_of place.now)) (expression_of value.now))) }
{
    match &place.index {
        None => Ok(empty(alloc)),
        Some(index) => {
            let changed = spot_of(names, &place.name.text);
            let first = compare_all(alloc, names, changed, index)?;
            let second = compare_all(alloc, names, changed, value)?;
            seq(first, second)
        }
    }
}

/// The check of an lvalue only: against its index.
pub fn own_apart(alloc: Global, names: &Names, place: &Place) -> Result<Piece, NoMemory>
    ensures { IfOk result (λ p.
        p ≡ unmarked (apart_cells (spot_of_name (known_by names.now)) (lvalue_of place.now)
        (index_of (lvalue_of place.now)) (Null 0))) }
{
    match &place.index {
        None => Ok(empty(alloc)),
        Some(index) => {
            let first = compare_all(alloc, names, spot_of(names, &place.name.text), index)?;
            seq(first, empty(alloc))
        }
    }
}

/// The check of a place that changes against two indexes.
pub fn apart_from(
    alloc: Global,
    names: &Names,
    changed: &Place,
    left: &Place,
    right: &Place,
) -> Result<Piece, NoMemory>
    ensures { IfOk result (λ p.
        p ≡ unmarked (apart_cells (spot_of_name (known_by names.now)) (lvalue_of changed.now)
        (index_of (lvalue_of left.now)) (index_of (lvalue_of right.now)))) }
{
    match &changed.index {
        None => Ok(empty(alloc)),
        Some(_) => {
            let spot = spot_of(names, &changed.name.text);
            let first = compare_index(alloc, names, spot, left)?;
            let second = compare_index(alloc, names, spot, right)?;
            seq(first, second)
        }
    }
}

/// The check of a swap: each of the places against both indexes.
pub fn both_apart(
    alloc: Global,
    names: &Names,
    left: &Place,
    right: &Place,
) -> Result<Piece, NoMemory>
    ensures { IfOk result (λ p.
        p ≡ unmarked (both_apart_cells (spot_of_name (known_by names.now)) (lvalue_of left.now)
        (lvalue_of right.now))) }
{
    let first = apart_from(alloc, names, left, left, right)?;
    let second = apart_from(alloc, names, right, left, right)?;
    seq(first, second)
}
