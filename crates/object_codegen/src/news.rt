// The code of objects and arrays that are made and deleted.
ghost use Rattle.std.specs.Prelude.{◌≡◌, ◌≢◌, ◌<◌, ◌≤◌, ◌+◌, ◌^◌, false, [], ◌∷◌, ◌++◌, IfOk};
ghost use Rattle.refine_heap.specs.paired_code.Code.{unmarked};
ghost use Rattle.refine_heap.specs.paired_code.Layout.{mirror_cells, loop_cells};
ghost use Rattle.expr_uncompute.specs.register_expressions.Code.{around, xor as xor_cell};
ghost use Rattle.object_codegen.specs.Code.{mark_cell, mark_fault as fault_of_mark, grow_cell, some_reference as some_reference_cells, same_mark as same_mark_cells, single as single_cells, walk_head as head_cells, walk_tail as tail_cells, walk_cells, ends_cells, walked_cells, field_cells, fields_cells, zeros_cells, delete_checks as delete_checks_cells, positive as positive_cells, new_checks as new_checks_cells, move_cells, fill_cells, new_alter, new_mid};

use crate::cells::{add, addi, enclosed, exch, sltx, xor, xori};
use crate::guards::{REFERENCE, load, nil_place};
use crate::shape::Shape;
use expr_uncompute::{Piece, check_equal, check_positive, empty, enter, mirror, seq, turn_while};
use static_layout::NoMemory;
use static_layout::faults::{
    CLASS_DIFFERS, COUNT, LENGTH, LENGTH_DIFFERS, NIL, NOT_EMPTY, NOT_NIL,
};
use static_layout::memory::{COUNT_WORD, HEADER_WORDS};
use static_layout::registers::{
    AMOUNT, AT_LENGTH, AT_PLACE, BLOCK, CONTENT, LEFT_TRUTH, NOUGHT, OUTCOME, PLACE, RIGHT_TRUTH,
};
use std::alloc::Global;

const START: u8 = LEFT_TRUTH;

const END: u8 = RIGHT_TRUTH;

/// The most fields that are tried one after the other, with no walk.
pub const FEW_FIELDS: u32 = 6;

fn mark(alloc: Global, length: u8, shape: Shape) -> Result<Piece, NoMemory>
    requires register { length < 32 }
    requires apart { CONTENT ≢ length }
    ensures { IfOk result (λ p. p ≡ unmarked (mark_cell length shape ∷ [])) }
{
    match shape {
        Shape::Fixed(table, _fields) => xori(alloc, CONTENT, table),
        Shape::Lengthy => xor(alloc, CONTENT, length),
    }
}

fn mark_fault(shape: Shape) -> u32
    ensures { result ≡ fault_of_mark shape }
{
    match shape {
        Shape::Fixed(_table, _fields) => CLASS_DIFFERS,
        Shape::Lengthy => LENGTH_DIFFERS,
    }
}

fn grow(alloc: Global, to: u8, shape: Shape) -> Result<Piece, NoMemory>
    requires register { to < 32 }
    requires apart { to ≢ AMOUNT }
    ensures { IfOk result (λ p. p ≡ unmarked (grow_cell to shape ∷ [])) }
{
    match shape {
        Shape::Fixed(_table, fields) => addi(alloc, to, fields),
        Shape::Lengthy => add(alloc, to, AMOUNT),
    }
}

fn some_reference(alloc: Global) -> Result<Piece, NoMemory>
    ensures { IfOk result (λ p. p ≡ unmarked some_reference_cells) }
{
    check_positive(alloc, REFERENCE, NIL)
}

fn same_mark(alloc: Global, shape: Shape) -> Result<Piece, NoMemory>
    ensures { IfOk result (λ p. p ≡ unmarked (same_mark_cells shape)) }
{
    let word = exch(alloc, CONTENT, REFERENCE)?;
    let compared = mark(alloc, AMOUNT, shape)?;
    let row = seq(word, compared)?;
    let check = check_equal(alloc, CONTENT, NOUGHT, mark_fault(shape))?;
    enclosed(alloc, row, check)
}

fn single(alloc: Global) -> Result<Piece, NoMemory>
    ensures { IfOk result (λ p. p ≡ unmarked single_cells) }
{
    let at = addi(alloc, REFERENCE, COUNT_WORD)?;
    let word = exch(alloc, CONTENT, REFERENCE)?;
    let compared = xori(alloc, CONTENT, 1)?;
    let row = seq(at, word)?;
    let row = seq(row, compared)?;
    let check = check_equal(alloc, CONTENT, NOUGHT, COUNT)?;
    enclosed(alloc, row, check)
}

fn walk_head(alloc: Global) -> Result<Piece, NoMemory>
    ensures { IfOk result (λ p. p ≡ unmarked head_cells) }
{
    let past = sltx(alloc, OUTCOME, START, REFERENCE)?;
    let before = sltx(alloc, OUTCOME, REFERENCE, END)?;
    seq(past, before)
}

fn walk_tail(alloc: Global) -> Result<Piece, NoMemory>
    ensures { IfOk result (λ p. p ≡ unmarked tail_cells) }
{
    let zero = nil_place(alloc, REFERENCE, NOT_EMPTY)?;
    let next = addi(alloc, REFERENCE, 1)?;
    seq(zero, next)
}

fn walk(alloc: Global) -> Result<Piece, NoMemory>
    ensures { IfOk result (λ p. p ≡ unmarked walk_cells) }
{
    let head = walk_head(alloc)?;
    let tail = walk_tail(alloc)?;
    turn_while(alloc, OUTCOME, head, tail)
}

fn ends(alloc: Global, shape: Shape) -> Result<Piece, NoMemory>
    ensures { IfOk result (λ p. p ≡ unmarked (ends_cells shape)) }
{
    let first = addi(alloc, REFERENCE, HEADER_WORDS)?;
    let start = xor(alloc, START, REFERENCE)?;
    let end = xor(alloc, END, REFERENCE)?;
    let grown = grow(alloc, END, shape)?;
    let row = seq(first, start)?;
    let row = seq(row, end)?;
    seq(row, grown)
}

// Whether all cells of a block are 0, in a walk.
fn walked(alloc: Global, shape: Shape) -> Result<Piece, NoMemory>
    ensures { IfOk result (λ p. p ≡ unmarked (walked_cells shape)) }
{
    let outer = ends(alloc, shape)?;
    let flag = xori(alloc, OUTCOME, 1)?;
    let walked = walk(alloc)?;
    let flagged = enclosed(alloc, flag, walked)?;
    let grown = grow(alloc, REFERENCE, shape)?;
    let back = mirror(alloc, &grown)?;
    let mid = seq(flagged, back)?;
    enclosed(alloc, outer, mid)
}

// Whether a field is 0, by its number.
fn field(alloc: Global, number: u32) -> Result<Piece, NoMemory>
    requires { number < FEW_FIELDS }
    ensures { IfOk result (λ p. p ≡ unmarked (field_cells number)) }
{
    let at = addi(alloc, REFERENCE, HEADER_WORDS + number)?;
    let zero = nil_place(alloc, REFERENCE, NOT_EMPTY)?;
    enclosed(alloc, at, zero)
}

// So many fields, from the first one on.
#[tactic(auto, using(crate::proofs::Fields::last_field))]
fn fields(alloc: Global, count: u32) -> Result<Piece, NoMemory>
    requires { count ≤ FEW_FIELDS }
    ensures { IfOk result (λ p. p ≡ unmarked (fields_cells count)) }
{
    if count == 0 {
        return Ok(empty(alloc));
    }
    let before = fields(alloc, count - 1)?;
    let last = field(alloc, count - 1)?;
    seq(before, last)
}

// Few fields one after the other, and others in a walk.
#[tactic(auto, using(crate::proofs::Fields::few_fields, crate::proofs::Fields::many_fields))]
fn object_zeros(alloc: Global, table: u32, count: u32) -> Result<Piece, NoMemory>
    ensures { IfOk result (λ p. p ≡ unmarked (zeros_cells (Shape.Fixed table count))) }
{
    if count <= FEW_FIELDS {
        return fields(alloc, count);
    }
    walked(alloc, Shape::Fixed(table, count))
}

fn zeros(alloc: Global, shape: Shape) -> Result<Piece, NoMemory>
    ensures { IfOk result (λ p. p ≡ unmarked (zeros_cells shape)) }
{
    match shape {
        Shape::Fixed(table, count) => object_zeros(alloc, table, count),
        Shape::Lengthy => walked(alloc, Shape::Lengthy),
    }
}

fn delete_checks(alloc: Global, shape: Shape) -> Result<Piece, NoMemory>
    ensures { IfOk result (λ p. p ≡ unmarked (delete_checks_cells shape)) }
{
    let loaded = load(alloc, PLACE)?;
    let some = some_reference(alloc)?;
    let same = same_mark(alloc, shape)?;
    let one = single(alloc)?;
    let zero = zeros(alloc, shape)?;
    let rest = seq(one, zero)?;
    let rest = seq(same, rest)?;
    let rest = seq(some, rest)?;
    enclosed(alloc, loaded, rest)
}

fn positive(alloc: Global) -> Result<Piece, NoMemory>
    ensures { IfOk result (λ p. p ≡ unmarked positive_cells) }
{
    check_positive(alloc, AMOUNT, LENGTH)
}

fn new_checks(alloc: Global, shape: Shape) -> Result<Piece, NoMemory>
    ensures { IfOk result (λ p. p ≡ unmarked (new_checks_cells shape)) }
{
    let nil = nil_place(alloc, PLACE, NOT_NIL)?;
    match shape {
        Shape::Fixed(_table, _fields) => Ok(nil),
        Shape::Lengthy => {
            let some = positive(alloc)?;
            seq(nil, some)
        }
    }
}

// A register's word moves to another, which is 0.
fn moved(alloc: Global, to: u8, from: u8) -> Result<Piece, NoMemory>
    requires to { to < 32 }
    requires from { from < 32 }
    requires apart { to ≢ from }
    ensures { IfOk result (λ p. p ≡ unmarked (xor_cell to from ∷ xor_cell from to ∷ [])) }
{
    let there = xor(alloc, to, from)?;
    let gone = xor(alloc, from, to)?;
    seq(there, gone)
}

fn moves(alloc: Global, shape: Shape) -> Result<Piece, NoMemory>
    ensures { IfOk result (λ p. p ≡ unmarked (move_cells shape)) }
{
    let place = moved(alloc, AT_PLACE, PLACE)?;
    match shape {
        Shape::Fixed(_table, _fields) => Ok(place),
        Shape::Lengthy => {
            let length = moved(alloc, AT_LENGTH, AMOUNT)?;
            seq(place, length)
        }
    }
}

fn fill(alloc: Global, shape: Shape) -> Result<Piece, NoMemory>
    ensures { IfOk result (λ p. p ≡ unmarked (fill_cells shape)) }
{
    let marked = mark(alloc, AT_LENGTH, shape)?;
    let first = exch(alloc, CONTENT, BLOCK)?;
    let at = addi(alloc, BLOCK, COUNT_WORD)?;
    let one = xori(alloc, CONTENT, 1)?;
    let second = exch(alloc, CONTENT, BLOCK)?;
    let count = seq(one, second)?;
    let counted = enclosed(alloc, at, count)?;
    let last = exch(alloc, BLOCK, AT_PLACE)?;
    let rest = seq(counted, last)?;
    let front = seq(marked, first)?;
    seq(front, rest)
}

fn alter(alloc: Global, shape: Shape, orders: Piece) -> Result<Piece, NoMemory>
    requires { orders.marks ≡ [] }
    ensures { IfOk result (λ p. p ≡ unmarked (new_alter shape orders.cells)) }
{
    let there = moves(alloc, shape)?;
    let outer = seq(there, orders)?;
    let call = enter(alloc, 0, false)?;
    let filled = fill(alloc, shape)?;
    let mid = seq(call, filled)?;
    enclosed(alloc, outer, mid)
}

// What is tried before, a change, and the inverse of what is tried before its inverse.
fn between(alloc: Global, before: Piece, change: Piece, inverse: Piece) -> Result<Piece, NoMemory>
    requires before { before.marks ≡ [] }
    requires change { change.marks ≡ [] }
    requires inverse { inverse.marks ≡ [] }
    ensures { IfOk result (λ p. p ≡ unmarked
        (before.cells ++ (change.cells ++ mirror_cells inverse.cells))) }
{
    let behind = mirror(alloc, &inverse)?;
    let rest = seq(change, behind)?;
    seq(before, rest)
}

/// The middle of a new, with what finds the order: its inverse is that of a delete.
pub fn new_middle(alloc: Global, shape: Shape, orders: Piece) -> Result<Piece, NoMemory>
    requires { orders.marks ≡ [] }
    ensures { IfOk result (λ p. p ≡ unmarked (new_mid shape orders.cells)) }
{
    let before = new_checks(alloc, shape)?;
    let change = alter(alloc, shape, orders)?;
    let inverse = delete_checks(alloc, shape)?;
    between(alloc, before, change, inverse)
}
