// Words of memory, operators and checks.
ghost use Rattle.std.specs.Prelude.{◌≡◌, ◌≢◌, ◌<◌, ◌+◌, ◌^◌, [], ◌∷◌, ◌++◌, IfOk};
ghost use Rattle.code_scope.specs.paired_code.Code.{unmarked};
ghost use Rattle.register_expressions.specs.Code.{sltx as sltx_cell, xori as xori_cell, base_of, reach_cells, copy_cells, store_cells, truth_cells as truth_of, operator_cells, operator_result, nil_check as nil_cells, index_check as index_cells, point_cells, nil_check_of as nil_check_cells, index_check_of as index_check_cells, point_of, around, exch as exch_cell, xor as xor_cell};
ghost use Rattle.code_scope.specs.Visible.{offset_of};

use crate::cells::{add, addi, andx, enclosed, exch, orx, sltx, sub, xor, xori};
use code_scope::faults::{INDEX, NIL};
use code_scope::memory::HEADER_WORDS;
use code_scope::registers::{
    CONTENT, FRAME, LEFT, LEFT_TRUTH, NOUGHT, OBJECT, OUTCOME, RIGHT, RIGHT_TRUTH,
};
use code_scope::tree::BinOp;
use code_scope::{NoMemory, Piece, Spot, check_equal, check_positive, empty, seq};
use std::alloc::Global;

/// The register of a storage slot's base.
pub fn base(spot: Spot) -> u8
    ensures value { result ≡ base_of spot }
    ensures low { result < 5 }
{
    match spot {
        Spot::Field(_) => OBJECT,
        Spot::Frame(_) => FRAME,
    }
}

/// The offset of a storage slot.
pub fn offset(spot: Spot) -> u32
    requires { offset_of spot < 2 ^ 32 }
    ensures { result ≡ offset_of spot }
{
    match spot {
        Spot::Field(number) => number + HEADER_WORDS,
        Spot::Frame(word) => word,
    }
}

/// The base goes to a storage slot, whose word is then in `CONTENT`.
pub fn reached(alloc: Global, spot: Spot) -> Result<Piece, NoMemory>
    requires { offset_of spot < 2 ^ 32 }
    ensures { IfOk result (λ p. p ≡ unmarked (reach_cells spot)) }
{
    let from = base(spot);
    let there = addi(alloc, from, offset(spot))?;
    let word = exch(alloc, CONTENT, from)?;
    seq(there, word)
}

/// The word of a storage slot xored into a register.
pub fn copy(alloc: Global, spot: Spot, into: u8) -> Result<Piece, NoMemory>
    requires small { offset_of spot < 2 ^ 32 }
    requires register { into < 32 }
    requires apart { into ≢ CONTENT }
    ensures { IfOk result (λ p. p ≡ unmarked (copy_cells spot into)) }
{
    let outer = reached(alloc, spot)?;
    let middle = xor(alloc, into, CONTENT)?;
    enclosed(alloc, outer, middle)
}

/// A register xored into the word of a storage slot.
pub fn store(alloc: Global, spot: Spot, from: u8) -> Result<Piece, NoMemory>
    requires small { offset_of spot < 2 ^ 32 }
    requires register { from < 32 }
    requires apart { CONTENT ≢ from }
    ensures { IfOk result (λ p. p ≡ unmarked (store_cells spot from)) }
{
    let outer = reached(alloc, spot)?;
    let middle = xor(alloc, CONTENT, from)?;
    enclosed(alloc, outer, middle)
}

/// The truth value of a register in another.
pub fn truth(alloc: Global, into: u8, from: u8) -> Result<Piece, NoMemory>
    requires into { into < 32 }
    requires from { from < 32 }
    requires apart { into ≢ from }
    requires not_nought { into ≢ NOUGHT }
    ensures { IfOk result (λ p. p ≡ unmarked (truth_of into from)) }
{
    let first = sltx(alloc, into, NOUGHT, from)?;
    let second = sltx(alloc, into, from, NOUGHT)?;
    seq(first, second)
}

fn both_truths(alloc: Global, last: Piece) -> Result<Piece, NoMemory>
    requires { last.marks ≡ [] }
    ensures { IfOk result (λ p.
        p ≡ unmarked (truth_of LEFT_TRUTH LEFT ++ (truth_of RIGHT_TRUTH RIGHT ++ last.cells))) }
{
    let left = truth(alloc, LEFT_TRUTH, LEFT)?;
    let right = truth(alloc, RIGHT_TRUTH, RIGHT)?;
    let rest = seq(right, last)?;
    seq(left, rest)
}

fn negated(alloc: Global, test: Piece) -> Result<Piece, NoMemory>
    requires { test.marks ≡ [] }
    ensures { IfOk result (λ p. p ≡ unmarked (test.cells ++ xori_cell OUTCOME 1 ∷ [])) }
{
    let flip = xori(alloc, OUTCOME, 1)?;
    seq(test, flip)
}

fn differ(alloc: Global) -> Result<Piece, NoMemory>
    ensures { IfOk result (λ p.
        p ≡ unmarked (sltx_cell OUTCOME LEFT RIGHT ∷ sltx_cell OUTCOME RIGHT LEFT ∷ [])) }
{
    let first = sltx(alloc, OUTCOME, LEFT, RIGHT)?;
    let second = sltx(alloc, OUTCOME, RIGHT, LEFT)?;
    seq(first, second)
}

/// The cells of an operator.
pub fn operator(alloc: Global, op: BinOp) -> Result<Piece, NoMemory>
    ensures { IfOk result (λ p. p ≡ unmarked (operator_cells op)) }
{
    match op {
        BinOp::Add => add(alloc, LEFT, RIGHT),
        BinOp::Sub => sub(alloc, LEFT, RIGHT),
        BinOp::Xor => xor(alloc, LEFT, RIGHT),
        BinOp::And => andx(alloc, OUTCOME, LEFT, RIGHT),
        BinOp::Or => orx(alloc, OUTCOME, LEFT, RIGHT),
        BinOp::AndAlso => {
            let last = andx(alloc, OUTCOME, LEFT_TRUTH, RIGHT_TRUTH)?;
            both_truths(alloc, last)
        }
        BinOp::OrElse => {
            let last = orx(alloc, OUTCOME, LEFT_TRUTH, RIGHT_TRUTH)?;
            both_truths(alloc, last)
        }
        BinOp::Less => sltx(alloc, OUTCOME, LEFT, RIGHT),
        BinOp::Greater => sltx(alloc, OUTCOME, RIGHT, LEFT),
        BinOp::AtMost => {
            let test = sltx(alloc, OUTCOME, RIGHT, LEFT)?;
            negated(alloc, test)
        }
        BinOp::AtLeast => {
            let test = sltx(alloc, OUTCOME, LEFT, RIGHT)?;
            negated(alloc, test)
        }
        BinOp::Equal => {
            let test = differ(alloc)?;
            negated(alloc, test)
        }
        BinOp::NotEqual => differ(alloc),
        BinOp::Mul => Ok(empty(alloc)),
        BinOp::Div => Ok(empty(alloc)),
        BinOp::Rem => Ok(empty(alloc)),
    }
}

/// The register that has an operator's result.
pub fn operator_register(op: BinOp) -> u8
    ensures value { result ≡ operator_result op }
    ensures register { result < 32 }
    ensures apart { CONTENT ≢ result }
{
    match op {
        BinOp::Add => LEFT,
        BinOp::Sub => LEFT,
        BinOp::Xor => LEFT,
        _ => OUTCOME,
    }
}

/// The check that an array is not nil.
pub fn nil_check(alloc: Global) -> Result<Piece, NoMemory>
    ensures { IfOk result (λ p. p ≡ unmarked nil_cells) }
{
    nil_check_of(alloc, RIGHT)
}

/// The check that an index, without sign, is below an array's length.
pub fn index_check(alloc: Global) -> Result<Piece, NoMemory>
    ensures { IfOk result (λ p. p ≡ unmarked index_cells) }
{
    index_check_of(alloc, RIGHT, LEFT)
}

/// The address of an element.
pub fn point(alloc: Global) -> Result<Piece, NoMemory>
    ensures { IfOk result (λ p. p ≡ unmarked point_cells) }
{
    point_at(alloc, RIGHT, LEFT)
}

// The check that an array in this register is not nil.
fn nil_check_of(alloc: Global, array: u8) -> Result<Piece, NoMemory>
    requires { array < 32 }
    ensures { IfOk result (λ p. p ≡ unmarked (nil_check_cells array)) }
{
    check_positive(alloc, array, NIL)
}

// The check that an index in a register is below the length of an array in another.
fn index_check_of(alloc: Global, array: u8, index: u8) -> Result<Piece, NoMemory>
    requires array { array < 32 }
    requires index { index < 32 }
    requires apart_array { CONTENT ≢ array }
    requires apart_index { OUTCOME ≢ index }
    ensures { IfOk result (λ p. p ≡ unmarked (index_check_cells array index)) }
{
    let length = sltx(alloc, OUTCOME, index, CONTENT)?;
    let sign = sltx(alloc, OUTCOME, index, NOUGHT)?;
    let both = seq(length, sign)?;
    let row = negated(alloc, both)?;
    let check = check_equal(alloc, OUTCOME, NOUGHT, INDEX)?;
    let middle = seq(row, check)?;
    let outer = exch(alloc, CONTENT, array)?;
    enclosed(alloc, outer, middle)
}

// Both checks of an array and an index in registers.
fn element_checks(alloc: Global, array: u8, at: u8) -> Result<Piece, NoMemory>
    requires array_low { 15 < array }
    requires array { array < 32 }
    requires at_low { 15 < at }
    requires at { at < 32 }
    ensures { IfOk result (λ p. p ≡ unmarked (nil_check_cells array ++ index_check_cells array at)) }
{
    let first = nil_check_of(alloc, array)?;
    let second = index_check_of(alloc, array, at)?;
    seq(first, second)
}

// The address of the element in the register of its array.
fn point_at(alloc: Global, array: u8, at: u8) -> Result<Piece, NoMemory>
    requires array { array < 32 }
    requires at { at < 32 }
    requires apart { array ≢ at }
    ensures { IfOk result (λ p. p ≡ unmarked (point_of array at)) }
{
    let first = add(alloc, array, at)?;
    let second = addi(alloc, array, HEADER_WORDS)?;
    seq(first, second)
}

// An array after what opens an index.
fn with_array(alloc: Global, spot: Spot, index: Piece, array: u8) -> Result<Piece, NoMemory>
    requires small { offset_of spot < 2 ^ 32 }
    requires marks { index.marks ≡ [] }
    requires low { 15 < array }
    requires high { array < 32 }
    ensures { IfOk result (λ p. p ≡ unmarked (index.cells ++ copy_cells spot array)) }
{
    let word = copy(alloc, spot, array)?;
    seq(index, word)
}

// An array and an index that passed their checks.
fn with_checks(
    alloc: Global,
    spot: Spot,
    index: Piece,
    array: u8,
    at: u8,
) -> Result<Piece, NoMemory>
    requires small { offset_of spot < 2 ^ 32 }
    requires marks { index.marks ≡ [] }
    requires array_low { 15 < array }
    requires array { array < 32 }
    requires at_low { 15 < at }
    requires at { at < 32 }
    ensures { IfOk result (λ p.
        p ≡ unmarked ((index.cells ++ copy_cells spot array)
        ++ (nil_check_cells array ++ index_check_cells array at))) }
{
    let front = with_array(alloc, spot, index, array)?;
    let checks = element_checks(alloc, array, at)?;
    seq(front, checks)
}

// The address of an element in a register, by what opens its index in another one.
pub(crate) fn element(
    alloc: Global,
    spot: Spot,
    index: Piece,
    array: u8,
    at: u8,
) -> Result<Piece, NoMemory>
    requires small { offset_of spot < 2 ^ 32 }
    requires marks { index.marks ≡ [] }
    requires array_low { 15 < array }
    requires array { array < 32 }
    requires at_low { 15 < at }
    requires at { at < 32 }
    requires apart { array ≢ at }
    ensures { IfOk result (λ p.
        p ≡ unmarked (((index.cells ++ copy_cells spot array)
        ++ (nil_check_cells array ++ index_check_cells array at)) ++ point_of array at)) }
{
    let checked = with_checks(alloc, spot, index, array, at)?;
    let address = point_at(alloc, array, at)?;
    seq(checked, address)
}

// The word of an element xored into a register.
pub(crate) fn element_word(alloc: Global, into: u8, address: u8) -> Result<Piece, NoMemory>
    requires into { into < 32 }
    requires address { address < 32 }
    requires apart_into { into ≢ CONTENT }
    requires apart_address { CONTENT ≢ address }
    ensures { IfOk result (λ p.
        p ≡ unmarked (around (exch_cell CONTENT address ∷ []) (xor_cell into CONTENT ∷ []))) }
{
    let outer = exch(alloc, CONTENT, address)?;
    let middle = xor(alloc, into, CONTENT)?;
    enclosed(alloc, outer, middle)
}
