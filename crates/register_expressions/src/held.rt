// Expressions with few operators, whose subexpressions are in registers.
ghost use Rattle.std.specs.Prelude.{◌≡◌, ◌≢◌, ◌<◌, ◌≤◌, ◌+◌, ◌*◌, [], ◌∷◌, ◌++◌, ◌^◌, ◌⊎◌, true, false, if◌then◌else◌, IfOk};
ghost use Rattle.code_scope.specs.rpp_tree.Views.{expression_of, lvalue_of};
ghost use Rattle.code_scope.specs.paired_code.Code.{unmarked};
ghost use Rattle.register_expressions.specs.Code.{Target, words as words_of, sltx as sltx_cell, xor as xor_cell, xori as xori_cell, exch as exch_cell, around, reach_cells, copy_cells, nil_check_of, index_check_of, point_of, part as part_of, before, core, told_cells, element_cells, operands_cells, core_cells, change_cells, literal_cells, give_cells, held_cells, given_cells, held_value_cells, held_truth_cells, held_test_cells};
ghost use Rattle.register_expressions.specs.Held.{kind as kind_of, own as own_of, beside as beside_of, past as past_of, need as need_of, told_need as told_need_of, left_at as left_place, right_at as right_place, has_parts as parts_in, is_held as held_of, has_element as element_in, is_opened_once as opened_once, is_near as near_of, is_near_index as near_index, is_variable as variable_of, is_literal as literal_is, literal_in, is_zero_literal as zero_is, expression_spot, gives_truth as tells_of, is_truth as truth_is};
ghost use Rattle.register_expressions.specs.Number.{lvalue_read};
ghost use Rattle.code_scope.specs.Visible.{spot_of as spot_of_name, known_by, offset_of};

use crate::cells::{add, addi, andx, enclosed, orx, sltx, sub, xor, xori};
use crate::rows::{copy, element, element_word, reached, truth};
use code_scope::memory::EXPRESSION_WORDS;
use code_scope::registers::{CONTENT, LEFT, NOUGHT};
use code_scope::tree::{BinOp, Place};
use code_scope::{Expr, Names, NoMemory, Piece, Spot, Text, empty, seq, spot_of, wrap_sub};
use std::alloc::Global;

/// An operator changes the register of its left operand, or xors its result into a register, or
/// xors that of its operands' truths, or its expression has words of the frame.
#[derive(Clone, Copy, PartialEq, Eq, Debug)]
pub enum Kind {
    Changes,
    Gives,
    Joins,
    Neither,
}

fn kind_by(op: BinOp) -> Kind
    ensures { result ≡ kind_of op }
{
    match op {
        BinOp::Add => Kind::Changes,
        BinOp::Sub => Kind::Changes,
        BinOp::Xor => Kind::Changes,
        BinOp::And => Kind::Gives,
        BinOp::Or => Kind::Gives,
        BinOp::AndAlso => Kind::Joins,
        BinOp::OrElse => Kind::Joins,
        BinOp::Less => Kind::Gives,
        BinOp::Greater => Kind::Gives,
        BinOp::AtMost => Kind::Gives,
        BinOp::AtLeast => Kind::Gives,
        BinOp::Equal => Kind::Gives,
        BinOp::NotEqual => Kind::Gives,
        BinOp::Mul => Kind::Neither,
        BinOp::Div => Kind::Neither,
        BinOp::Rem => Kind::Neither,
    }
}

// The first register of an operator's operands, and the one into which its result is xored.
#[derive(Clone, Copy)]
struct At {
    k: u32,
    into: u8,
}

fn tells(op: BinOp) -> bool
    ensures { result ≡ tells_of op }
{
    match op {
        BinOp::AndAlso => true,
        BinOp::OrElse => true,
        BinOp::Less => true,
        BinOp::Greater => true,
        BinOp::AtMost => true,
        BinOp::AtLeast => true,
        BinOp::Equal => true,
        BinOp::NotEqual => true,
        _ => false,
    }
}

// Whether the value of an expression is its own truth.
fn is_truth(e: &Expr) -> bool
    ensures { result ≡ truth_is (expression_of e.now) }
{
    match e {
        Expr::Number { .. } => false,
        Expr::Nil { .. } => false,
        Expr::Read(place) => match &place.index {
            None => false,
            Some(_) => false,
        },
        Expr::Binary { op, .. } => tells(*op),
    }
}

fn beside(truth: bool) -> u32
    ensures value { result ≡ beside_of truth }
    ensures few { result ≤ 1 }
{
    if truth { 0 } else { 1 }
}

fn past(truth: bool, k: u32) -> u32
    requires { k ≤ 9 }
    ensures value { result ≡ past_of truth k }
    ensures sum { result ≡ k + beside_of truth }
{
    if truth { k } else { k + 1 }
}

fn own(kind: Kind, left: bool, right: bool) -> u32
    ensures value { result ≡ own_of kind left right }
    ensures few { result ≤ 10 }
{
    match kind {
        Kind::Changes => 0,
        Kind::Gives => 1,
        Kind::Joins => 1 + (beside(left) + beside(right)),
        Kind::Neither => 10,
    }
}

#[cycle(need)]
fn read_need(place: &Place) -> u32
    requires { words_of (lvalue_read (lvalue_of place.now)) ≤ EXPRESSION_WORDS }
    ensures value { result ≡ need_of (lvalue_read (lvalue_of place.now)) }
    ensures bound { result ≤ 11 * words_of (lvalue_read (lvalue_of place.now)) + 1 }
    ensures some { 1 ≤ result }
{
    match &place.index {
        None => 1,
        Some(index) => 2 + need(index),
    }
}

/// How many registers an expression needs.
#[cycle(need)]
pub fn need(e: &Expr) -> u32
    requires { words_of (expression_of e.now) ≤ EXPRESSION_WORDS }
    ensures value { result ≡ need_of (expression_of e.now) }
    ensures bound { result ≤ 11 * words_of (expression_of e.now) + 1 }
    ensures some { 1 ≤ result }
{
    match e {
        Expr::Number { .. } => 1,
        Expr::Nil { .. } => 1,
        Expr::Read(place) => read_need(place),
        Expr::Binary {
            op,
            left,
            right,
            ..
        } => own(kind_by(*op), is_truth(left), is_truth(right)) + (need(left) + need(right)),
    }
}

fn told_need(e: &Expr) -> u32
    requires { words_of (expression_of e.now) ≤ EXPRESSION_WORDS }
    ensures { result ≡ told_need_of (expression_of e.now) }
{
    beside(is_truth(e)) + need(e)
}

fn has_parts(e: &Expr) -> bool
    ensures { result ≡ parts_in (expression_of e.now) }
{
    match e {
        Expr::Number { .. } => false,
        Expr::Nil { .. } => false,
        Expr::Read(place) => match &place.index {
            None => false,
            Some(_) => true,
        },
        Expr::Binary { .. } => true,
    }
}

/// Whether there are enough registers for the parts of an expression, and it is not nil or an element
/// with a leaf as index.
pub fn is_held(e: &Expr) -> bool
    requires { words_of (expression_of e.now) ≤ EXPRESSION_WORDS }
    ensures value { result ≡ held_of (expression_of e.now) }
    ensures few { result ≡ true → need_of (expression_of e.now) < 10 }
{
    match e {
        Expr::Number { .. } => true,
        Expr::Nil { .. } => false,
        Expr::Read(place) => match &place.index {
            None => true,
            Some(index) => need(e) < 10 && has_parts(index),
        },
        Expr::Binary { .. } => need(e) < 10,
    }
}

#[cycle(has_element)]
fn has_element(e: &Expr) -> bool
    ensures { result ≡ element_in (expression_of e.now) }
{
    match e {
        Expr::Number { .. } => false,
        Expr::Nil { .. } => false,
        Expr::Read(place) => match &place.index {
            None => false,
            Some(_) => true,
        },
        Expr::Binary { left, right, .. } => has_element(left) || has_element(right),
    }
}

/// Whether an update by this value opens it once.
pub fn is_opened_once(e: &Expr) -> bool
    requires { words_of (expression_of e.now) ≤ EXPRESSION_WORDS }
    ensures value { result ≡ opened_once (expression_of e.now) }
    ensures few { result ≡ true → need_of (expression_of e.now) < 10 }
{
    is_held(e) && !has_element(e)
}

/// Whether an element that changes can be found once, with its index and its value in registers.
pub fn is_near(index: &Expr, value: &Expr) -> bool
    requires index { words_of (expression_of index.now) ≤ EXPRESSION_WORDS }
    requires value { words_of (expression_of value.now) ≤ EXPRESSION_WORDS }
    ensures value { result ≡ near_of (expression_of index.now) (expression_of value.now) }
    ensures few { result ≡ true → 2 + need_of (expression_of index.now) + need_of
        (expression_of value.now) < 10 }
{
    2 + need(index) + need(value) < 10 && !has_element(value) && !has_element(index)
}

/// Whether an element with this index can be found once, if it is swapped with a variable.
pub fn is_near_index(index: &Expr) -> bool
    ensures { result ≡ near_index (expression_of index.now) }
{
    !has_element(index)
}

/// The register of a part.
pub fn part(k: u32) -> u8
    requires { k < 9 }
    ensures value { result ≡ part_of k }
    ensures low { 15 < result }
    ensures high { result < 25 }
{
    LEFT + k as u8
}

fn is_variable(e: &Expr) -> bool
    ensures { result ≡ variable_of (expression_of e.now) }
{
    match e {
        Expr::Number { .. } => false,
        Expr::Nil { .. } => false,
        Expr::Read(place) => match &place.index {
            None => true,
            Some(_) => false,
        },
        Expr::Binary { .. } => false,
    }
}

fn is_literal(e: &Expr) -> bool
    ensures { result ≡ literal_is (expression_of e.now) }
{
    match e {
        Expr::Number { .. } => true,
        Expr::Nil { .. } => false,
        Expr::Read(place) => match &place.index {
            None => false,
            Some(_) => false,
        },
        Expr::Binary { .. } => false,
    }
}

fn literal(e: &Expr) -> u32
    ensures { result ≡ literal_in (expression_of e.now) }
{
    match e {
        Expr::Number { word, .. } => *word,
        Expr::Nil { .. } => 0,
        Expr::Read(place) => match &place.index {
            None => 0,
            Some(_) => 0,
        },
        Expr::Binary { .. } => 0,
    }
}

fn is_zero(e: &Expr) -> bool
    ensures { result ≡ zero_is (expression_of e.now) }
{
    match e {
        Expr::Number { word, .. } => *word == 0,
        Expr::Nil { .. } => true,
        Expr::Read(place) => match &place.index {
            None => false,
            Some(_) => false,
        },
        Expr::Binary { .. } => false,
    }
}

fn spot(names: &Names, e: &Expr) -> Spot
    ensures value { result ≡ expression_spot (spot_of_name (known_by names.now)) (expression_of e.now) }
    ensures small { offset_of result < 2 ^ 32 }
{
    match e {
        Expr::Number { .. } => Spot::Frame(0),
        Expr::Nil { .. } => Spot::Frame(0),
        Expr::Read(place) => match &place.index {
            None => spot_of(names, &place.name.text),
            Some(_) => Spot::Frame(0),
        },
        Expr::Binary { .. } => Spot::Frame(0),
    }
}

fn change(alloc: Global, op: BinOp, d: u8, s: u8) -> Result<Piece, NoMemory>
    requires d { d < 32 }
    requires s { s < 32 }
    requires apart { d ≢ s }
    ensures { IfOk result (λ p. p ≡ unmarked (change_cells op d s)) }
{
    match op {
        BinOp::Add => add(alloc, d, s),
        BinOp::Sub => sub(alloc, d, s),
        _ => xor(alloc, d, s),
    }
}

fn change_by(alloc: Global, op: BinOp, d: u8, word: u32) -> Result<Piece, NoMemory>
    requires { d < 32 }
    ensures { IfOk result (λ p. p ≡ unmarked (literal_cells op d word)) }
{
    match op {
        BinOp::Add => addi(alloc, d, word),
        BinOp::Sub => addi(alloc, d, wrap_sub(0, word)),
        _ => xori(alloc, d, word),
    }
}

fn flipped(alloc: Global, d: u8, test: Piece) -> Result<Piece, NoMemory>
    requires register { d < 32 }
    requires marks { test.marks ≡ [] }
    ensures { IfOk result (λ p. p ≡ unmarked (test.cells ++ xori_cell d 1 ∷ [])) }
{
    let flip = xori(alloc, d, 1)?;
    seq(test, flip)
}

fn differ(alloc: Global, d: u8, a: u8, s: u8) -> Result<Piece, NoMemory>
    requires d { d < 32 }
    requires a { a < 32 }
    requires s { s < 32 }
    requires apart_a { d ≢ a }
    requires apart_s { d ≢ s }
    ensures { IfOk result (λ p. p ≡ unmarked (sltx_cell d a s ∷ sltx_cell d s a ∷ [])) }
{
    let first = sltx(alloc, d, a, s)?;
    let second = sltx(alloc, d, s, a)?;
    seq(first, second)
}

fn give(alloc: Global, op: BinOp, d: u8, a: u8, s: u8) -> Result<Piece, NoMemory>
    requires d { d < 32 }
    requires a { a < 32 }
    requires s { s < 32 }
    requires apart_a { d ≢ a }
    requires apart_s { d ≢ s }
    ensures { IfOk result (λ p. p ≡ unmarked (give_cells op d a s)) }
{
    match op {
        BinOp::And => andx(alloc, d, a, s),
        BinOp::Or => orx(alloc, d, a, s),
        BinOp::AndAlso => andx(alloc, d, a, s),
        BinOp::OrElse => orx(alloc, d, a, s),
        BinOp::Less => sltx(alloc, d, a, s),
        BinOp::Greater => sltx(alloc, d, s, a),
        BinOp::AtMost => {
            let test = sltx(alloc, d, s, a)?;
            flipped(alloc, d, test)
        }
        BinOp::AtLeast => {
            let test = sltx(alloc, d, a, s)?;
            flipped(alloc, d, test)
        }
        BinOp::Equal => {
            let test = differ(alloc, d, a, s)?;
            flipped(alloc, d, test)
        }
        BinOp::NotEqual => differ(alloc, d, a, s),
        _ => Ok(empty(alloc)),
    }
}

// While the word of a storage slot is out.
fn taken(alloc: Global, spot: Spot, middle: Piece) -> Result<Piece, NoMemory>
    requires small { offset_of spot < 2 ^ 32 }
    requires marks { middle.marks ≡ [] }
    ensures { IfOk result (λ p. p ≡ unmarked (around (reach_cells spot) middle.cells)) }
{
    let outer = reached(alloc, spot)?;
    enclosed(alloc, outer, middle)
}

fn changed_core(
    alloc: Global,
    names: &Names,
    op: BinOp,
    left: &Expr,
    right: &Expr,
    k: u32,
) -> Result<Piece, NoMemory>
    requires room { words_of (expression_of left.now) ≤ EXPRESSION_WORDS }
    requires few { k + need_of (expression_of left.now) < 9 }
    ensures { IfOk result (λ p.
        p ≡ unmarked (if literal_is (expression_of right.now)
        then literal_cells op (part_of k) (literal_in (expression_of right.now))
        else core false false (variable_of (expression_of right.now))
        (expression_spot (spot_of_name (known_by names.now)) (expression_of left.now))
        (expression_spot (spot_of_name (known_by names.now)) (expression_of right.now)) (part_of k)
        (part_of (k + need_of (expression_of left.now))) (λ a s. change_cells op a s))) }
{
    if is_literal(right) {
        return change_by(alloc, op, part(k), literal(right));
    }
    if is_variable(right) {
        let middle = change(alloc, op, part(k), CONTENT)?;
        taken(alloc, spot(names, right), middle)
    } else {
        change(alloc, op, part(k), part(k + need(left)))
    }
}

// An operator whose right operand is 0.
fn given_zero(
    alloc: Global,
    names: &Names,
    op: BinOp,
    left: &Expr,
    at: At,
) -> Result<Piece, NoMemory>
    requires few { at.k < 9 }
    requires register { at.into < 32 }
    requires content { at.into ≢ CONTENT }
    requires apart { (at.into < part_of at.k) ⊎ (24 < at.into) }
    requires not_nought { at.into ≢ NOUGHT }
    ensures { IfOk result (λ p.
        p ≡ unmarked (if variable_of (expression_of left.now) then
        around (reach_cells (expression_spot (spot_of_name (known_by names.now)) (expression_of left.now)))
        (give_cells op at.into CONTENT NOUGHT) else give_cells op at.into (part_of at.k) NOUGHT)) }
{
    if is_variable(left) {
        let middle = give(alloc, op, at.into, CONTENT, NOUGHT)?;
        return taken(alloc, spot(names, left), middle);
    }
    give(alloc, op, at.into, part(at.k), NOUGHT)
}

fn given_core(
    alloc: Global,
    names: &Names,
    op: BinOp,
    left: &Expr,
    right: &Expr,
    at: At,
) -> Result<Piece, NoMemory>
    requires room { words_of (expression_of left.now) ≤ EXPRESSION_WORDS }
    requires few { at.k + need_of (expression_of left.now) < 9 }
    requires register { at.into < 32 }
    requires content { at.into ≢ CONTENT }
    requires apart { (at.into < part_of at.k) ⊎ (24 < at.into) }
    requires not_nought { at.into ≢ NOUGHT }
    ensures { IfOk result (λ p.
        p ≡ unmarked (core (zero_is (expression_of right.now))
        (variable_of (expression_of left.now)) (variable_of (expression_of right.now))
        (expression_spot (spot_of_name (known_by names.now)) (expression_of left.now))
        (expression_spot (spot_of_name (known_by names.now)) (expression_of right.now)) (part_of at.k)
        (part_of (at.k + need_of (expression_of left.now)))
        (λ a s. give_cells op at.into a s))) }
{
    let first = part(at.k);
    let second = part(at.k + need(left));
    if is_zero(right) {
        return given_zero(alloc, names, op, left, at);
    }
    if is_variable(right) {
        let middle = give(alloc, op, at.into, first, CONTENT)?;
        return taken(alloc, spot(names, right), middle);
    }
    if is_variable(left) {
        let middle = give(alloc, op, at.into, CONTENT, second)?;
        return taken(alloc, spot(names, left), middle);
    }
    give(alloc, op, at.into, first, second)
}

// An element's address in register k + 1, by what opens its index in register k + 2.
fn held_address(alloc: Global, spot: Spot, index: Piece, k: u32) -> Result<Piece, NoMemory>
    requires small { offset_of spot < 2 ^ 32 }
    requires marks { index.marks ≡ [] }
    requires few { k + 2 < 9 }
    ensures { IfOk result (λ p.
        p ≡ unmarked (((index.cells ++ copy_cells spot (part_of (k + 1)))
        ++ (nil_check_of (part_of (k + 1)) ++ index_check_of (part_of (k + 1)) (part_of (k + 2))))
        ++ point_of (part_of (k + 1)) (part_of (k + 2)))) }
{
    element(alloc, spot, index, part(k + 1), part(k + 2))
}

fn held_word(alloc: Global, k: u32) -> Result<Piece, NoMemory>
    requires { k + 2 < 9 }
    ensures { IfOk result (λ p.
        p ≡ unmarked (around (exch_cell CONTENT (part_of (k + 1)) ∷ [])
        (xor_cell (part_of k) CONTENT ∷ []))) }
{
    element_word(alloc, part(k), part(k + 1))
}

// An element's word in register k.
fn held_element(alloc: Global, spot: Spot, index: Piece, k: u32) -> Result<Piece, NoMemory>
    requires small { offset_of spot < 2 ^ 32 }
    requires marks { index.marks ≡ [] }
    requires few { k + 2 < 9 }
    ensures { IfOk result (λ p.
        p ≡ unmarked ((((index.cells ++ copy_cells spot (part_of (k + 1)))
        ++ (nil_check_of (part_of (k + 1)) ++ index_check_of (part_of (k + 1)) (part_of (k + 2))))
        ++ point_of (part_of (k + 1)) (part_of (k + 2)))
        ++ around (exch_cell CONTENT (part_of (k + 1)) ∷ [])
        (xor_cell (part_of k) CONTENT ∷ []))) }
{
    let outer = held_address(alloc, spot, index, k)?;
    let word = held_word(alloc, k)?;
    seq(outer, word)
}

#[cycle(held)]
#[tactic(auto, using(crate::proofs::HeldBounds::need_least))]
fn held_read(alloc: Global, names: &Names, place: &Place, k: u32) -> Result<Piece, NoMemory>
    requires room { words_of (lvalue_read (lvalue_of place.now)) ≤ EXPRESSION_WORDS }
    requires few { k + need_of (lvalue_read (lvalue_of place.now)) ≤ 9 }
    ensures { IfOk result (λ p.
        p ≡ unmarked (held_cells (spot_of_name (known_by names.now))
        (lvalue_read (lvalue_of place.now)) k)) }
{
    match &place.index {
        None => copy(alloc, spot_of(names, &place.name.text), part(k)),
        Some(index) => {
            let first = held(alloc, names, index, k + 2)?;
            held_element(alloc, spot_of(names, &place.name.text), first, k)
        }
    }
}

// What comes before an operator, by the fragments that open its operands.
fn opened(
    alloc: Global,
    zero: bool,
    left: bool,
    right: &Expr,
    first: Piece,
    second: Piece,
) -> Result<Piece, NoMemory>
    requires first { first.marks ≡ [] }
    requires second { second.marks ≡ [] }
    ensures { IfOk result (λ p.
        p ≡ unmarked (before zero left (variable_of (expression_of right.now)) first.cells
        second.cells)) }
{
    if zero {
        if left {
            return Ok(empty(alloc));
        }
        return Ok(first);
    }
    if is_variable(right) {
        return Ok(first);
    }
    if left {
        return Ok(second);
    }
    seq(first, second)
}

// The truth value of what was opened past register k, in that register.
fn told(alloc: Global, truth_already: bool, value: Piece, k: u32) -> Result<Piece, NoMemory>
    requires marks { value.marks ≡ [] }
    requires few { k + beside_of truth_already < 9 }
    ensures { IfOk result (λ p. p ≡ unmarked (told_cells truth_already value.cells k)) }
{
    if truth_already {
        return Ok(value);
    }
    let last = truth(alloc, part(k), part(k + 1))?;
    seq(value, last)
}

#[tactic(auto, using(crate::proofs::HeldBounds::need_least))]
fn both_told(
    alloc: Global,
    left: &Expr,
    right: &Expr,
    first: Piece,
    second: Piece,
    k: u32,
) -> Result<Piece, NoMemory>
    requires left { words_of (expression_of left.now) ≤ EXPRESSION_WORDS }
    requires first { first.marks ≡ [] }
    requires second { second.marks ≡ [] }
    requires few { k + (told_need_of (expression_of left.now) +
        told_need_of (expression_of right.now)) ≤ 9 }
    ensures { IfOk result (λ p.
        p ≡ unmarked (told_cells (truth_is (expression_of left.now)) first.cells k
        ++ told_cells (truth_is (expression_of right.now)) second.cells
        (k + told_need_of (expression_of left.now)))) }
{
    let one = told(alloc, is_truth(left), first, k)?;
    let two = told(alloc, is_truth(right), second, k + told_need(left))?;
    seq(one, two)
}

fn left_at(kind: Kind, left: &Expr, right: &Expr, k: u32) -> u32
    requires few { k + (own_of kind (truth_is (expression_of left.now))
        (truth_is (expression_of right.now)) + (need_of (expression_of left.now) +
        need_of (expression_of right.now))) ≤ 9 }
    ensures value { result ≡ left_place kind (truth_is (expression_of left.now)) k }
    ensures few { result ≤ k + own_of kind (truth_is (expression_of left.now))
        (truth_is (expression_of right.now)) }
{
    match kind {
        Kind::Changes => k,
        Kind::Gives => k + 1,
        Kind::Joins => past(is_truth(left), k + 1),
        Kind::Neither => k,
    }
}

fn right_at(kind: Kind, left: &Expr, right: &Expr, k: u32) -> u32
    requires few { k + (own_of kind (truth_is (expression_of left.now))
        (truth_is (expression_of right.now)) + (need_of (expression_of left.now) +
        need_of (expression_of right.now))) ≤ 9 }
    requires room { words_of (expression_of left.now) ≤ EXPRESSION_WORDS }
    ensures value { result ≡ right_place kind (truth_is (expression_of left.now))
        (truth_is (expression_of right.now)) (need_of (expression_of left.now)) k }
    ensures few { result ≤ k + (own_of kind (truth_is (expression_of left.now))
        (truth_is (expression_of right.now)) + need_of (expression_of left.now)) }
{
    match kind {
        Kind::Changes => k + need(left),
        Kind::Gives => k + 1 + need(left),
        Kind::Joins => past(is_truth(right), k + 1 + told_need(left)),
        Kind::Neither => k + need(left),
    }
}

// What opens the operands of an operator, by their fragments.
fn operands(alloc: Global, e: &Expr, first: Piece, second: Piece, k: u32) -> Result<Piece, NoMemory>
    requires room { words_of (expression_of e.now) ≤ EXPRESSION_WORDS }
    requires first { first.marks ≡ [] }
    requires second { second.marks ≡ [] }
    requires few { k + need_of (expression_of e.now) ≤ 9 }
    ensures { IfOk result (λ p.
        p ≡ unmarked (operands_cells (expression_of e.now) first.cells second.cells k)) }
{
    match e {
        Expr::Number { .. } => Ok(empty(alloc)),
        Expr::Nil { .. } => Ok(empty(alloc)),
        Expr::Read(place) => match &place.index {
            None => Ok(empty(alloc)),
            Some(_) => Ok(empty(alloc)),
        },
        Expr::Binary {
            op,
            left,
            right,
            ..
        } => match kind_by(*op) {
            Kind::Changes => opened(alloc, is_literal(right), false, right, first, second),
            Kind::Gives => {
                let zero = is_zero(right);
                opened(alloc, zero, is_variable(left), right, first, second)
            }
            Kind::Joins => both_told(alloc, left, right, first, second, k + 1),
            Kind::Neither => Ok(empty(alloc)),
        },
    }
}

#[tactic(auto, using(crate::proofs::HeldBounds::need_least))]
fn operator_core(
    alloc: Global,
    names: &Names,
    op: BinOp,
    left: &Expr,
    right: &Expr,
    k: u32,
) -> Result<Piece, NoMemory>
    requires room { words_of (expression_of left.now) ≤ EXPRESSION_WORDS }
    requires few { k + (own_of (kind_of op) (truth_is (expression_of left.now))
        (truth_is (expression_of right.now)) + (need_of (expression_of left.now) +
        need_of (expression_of right.now))) ≤ 9 }
    ensures { IfOk result (λ p.
        p ≡ unmarked (core_cells (spot_of_name (known_by names.now)) (kind_of op) op
        (expression_of left.now) (expression_of right.now) k)) }
{
    match kind_by(op) {
        Kind::Changes => changed_core(alloc, names, op, left, right, k),
        Kind::Gives => {
            let at = At {
                k: k + 1,
                into: part(k),
            };
            given_core(alloc, names, op, left, right, at)
        }
        Kind::Joins => {
            let second = k + 1 + told_need(left);
            give(alloc, op, part(k), part(k + 1), part(second))
        }
        Kind::Neither => Ok(empty(alloc)),
    }
}

/// The value of an expression in register k of its parts, which is 0 as those above it.
#[cycle(held)]
#[tactic(auto, using(crate::proofs::HeldBounds::need_least))]
pub fn held(alloc: Global, names: &Names, e: &Expr, k: u32) -> Result<Piece, NoMemory>
    requires room { words_of (expression_of e.now) ≤ EXPRESSION_WORDS }
    requires few { k + need_of (expression_of e.now) ≤ 9 }
    ensures { IfOk result (λ p.
        p ≡ unmarked (held_cells (spot_of_name (known_by names.now)) (expression_of e.now) k)) }
{
    match e {
        Expr::Number { word, .. } => xori(alloc, part(k), *word),
        Expr::Nil { .. } => xori(alloc, part(k), 0),
        Expr::Read(place) => held_read(alloc, names, place, k),
        Expr::Binary {
            op,
            left,
            right,
            ..
        } => {
            let kind = kind_by(*op);
            let first = held(alloc, names, left, left_at(kind, left, right, k))?;
            let second = held(alloc, names, right, right_at(kind, left, right, k))?;
            let outer = operands(alloc, e, first, second, k)?;
            let core = operator_core(alloc, names, *op, left, right, k)?;
            seq(outer, core)
        }
    }
}

/// An element's index and, below it, its address.
#[tactic(auto, using(crate::proofs::HeldBounds::need_least))]
pub fn held_place(
    alloc: Global,
    names: &Names,
    name: &Text,
    index: &Expr,
) -> Result<Piece, NoMemory>
    requires room { words_of (expression_of index.now) ≤ EXPRESSION_WORDS }
    requires few { 2 + need_of (expression_of index.now) ≤ 9 }
    ensures { IfOk result (λ p.
        p ≡ unmarked (element_cells (spot_of_name (known_by names.now)) name.now
        (held_cells (spot_of_name (known_by names.now)) (expression_of index.now) 2) 0)) }
{
    let first = held(alloc, names, index, 2)?;
    held_address(alloc, spot_of(names, name), first, 0)
}

fn plain(alloc: Global, e: &Expr, names: &Names, into: u8) -> Result<Piece, NoMemory>
    requires register { Target into }
    requires room { words_of (expression_of e.now) ≤ EXPRESSION_WORDS }
    requires few { need_of (expression_of e.now) < 10 }
    ensures { IfOk result (λ p.
        p ≡ unmarked (around (held_cells (spot_of_name (known_by names.now))
        (expression_of e.now) 0) (xor_cell into (part_of 0) ∷ []))) }
{
    let outer = held(alloc, names, e, 0)?;
    let middle = xor(alloc, into, part(0))?;
    enclosed(alloc, outer, middle)
}

fn plain_read(
    alloc: Global,
    e: &Expr,
    place: &Place,
    names: &Names,
    into: u8,
) -> Result<Piece, NoMemory>
    requires same { expression_of e.now ≡ lvalue_read (lvalue_of place.now) }
    requires register { Target into }
    requires room { words_of (expression_of e.now) ≤ EXPRESSION_WORDS }
    requires few { need_of (expression_of e.now) < 10 }
    ensures { IfOk result (λ p.
        p ≡ unmarked (held_value_cells (spot_of_name (known_by names.now))
        (lvalue_read (lvalue_of place.now)) into)) }
{
    match &place.index {
        None => copy(alloc, spot_of(names, &place.name.text), into),
        Some(_) => plain(alloc, e, names, into),
    }
}

// What an operator gives goes straight into a register.
#[tactic(auto, using(crate::proofs::HeldBounds::need_least))]
fn given(
    alloc: Global,
    names: &Names,
    op: BinOp,
    left: &Expr,
    right: &Expr,
    into: u8,
) -> Result<Piece, NoMemory>
    requires register { Target into }
    requires left { words_of (expression_of left.now) ≤ EXPRESSION_WORDS }
    requires right { words_of (expression_of right.now) ≤ EXPRESSION_WORDS }
    requires few { need_of (expression_of left.now) + need_of (expression_of right.now) < 9 }
    ensures { IfOk result (λ p.
        p ≡ unmarked (around (before (zero_is (expression_of right.now))
        (variable_of (expression_of left.now)) (variable_of (expression_of right.now))
        (held_cells (spot_of_name (known_by names.now)) (expression_of left.now) 0)
        (held_cells (spot_of_name (known_by names.now)) (expression_of right.now)
        (need_of (expression_of left.now)))) (core (zero_is (expression_of right.now))
        (variable_of (expression_of left.now))
        (variable_of (expression_of right.now))
        (expression_spot (spot_of_name (known_by names.now)) (expression_of left.now))
        (expression_spot (spot_of_name (known_by names.now)) (expression_of right.now)) (part_of 0)
        (part_of (need_of (expression_of left.now))) (λ a s. give_cells op into a s)))) }
{
    let first = held(alloc, names, left, 0)?;
    let second = held(alloc, names, right, need(left))?;
    let zero = is_zero(right);
    let outer = opened(alloc, zero, is_variable(left), right, first, second)?;
    let at = At { k: 0, into };
    let core = given_core(alloc, names, op, left, right, at)?;
    enclosed(alloc, outer, core)
}

// The same of the truths of the operands.
#[tactic(auto, using(crate::proofs::HeldBounds::need_least))]
fn given_joined(
    alloc: Global,
    names: &Names,
    op: BinOp,
    left: &Expr,
    right: &Expr,
    into: u8,
) -> Result<Piece, NoMemory>
    requires register { Target into }
    requires left { words_of (expression_of left.now) ≤ EXPRESSION_WORDS }
    requires right { words_of (expression_of right.now) ≤ EXPRESSION_WORDS }
    requires few { told_need_of (expression_of left.now) +
        told_need_of (expression_of right.now) < 9 }
    ensures { IfOk result (λ p.
        p ≡ unmarked (around (told_cells (truth_is (expression_of left.now))
        (held_cells (spot_of_name (known_by names.now)) (expression_of left.now)
        (past_of (truth_is (expression_of left.now)) 0)) 0
        ++ told_cells (truth_is (expression_of right.now))
        (held_cells (spot_of_name (known_by names.now)) (expression_of right.now)
        (past_of (truth_is (expression_of right.now)) (told_need_of (expression_of left.now))))
        (told_need_of (expression_of left.now)))
        (give_cells op into (part_of 0) (part_of (told_need_of (expression_of left.now)))))) }
{
    let first = held(alloc, names, left, past(is_truth(left), 0))?;
    let second = held(alloc, names, right, past(is_truth(right), told_need(left)))?;
    let outer = both_told(alloc, left, right, first, second, 0)?;
    let core = give(alloc, op, into, part(0), part(told_need(left)))?;
    enclosed(alloc, outer, core)
}

/// The value of an expression with few parts xored into a register.
pub fn held_value(alloc: Global, e: &Expr, names: &Names, into: u8) -> Result<Piece, NoMemory>
    requires register { Target into }
    requires room { words_of (expression_of e.now) ≤ EXPRESSION_WORDS }
    requires few { need_of (expression_of e.now) < 10 }
    ensures { IfOk result (λ p.
        p ≡ unmarked (held_value_cells (spot_of_name (known_by names.now)) (expression_of e.now)
        into)) }
{
    match e {
        Expr::Number { word, .. } => xori(alloc, into, *word),
        Expr::Nil { .. } => plain(alloc, e, names, into),
        Expr::Read(place) => plain_read(alloc, e, place, names, into),
        Expr::Binary {
            op,
            left,
            right,
            ..
        } => match kind_by(*op) {
            Kind::Changes => plain(alloc, e, names, into),
            Kind::Gives => given(alloc, names, *op, left, right, into),
            Kind::Joins => given_joined(alloc, names, *op, left, right, into),
            Kind::Neither => plain(alloc, e, names, into),
        },
    }
}

// The truth value of a value, if it is a variable while its word is out.
fn held_truth(alloc: Global, e: &Expr, names: &Names, into: u8) -> Result<Piece, NoMemory>
    requires register { Target into }
    requires room { words_of (expression_of e.now) ≤ EXPRESSION_WORDS }
    requires few { need_of (expression_of e.now) < 10 }
    ensures { IfOk result (λ p.
        p ≡ unmarked (held_truth_cells (spot_of_name (known_by names.now)) (expression_of e.now)
        into)) }
{
    if is_variable(e) {
        let middle = truth(alloc, into, CONTENT)?;
        return taken(alloc, spot(names, e), middle);
    }
    let outer = held(alloc, names, e, 0)?;
    let middle = truth(alloc, into, part(0))?;
    enclosed(alloc, outer, middle)
}

/// Whether it is true xored into a register.
pub fn held_test(alloc: Global, e: &Expr, names: &Names, into: u8) -> Result<Piece, NoMemory>
    requires register { Target into }
    requires room { words_of (expression_of e.now) ≤ EXPRESSION_WORDS }
    requires few { need_of (expression_of e.now) < 10 }
    ensures { IfOk result (λ p.
        p ≡ unmarked (held_test_cells (spot_of_name (known_by names.now)) (expression_of e.now)
        into)) }
{
    if is_truth(e) {
        return held_value(alloc, e, names, into);
    }
    held_truth(alloc, e, names, into)
}
