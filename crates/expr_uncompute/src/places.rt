// The code of updates and swaps.
ghost use Rattle.std.specs.Prelude.{◌≡◌, ◌≢◌, ◌<◌, ◌≤◌, ◌+◌, ◌*◌, ◌^◌, [], ◌∷◌, ◌++◌, length, IfOk};
ghost use Rattle.register_expressions.specs.rpp_tree.Tree.{Whole, Item};
ghost use Rattle.register_expressions.specs.rpp_tree.Views.{expression_of, lvalue_of};
ghost use Rattle.register_expressions.specs.paired_code.Code.{unmarked};
ghost use Rattle.register_expressions.specs.Code.{words as words_of, around, reach_cells, base_of, addi as addi_cell};
ghost use Rattle.expr_uncompute.specs.Code.{place_words as words_of_place, update_cell as cell_of_update, number_cell as cell_of_number, onward_cell as onward_cell, from_object as onward_from_object, from_frame as onward_from_frame_cell, both_reached as both_reached_cells, found_update_cells, held_update_cells, operated_update_cells, whole_update_cells, near_middle as near_middle_cells, near_place_cells, near_update_cells, item_update_cells, update_cells, four_exchanges as four_of, swap_at as swap_at_cells, beyond_cells as beyond_cells, swap_by_one as swap_by_one_cells, have_one_base as one_base, swap_spots as swap_spots_cells, found_swap_cells, near_swap_cells, whole_swap_cells, item_swap_cells, swap_cells};
ghost use Rattle.register_expressions.specs.Held.{need as need_of};
ghost use Rattle.register_expressions.specs.Number.{lvalue_read};
ghost use Rattle.expr_uncompute.specs.Promises.{UpdateLaw, SwapLaw};
ghost use Rattle.expr_uncompute.specs.Sizes.{swap_size};
ghost use Rattle.register_expressions.specs.Steps.{token_count};
ghost use Rattle.expr_uncompute.specs.Steps.{place_tokens};
ghost use Rattle.register_expressions.specs.code_scope.Visible.{offset_of, spot_of as spot_of_name, free_words_of, known_by};

use crate::apart::both_apart;
use crate::found::{both_places, found_value};
use crate::values::{checked, prepare};
use register_expressions::cells::{add, addi, enclosed, exch, sub, xor, xori};
use register_expressions::held::{
    held, held_place, is_near, is_near_index, is_opened_once, need, part,
};
use register_expressions::memory::EXPRESSION_WORDS;
use register_expressions::registers::{
    AMOUNT, CONTENT, FIRST_WORD, FRAME, LEFT, OBJECT, OTHER_PLACE, PLACE, RIGHT, SECOND_WORD,
};
use register_expressions::rows::{base, offset, point, reached};
use register_expressions::tree::{Place, UpdateOp};
use register_expressions::{Expr, Names, NoMemory, Piece, Spot, Text, seq, spot_of, wrap_sub};
use std::alloc::Global;

// The word that is out updated by a register.
fn update_cell(alloc: Global, op: UpdateOp, by: u8) -> Result<Piece, NoMemory>
    requires register { by < 32 }
    requires apart { CONTENT ≢ by }
    ensures { IfOk result (λ p. p ≡ unmarked (cell_of_update op CONTENT by ∷ [])) }
{
    match op {
        UpdateOp::Add => add(alloc, CONTENT, by),
        UpdateOp::Sub => sub(alloc, CONTENT, by),
        UpdateOp::Xor => xor(alloc, CONTENT, by),
    }
}

fn number_cell(alloc: Global, op: UpdateOp, word: u32) -> Result<Piece, NoMemory>
    ensures { IfOk result (λ p. p ≡ unmarked (cell_of_number op CONTENT word ∷ [])) }
{
    match op {
        UpdateOp::Add => addi(alloc, CONTENT, word),
        UpdateOp::Sub => addi(alloc, CONTENT, wrap_sub(0, word)),
        UpdateOp::Xor => xori(alloc, CONTENT, word),
    }
}

// A variable updated by a number.
fn by_number(alloc: Global, op: UpdateOp, spot: Spot, word: u32) -> Result<Piece, NoMemory>
    requires { offset_of spot < 2 ^ 32 }
    ensures { IfOk result (λ p.
        p ≡ unmarked (around (reach_cells spot) (cell_of_number op CONTENT word ∷ []))) }
{
    let outer = reached(alloc, spot)?;
    let middle = number_cell(alloc, op, word)?;
    enclosed(alloc, outer, middle)
}

fn onward_from_field(alloc: Global, from: u32, y: Spot) -> Result<Piece, NoMemory>
    requires { offset_of y < 2 ^ 32 }
    ensures { IfOk result (λ p. p ≡ unmarked (onward_from_object from y ∷ [])) }
{
    match y {
        Spot::Field(_) => addi(alloc, OBJECT, wrap_sub(offset(y), from)),
        Spot::Frame(_) => addi(alloc, FRAME, offset(y)),
    }
}

fn onward_from_frame(alloc: Global, from: u32, y: Spot) -> Result<Piece, NoMemory>
    requires { offset_of y < 2 ^ 32 }
    ensures { IfOk result (λ p. p ≡ unmarked (onward_from_frame_cell from y ∷ [])) }
{
    match y {
        Spot::Field(_) => addi(alloc, OBJECT, offset(y)),
        Spot::Frame(_) => addi(alloc, FRAME, wrap_sub(offset(y), from)),
    }
}

// A base that is at the first storage slot, or the other base, goes to the second.
fn onward(alloc: Global, x: Spot, y: Spot) -> Result<Piece, NoMemory>
    requires first { offset_of x < 2 ^ 32 }
    requires second { offset_of y < 2 ^ 32 }
    ensures { IfOk result (λ p. p ≡ unmarked (onward_cell x y ∷ [])) }
{
    match x {
        Spot::Field(_) => onward_from_field(alloc, offset(x), y),
        Spot::Frame(_) => onward_from_frame(alloc, offset(x), y),
    }
}

fn both_reached(alloc: Global, x: Spot, y: Spot) -> Result<Piece, NoMemory>
    requires first { offset_of x < 2 ^ 32 }
    requires second { offset_of y < 2 ^ 32 }
    ensures { IfOk result (λ p. p ≡ unmarked (both_reached_cells x y)) }
{
    let there = addi(alloc, base(x), offset(x))?;
    let value = exch(alloc, AMOUNT, base(x))?;
    let on = onward(alloc, x, y)?;
    let word = exch(alloc, CONTENT, base(y))?;
    let front = seq(there, value)?;
    let rest = seq(on, word)?;
    seq(front, rest)
}

// A variable, the second, updated by another.
fn by_variable(alloc: Global, op: UpdateOp, x: Spot, y: Spot) -> Result<Piece, NoMemory>
    requires first { offset_of x < 2 ^ 32 }
    requires second { offset_of y < 2 ^ 32 }
    ensures { IfOk result (λ p.
        p ≡ unmarked (around (both_reached_cells x y) (cell_of_update op CONTENT AMOUNT ∷ []))) }
{
    let outer = both_reached(alloc, x, y)?;
    let middle = update_cell(alloc, op, AMOUNT)?;
    enclosed(alloc, outer, middle)
}

// Any place updated by any value.
fn by_value(
    alloc: Global,
    op: UpdateOp,
    place: &Place,
    value: &Expr,
    names: &Names,
) -> Result<Piece, NoMemory>
    requires { words_of_place (lvalue_of place.now) + words_of (expression_of value.now) ≤ EXPRESSION_WORDS }
    ensures { IfOk result (λ p.
        p ≡ unmarked (found_update_cells (spot_of_name (known_by names.now))
        (free_words_of (known_by names.now)) op (lvalue_of place.now) (expression_of value.now))) }
{
    let outer = found_value(alloc, place, value, names)?;
    let alter = update_cell(alloc, op, AMOUNT)?;
    let there = exch(alloc, CONTENT, PLACE)?;
    let middle = enclosed(alloc, there, alter)?;
    enclosed(alloc, outer, middle)
}

// A variable updated by a value whose subexpressions are in registers.
fn by_held(
    alloc: Global,
    op: UpdateOp,
    spot: Spot,
    value: &Expr,
    names: &Names,
) -> Result<Piece, NoMemory>
    requires small { offset_of spot < 2 ^ 32 }
    requires room { words_of (expression_of value.now) ≤ EXPRESSION_WORDS }
    requires few { need_of (expression_of value.now) < 10 }
    ensures { IfOk result (λ p.
        p ≡ unmarked (held_update_cells (spot_of_name (known_by names.now)) op spot
        (expression_of value.now))) }
{
    let outer = held(alloc, names, value, 0)?;
    let there = reached(alloc, spot)?;
    let alter = update_cell(alloc, op, LEFT)?;
    let middle = enclosed(alloc, there, alter)?;
    enclosed(alloc, outer, middle)
}

// A variable updated by a value with an operator.
fn whole_by_operator(
    alloc: Global,
    op: UpdateOp,
    place: &Place,
    value: &Expr,
    names: &Names,
) -> Result<Piece, NoMemory>
    requires room { words_of (expression_of value.now) ≤ EXPRESSION_WORDS }
    requires whole { lvalue_of place.now ≡ Whole place.now.name }
    ensures { IfOk result (λ p.
        p ≡ unmarked (operated_update_cells (spot_of_name (known_by names.now))
        (free_words_of (known_by names.now)) op place.now.name (expression_of value.now))) }
{
    if is_opened_once(value) {
        by_held(alloc, op, spot_of(names, &place.name.text), value, names)
    } else {
        by_value(alloc, op, place, value, names)
    }
}

// A variable updated by a place that is read.
fn whole_by_place(
    alloc: Global,
    op: UpdateOp,
    place: &Place,
    read: &Place,
    value: &Expr,
    names: &Names,
) -> Result<Piece, NoMemory>
    requires room { words_of (expression_of value.now) ≤ EXPRESSION_WORDS }
    requires whole { lvalue_of place.now ≡ Whole place.now.name }
    requires reads { expression_of value.now ≡ lvalue_read (lvalue_of read.now) }
    ensures { IfOk result (λ p.
        p ≡ unmarked (whole_update_cells (spot_of_name (known_by names.now))
        (free_words_of (known_by names.now)) op place.now.name (expression_of value.now))) }
{
    match &read.index {
        None => by_variable(
            alloc,
            op,
            spot_of(names, &read.name.text),
            spot_of(names, &place.name.text),
        ),
        Some(_) => by_value(alloc, op, place, value, names),
    }
}

fn whole_update(
    alloc: Global,
    op: UpdateOp,
    place: &Place,
    value: &Expr,
    names: &Names,
) -> Result<Piece, NoMemory>
    requires room { words_of (expression_of value.now) ≤ EXPRESSION_WORDS }
    requires whole { lvalue_of place.now ≡ Whole place.now.name }
    ensures { IfOk result (λ p.
        p ≡ unmarked (whole_update_cells (spot_of_name (known_by names.now))
        (free_words_of (known_by names.now)) op place.now.name (expression_of value.now))) }
{
    match value {
        Expr::Number { word, .. } => {
            by_number(alloc, op, spot_of(names, &place.name.text), *word)
        }
        Expr::Nil { .. } => by_value(alloc, op, place, value, names),
        Expr::Read(read) => whole_by_place(alloc, op, place, read, value, names),
        Expr::Binary { .. } => whole_by_operator(alloc, op, place, value, names),
    }
}

// An element's index and its address, which is in the register of its array.
fn near_place(alloc: Global, names: &Names, name: &Text, index: &Expr) -> Result<Piece, NoMemory>
    requires { words_of (expression_of index.now) ≤ EXPRESSION_WORDS }
    ensures { IfOk result (λ p.
        p ≡ unmarked (near_place_cells (spot_of_name (known_by names.now))
        (free_words_of (known_by names.now)) name.now (expression_of index.now))) }
{
    let front = prepare(alloc, names, index, 0)?;
    let found = checked(alloc, names, name, index, 0)?;
    let address = point(alloc)?;
    let rest = seq(found, address)?;
    seq(front, rest)
}

// An element's word updated by the value in register k of its parts.
fn near_middle(alloc: Global, op: UpdateOp, k: u32) -> Result<Piece, NoMemory>
    requires { k < 9 }
    ensures { IfOk result (λ p. p ≡ unmarked (near_middle_cells op k)) }
{
    let there = exch(alloc, CONTENT, part(1))?;
    let alter = update_cell(alloc, op, part(k))?;
    enclosed(alloc, there, alter)
}

// An element that is found once updated by a value that is opened once.
#[tactic(auto, using(register_expressions::proofs::HeldBounds::need_least))]
fn near_update(
    alloc: Global,
    op: UpdateOp,
    name: &Text,
    index: &Expr,
    value: &Expr,
    names: &Names,
) -> Result<Piece, NoMemory>
    requires index { words_of (expression_of index.now) ≤ EXPRESSION_WORDS }
    requires value { words_of (expression_of value.now) ≤ EXPRESSION_WORDS }
    requires few { 2 + need_of (expression_of index.now) + need_of (expression_of value.now) < 10 }
    ensures { IfOk result (λ p.
        p ≡ unmarked (near_update_cells (spot_of_name (known_by names.now)) op name.now
        (expression_of index.now) (expression_of value.now))) }
{
    let above = 2 + need(index);
    let found = held_place(alloc, names, name, index)?;
    let opened = held(alloc, names, value, above)?;
    let outer = seq(found, opened)?;
    let middle = near_middle(alloc, op, above)?;
    enclosed(alloc, outer, middle)
}

// An element updated by any value.
fn item_update(
    alloc: Global,
    op: UpdateOp,
    place: &Place,
    index: &Expr,
    value: &Expr,
    names: &Names,
) -> Result<Piece, NoMemory>
    requires room { words_of (expression_of index.now) + words_of (expression_of value.now) ≤
        EXPRESSION_WORDS }
    requires item { lvalue_of place.now ≡ Item place.now.name (expression_of index.now) }
    ensures { IfOk result (λ p.
        p ≡ unmarked (item_update_cells (spot_of_name (known_by names.now))
        (free_words_of (known_by names.now)) op place.now.name (expression_of index.now)
        (expression_of value.now))) }
{
    if is_near(index, value) {
        near_update(alloc, op, &place.name.text, index, value, names)
    } else {
        by_value(alloc, op, place, value, names)
    }
}

// The form that a place and a value have.
fn update_by_form(
    alloc: Global,
    op: UpdateOp,
    place: &Place,
    value: &Expr,
    names: &Names,
) -> Result<Piece, NoMemory>
    requires { words_of_place (lvalue_of place.now) + words_of (expression_of value.now) ≤ EXPRESSION_WORDS }
    ensures { IfOk result (λ p.
        p ≡ unmarked (update_cells (spot_of_name (known_by names.now))
        (free_words_of (known_by names.now)) op (lvalue_of place.now) (expression_of value.now))) }
{
    match &place.index {
        None => whole_update(alloc, op, place, value, names),
        Some(index) => item_update(alloc, op, place, index, value, names),
    }
}

/// An update of a place by a value.
pub fn update_piece(
    alloc: Global,
    op: UpdateOp,
    place: &Place,
    value: &Expr,
    names: &Names,
) -> Result<Piece, NoMemory>
    requires { words_of_place (lvalue_of place.now) + words_of (expression_of value.now) ≤ EXPRESSION_WORDS }
    ensures law { IfOk result (λ p.
        UpdateLaw (spot_of_name (known_by names.now)) (free_words_of (known_by names.now)) op
        (lvalue_of place.now) (expression_of value.now) p.cells) }
    ensures code { IfOk result (λ p.
        p ≡ unmarked (update_cells (spot_of_name (known_by names.now))
        (free_words_of (known_by names.now)) op (lvalue_of place.now) (expression_of value.now))) }
    ensures size { IfOk result (λ p.
        length p.cells ≤ 80 * (place_tokens (lvalue_of place.now) + 1 + token_count
        (expression_of value.now))) }
{
    update_by_form(alloc, op, place, value, names)
}

// The words at two addresses exchanged.
fn four_exchanges(alloc: Global, p: u8, q: u8) -> Result<Piece, NoMemory>
    requires first { p < FIRST_WORD }
    requires second { q < FIRST_WORD }
    ensures { IfOk result (λ x. x ≡ unmarked (four_of p q)) }
{
    let first = exch(alloc, FIRST_WORD, p)?;
    let second = exch(alloc, SECOND_WORD, q)?;
    let third = exch(alloc, SECOND_WORD, p)?;
    let fourth = exch(alloc, FIRST_WORD, q)?;
    let front = seq(first, second)?;
    let front = seq(front, third)?;
    seq(front, fourth)
}

fn swap_at(alloc: Global, x: Spot, y: Spot) -> Result<Piece, NoMemory>
    requires first { offset_of x < 2 ^ 32 }
    requires second { offset_of y < 2 ^ 32 }
    ensures { IfOk result (λ p. p ≡ unmarked (swap_at_cells x y)) }
{
    let there = addi(alloc, base(x), offset(x))?;
    let on = onward(alloc, x, y)?;
    let outer = seq(there, on)?;
    let middle = four_exchanges(alloc, base(x), base(y))?;
    enclosed(alloc, outer, middle)
}

fn beyond(alloc: Global, x: Spot, y: Spot) -> Result<Piece, NoMemory>
    requires first { offset_of x < 2 ^ 32 }
    requires second { offset_of y < 2 ^ 32 }
    ensures { IfOk result (λ p. p ≡ unmarked (beyond_cells x y)) }
{
    let on = onward(alloc, x, y)?;
    let second = exch(alloc, SECOND_WORD, base(y))?;
    let first = exch(alloc, FIRST_WORD, base(y))?;
    let middle = seq(second, first)?;
    enclosed(alloc, on, middle)
}

fn swap_by_one(alloc: Global, x: Spot, y: Spot) -> Result<Piece, NoMemory>
    requires first { offset_of x < 2 ^ 32 }
    requires second { offset_of y < 2 ^ 32 }
    ensures { IfOk result (λ p. p ≡ unmarked (swap_by_one_cells x y)) }
{
    let there = addi(alloc, base(x), offset(x))?;
    let first = exch(alloc, FIRST_WORD, base(x))?;
    let over = beyond(alloc, x, y)?;
    let front = seq(first, over)?;
    let last = exch(alloc, SECOND_WORD, base(x))?;
    let middle = seq(front, last)?;
    enclosed(alloc, there, middle)
}

fn have_one_base(x: Spot, y: Spot) -> bool
    requires first { offset_of x < 2 ^ 32 }
    requires second { offset_of y < 2 ^ 32 }
    ensures { result ≡ one_base x y }
{
    base(x) == base(y) && offset(x) != offset(y)
}

// Two variables swapped.
fn swap_spots(alloc: Global, x: Spot, y: Spot) -> Result<Piece, NoMemory>
    requires first { offset_of x < 2 ^ 32 }
    requires second { offset_of y < 2 ^ 32 }
    ensures { IfOk result (λ p. p ≡ unmarked (swap_spots_cells x y)) }
{
    if have_one_base(x, y) {
        swap_by_one(alloc, x, y)
    } else {
        swap_at(alloc, x, y)
    }
}

// Any two places swapped.
fn swap_found(alloc: Global, left: &Place, right: &Place, names: &Names) -> Result<Piece, NoMemory>
    requires { words_of_place (lvalue_of left.now) + words_of_place (lvalue_of right.now) ≤ EXPRESSION_WORDS }
    ensures { IfOk result (λ p.
        p ≡ unmarked (found_swap_cells (spot_of_name (known_by names.now))
        (free_words_of (known_by names.now)) (lvalue_of left.now) (lvalue_of right.now))) }
{
    let places = both_places(alloc, left, right, names)?;
    let check = both_apart(alloc, names, left, right)?;
    let found = seq(places, check)?;
    let middle = four_exchanges(alloc, PLACE, OTHER_PLACE)?;
    enclosed(alloc, found, middle)
}

// A variable's base at its word and an element's address in a register, around what exchanges them.
fn around_near(
    alloc: Global,
    names: &Names,
    spot: Spot,
    name: &Text,
    index: &Expr,
    middle: Piece,
) -> Result<Piece, NoMemory>
    requires small { offset_of spot < 2 ^ 32 }
    requires room { words_of (expression_of index.now) ≤ EXPRESSION_WORDS }
    requires middle { middle.marks ≡ [] }
    ensures { IfOk result (λ p.
        p ≡ unmarked (around (near_place_cells (spot_of_name (known_by names.now))
        (free_words_of (known_by names.now)) name.now (expression_of index.now)
        ++ addi_cell (base_of spot) (offset_of spot) ∷ []) middle.cells)) }
{
    let found = near_place(alloc, names, name, index)?;
    let there = addi(alloc, base(spot), offset(spot))?;
    let outer = seq(found, there)?;
    enclosed(alloc, outer, middle)
}

// A variable and an element that is found once.
fn variable_first(
    alloc: Global,
    left: &Place,
    right: &Place,
    index: &Expr,
    names: &Names,
) -> Result<Piece, NoMemory>
    requires room { words_of (expression_of index.now) ≤ EXPRESSION_WORDS }
    ensures { IfOk result (λ p.
        p ≡ unmarked (near_swap_cells (spot_of_name (known_by names.now))
        (free_words_of (known_by names.now))
        (base_of (spot_of_name (known_by names.now) left.now.name.text)) RIGHT
        (spot_of_name (known_by names.now) left.now.name.text) right.now.name.text
        (expression_of index.now))) }
{
    let spot = spot_of(names, &left.name.text);
    let middle = four_exchanges(alloc, base(spot), RIGHT)?;
    around_near(alloc, names, spot, &right.name.text, index, middle)
}

// The same with the element at the left.
fn variable_second(
    alloc: Global,
    left: &Place,
    index: &Expr,
    right: &Place,
    names: &Names,
) -> Result<Piece, NoMemory>
    requires room { words_of (expression_of index.now) ≤ EXPRESSION_WORDS }
    ensures { IfOk result (λ p.
        p ≡ unmarked (near_swap_cells (spot_of_name (known_by names.now))
        (free_words_of (known_by names.now)) RIGHT
        (base_of (spot_of_name (known_by names.now) right.now.name.text))
        (spot_of_name (known_by names.now) right.now.name.text) left.now.name.text
        (expression_of index.now))) }
{
    let spot = spot_of(names, &right.name.text);
    let middle = four_exchanges(alloc, RIGHT, base(spot))?;
    around_near(alloc, names, spot, &left.name.text, index, middle)
}

fn whole_swap(alloc: Global, left: &Place, right: &Place, names: &Names) -> Result<Piece, NoMemory>
    requires room { words_of_place (lvalue_of right.now) ≤ EXPRESSION_WORDS }
    requires whole { lvalue_of left.now ≡ Whole left.now.name }
    ensures { IfOk result (λ p.
        p ≡ unmarked (whole_swap_cells (spot_of_name (known_by names.now))
        (free_words_of (known_by names.now)) left.now.name (lvalue_of right.now))) }
{
    match &right.index {
        None => swap_spots(
            alloc,
            spot_of(names, &left.name.text),
            spot_of(names, &right.name.text),
        ),
        Some(index) => {
            if is_near_index(index) {
                variable_first(alloc, left, right, index, names)
            } else {
                swap_found(alloc, left, right, names)
            }
        }
    }
}

fn item_swap(
    alloc: Global,
    left: &Place,
    index: &Expr,
    right: &Place,
    names: &Names,
) -> Result<Piece, NoMemory>
    requires room { words_of (expression_of index.now) + words_of_place (lvalue_of right.now) ≤
        EXPRESSION_WORDS }
    requires item { lvalue_of left.now ≡ Item left.now.name (expression_of index.now) }
    ensures { IfOk result (λ p.
        p ≡ unmarked (item_swap_cells (spot_of_name (known_by names.now))
        (free_words_of (known_by names.now)) left.now.name (expression_of index.now)
        (lvalue_of right.now))) }
{
    match &right.index {
        None => {
            if is_near_index(index) {
                variable_second(alloc, left, index, right, names)
            } else {
                swap_found(alloc, left, right, names)
            }
        }
        Some(_) => swap_found(alloc, left, right, names),
    }
}

fn swap_by_form(
    alloc: Global,
    left: &Place,
    right: &Place,
    names: &Names,
) -> Result<Piece, NoMemory>
    requires { words_of_place (lvalue_of left.now) + words_of_place (lvalue_of right.now) ≤ EXPRESSION_WORDS }
    ensures { IfOk result (λ p.
        p ≡ unmarked (swap_cells (spot_of_name (known_by names.now)) (free_words_of (known_by names.now))
        (lvalue_of left.now) (lvalue_of right.now))) }
{
    match &left.index {
        None => whole_swap(alloc, left, right, names),
        Some(index) => item_swap(alloc, left, index, right, names),
    }
}

/// Code that exchanges the values of two places.
pub fn swap_piece(
    alloc: Global,
    left: &Place,
    right: &Place,
    names: &Names,
) -> Result<Piece, NoMemory>
    requires { words_of_place (lvalue_of left.now) + words_of_place (lvalue_of right.now) ≤ EXPRESSION_WORDS }
    ensures law { IfOk result (λ p.
        SwapLaw (spot_of_name (known_by names.now)) (free_words_of (known_by names.now))
        (lvalue_of left.now) (lvalue_of right.now) p.cells) }
    ensures code { IfOk result (λ p.
        p ≡ unmarked (swap_cells (spot_of_name (known_by names.now)) (free_words_of (known_by names.now))
        (lvalue_of left.now) (lvalue_of right.now))) }
    ensures size { IfOk result (λ p.
        length p.cells ≤ swap_size (lvalue_of left.now) (lvalue_of right.now)) }
{
    swap_by_form(alloc, left, right, names)
}
